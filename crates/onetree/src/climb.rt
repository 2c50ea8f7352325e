// The circle that an edge closes with the tree: its two ends climb to where they meet.
ghost use Rattle.std.specs.Prelude.{get_or};
ghost use Rattle.swaps.specs.Hanging.{Hangs, Vertex};
ghost use Rattle.swaps.specs.RootedTree.{shape};
ghost use Rattle.swaps.specs.Climbing.{Climbed};

use crate::rooted::Rooting;
use graph::VERTEX_PLACES;
use std::mem::swap;

impl Rooting {
    // The deeper of the two climbs, until they meet: the largest weight on the circle, and every edge on it is offered c, of which its place
    // keeps the cheapest.
    // Ruled out: an edge above the meeting counted, or one below it left out.
    pub(crate) fn climb(
        &self,
        cheapest: &mut [u64; VERTEX_PLACES],
        from: usize,
        to: usize,
        c: u64,
    ) -> u64
        requires { Hangs (shape self.now.parent self.now.depth)
            × Vertex (shape self.now.parent self.now.depth) from × Vertex (shape self.now.parent self.now.depth) to }
        ensures { Climbed (shape self.now.parent self.now.depth) (λ v. get_or self.now.weight v 0)
            cheapest.old c from to result cheapest.new }
    {
        let mut top: u64 = 0;
        let mut x = from;
        let mut y = to;
        // Document 01's 'labelled break out of the nested climb'. As one loop, which swaps where the other is deeper, climbs took 1.11 times the instructions.
        'walk: loop {
            loop {
                if x == y {
                    break 'walk;
                }
                if self.depth[x] < self.depth[y] {
                    break;
                }
                top = top.max(self.weight[x]);
                cheapest[x] = cheapest[x].min(c);
                x = usize::from(self.parent[x]);
            }
            swap(&mut x, &mut y);
        }
        top
    }
}
