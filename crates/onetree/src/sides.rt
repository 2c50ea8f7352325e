// On which side of each free edge of the tree a label lies, in bits: bit j of a word is for the j-th of the list of their places. The tree has at most 20
// edges, so that a word of 32 bits has room.
ghost use Rattle.std.specs.Prelude.{◌≡◌, ◌<◌, ◌≤◌, List, ℕ, length, replicate};
ghost use Rattle.lifting.specs.Loops.{Climbable};
ghost use Rattle.onetree.specs.Picks.{Placed, Early};
ghost use Rattle.onetree.specs.Masks.{BitsTo, below_at, Overs, Sided};

use crate::picks::Swapping;
use graph::VERTEX_PLACES;

// The edges at vertex 1; by label those that hang right above it; and by label those that it hangs below.
#[derive(Drop)]
pub(crate) struct Sides {
    pub near: u32,
    pub over: [u32; VERTEX_PLACES],
    pub below: [u32; VERTEX_PLACES],
}

impl Sides {
    pub(crate) fn blank() -> Sides
        ensures { result ≡ record { near = 0; over = replicate 21 0; below = replicate 21 0 } }
    {
        Sides {
            near: 0,
            over: [0; VERTEX_PLACES],
            below: [0; VERTEX_PLACES],
        }
    }

    // Each edge at vertex 1, or above the label that it hangs above.
    fn list(&mut self, swapping: &Swapping, ins: &[u8])
        requires { Placed swapping.now × Early swapping.now.tree.graph.now.m ins.now × (length ins.now ≤ 20)
            × (self.old ≡ record { near = 0; over = replicate 21 0; below = replicate 21 0 }) }
        ensures { Overs swapping.now ins.now self.new.near self.new.over (length ins.now) × (self.new.below ≡ replicate 21 0) }
    {
        for (j, e) in ins.iter().enumerate() {
            let i = usize::from(*e);
            if swapping.tree.graph.a[i] == 1 {
                self.near |= 1 << j;
            } else {
                let v = swapping.lower(i);
                self.over[v] |= 1 << j;
            }
        }
    }

    // The edges that x hangs below: those above each label on its way to the root. A while: each step goes on from the label above, as many as x is deep.
    fn climb(&self, swapping: &Swapping, x: usize) -> u32
        requires { Climbable swapping.now.hung.now.parent swapping.now.hung.now.depth × (x < 21) }
        ensures { (ins : List ℕ) → Overs swapping.now ins self.now.near self.now.over (length ins)
            → BitsTo result (length ins) (below_at swapping.now ins x) }
    {
        let hung = swapping.hung;
        let mut bits = 0;
        let mut y = x;
        let mut left = hung.depth[x];
        while left != 0 {
            bits |= self.over[y];
            y = usize::from(hung.parent[y]);
            left -= 1;
        }
        bits
    }

    // All of it. By number: a climb reads the struct whose place is written.
    pub(crate) fn fill(&mut self, swapping: &Swapping, ins: &[u8])
        requires { Placed swapping.now × Early swapping.now.tree.graph.now.m ins.now × (length ins.now ≤ 20)
            × Climbable swapping.now.hung.now.parent swapping.now.hung.now.depth
            × (self.old ≡ record { near = 0; over = replicate 21 0; below = replicate 21 0 }) }
        ensures { Sided swapping.now ins.now self.new.near self.new.below 21 }
    {
        self.list(swapping, ins);
        for x in 0..VERTEX_PLACES {
            self.below[x] = self.climb(swapping, x);
        }
    }
}
