// For each free edge the best edge to change places with it, on the other side of the tree, and what the change costs.
ghost use Rattle.std.specs.Prelude.{◌≡◌, true, false, ◌<◌, ◌≤◌, ◌||◌, cond, eqb, ltb, List, ℕ, length, get_or, set, replicate};
ghost use Rattle.greedy.specs.Charged.{no_charge};
ghost use Rattle.lifting.specs.Folds.{more};
ghost use Rattle.lifting.specs.Found.{cost_of, key_of};
ghost use Rattle.lifting.specs.Meeting.{on_in};
ghost use Rattle.lifting.specs.Loops.{belongs, PlacesTo};
ghost use Rattle.onetree.specs.Picks.{no_pick, lower_at, meets_by, Placed, Early, belongs_at, offered, passed, touching, lowered, cost_with, PickBy, PicksTo, Unpicked};
ghost use Rattle.onetree.specs.Masks.{BitsTo, Circled, OfferedTo, BestsTo, ListedTo};

use crate::rooted::{EndLabels, LeastTree, Rooting};
use crate::rulings::NONE;
use crate::sides::Sides;
use arrayvec::ArrayVec;
use graph::{FREE, Graph, MAX_EDGES, VERTEX_PLACES};

// Of the edges that may change places with one: the place of the best, its key, and the best keys at each of that one's ends; a key of 0 where there is none.
// A place is a word: a byte would leave bytes beside it that are written too.
#[derive(Clone, Copy)]
pub(crate) struct Pick {
    pub place: usize,
    pub top: u64,
    pub at_a: u64,
    pub at_b: u64,
}

impl Pick {
    pub(crate) fn none() -> Pick
        ensures { result ≡ no_pick }
    {
        Pick {
            place: 0,
            top: 0,
            at_a: 0,
            at_b: 0,
        }
    }

    // One more, the edge at place f, of the key x. Of equals the first stays. In place, by tests: most are no better, and then nothing is written.
    // Ruled out: the later of two equals.
    #[tactic(auto, unfolding(lifting::specs::Folds::more))]
    fn meet(&mut self, f: usize, x: u64)
        ensures { self.new ≡ record {
          place = cond (ltb self.old.top x) f self.old.place;
          top = more self.old.top x;
          at_a = self.old.at_a;
          at_b = self.old.at_b;
        } }
    {
        if self.top < x {
            self.place = f;
            self.top = x;
        }
    }

    // And at the ends a and b, where it is at them.
    // Ruled out: a key at an end at which the edge is not.
    #[tactic(auto, unfolding(lifting::specs::Folds::more))]
    fn meet_at(&mut self, x: u64, at_a: bool, at_b: bool)
        ensures { self.new ≡ record {
          place = self.old.place;
          top = self.old.top;
          at_a = cond at_a (more self.old.at_a x) self.old.at_a;
          at_b = cond at_b (more self.old.at_b x) self.old.at_b;
        } }
    {
        if at_a && self.at_a < x {
            self.at_a = x;
        }
        if at_b && self.at_b < x {
            self.at_b = x;
        }
    }
}

// Whether vertex v is an end of the edge at place f.
pub(crate) fn is_end(g: &Graph, v: u8, f: usize) -> bool
    requires { f < 190 }
    ensures { result ≡ on_in g.now.a g.now.b v f }
{
    g.a[f] == v || g.b[f] == v
}

// A charge as a key, which is larger for the better edge: in the tree the cheapest comes in, outside it the dearest gives way. None is 0.
fn key(inside: bool, charge: u64) -> u64
    requires { charge ≤ no_charge }
    ensures { result ≡ key_of no_charge inside charge }
{
    if inside { NONE - charge } else { charge }
}

// What a change costs an edge of this charge: its reduced cost, or in the tree its replacement cost. NONE where no edge changes places with it.
#[tactic(auto, unfolding(lifting::specs::Found::cost_of))]
pub(crate) fn cost(inside: bool, charge: u64, top: u64) -> u64
    requires { charge ≤ no_charge }
    ensures { (result ≡ cost_of no_charge (key_of no_charge inside charge) top) × (result ≤ no_charge) }
{
    if top == 0 {
        NONE
    } else {
        key(inside, charge).saturating_sub(top)
    }
}

// The places of the free edges of the tree and of those outside it, in the order of their numbers. Lists that are lent are filled: one that is returned is
// copied. By place: two arrays are read there, and the place is what is listed.
// Ruled out: an edge that is not free; one of the tree among the others.
pub(crate) fn list_sides(
    tree: &LeastTree,
    ins: &mut ArrayVec<u8, MAX_EDGES>,
    outs: &mut ArrayVec<u8, MAX_EDGES>,
)
    requires { (length ins.old.items ≡ 0) × (length outs.old.items ≡ 0) }
    ensures { ListedTo tree.now.graph.now.mark tree.now.lists.now.tree ins.new.items outs.new.items tree.now.graph.now.m }
{
    let g = tree.graph;
    for k in 0..usize::from(g.m) {
        let free = g.mark[k] == FREE;
        if free {
            if tree.lists.tree[k] == 1 {
                ins.push(k as u8);
            } else {
                outs.push(k as u8);
            }
        }
    }
}

// What tells which edges change places: the least 1-tree, hung.
#[derive(Clone, Copy)]
pub(crate) struct Swapping<'a> {
    pub tree: LeastTree<'a>,
    pub ends: &'a EndLabels,
    pub hung: &'a Rooting,
}

impl Swapping<'_> {
    // The label that an edge of the tree hangs above: the deeper of its two.
    #[tactic(auto, unfolding(lifting::specs::Meeting::deeper_of))]
    pub(crate) fn lower(&self, i: usize) -> usize
        requires { Placed self.now × (i < self.now.tree.graph.now.m) }
        ensures { (result ≡ lower_at self.now i) × (result < 21) }
    {
        let p = usize::from(self.ends.from[i]);
        let q = usize::from(self.ends.to[i]);
        if self.hung.depth[p] < self.hung.depth[q] {
            q
        } else {
            p
        }
    }

    // Whether an end of the edge at place k is an end of the one at place i.
    fn touching(&self, i: usize, k: usize) -> bool
        requires { (i < self.now.tree.graph.now.m) × (k < self.now.tree.graph.now.m) }
        ensures { result ≡ touching self.now i k }
    {
        let g = self.tree.graph;
        is_end(g, g.a[k], i) || is_end(g, g.b[k], i)
    }

    // Of an edge of the tree at place i and one outside it at place k, which change places: the best for either once it meets the other.
    // Where they have no vertex in common no key at an end is better.
    fn exchange(&self, i: usize, k: usize, inner: &mut Pick, outer: &mut Pick)
        requires { Placed self.now × (i < self.now.tree.graph.now.m) × (k < self.now.tree.graph.now.m) }
        ensures { (inner.new ≡ offered self.now true i k inner.old) × (outer.new ≡ offered self.now false k i outer.old) }
    {
        let g = self.tree.graph;
        let x = key(true, self.tree.lists.charges[k]);
        let y = key(false, self.tree.lists.charges[i]);
        inner.meet(k, x);
        outer.meet(i, y);
        if self.touching(i, k) {
            inner.meet_at(x, is_end(g, g.a[i], k), is_end(g, g.b[i], k));
            outer.meet_at(y, is_end(g, g.a[k], i), is_end(g, g.b[k], i));
        }
    }

    // This is the best for the edge at place k, and what the change costs may be the least at its ends.
    fn settle(
        &self,
        inside: bool,
        k: usize,
        pick: Pick,
        picks: &mut [Pick; MAX_EDGES],
        lows: &mut [u64; VERTEX_PLACES],
    )
        requires { Placed self.now × (k < self.now.tree.graph.now.m) }
        ensures { (picks.new ≡ set picks.old k pick) × (lows.new ≡ lowered self.now k (cost_with self.now inside k pick) lows.old) }
    {
        let g = self.tree.graph;
        picks[k] = pick;
        let x = cost(inside, self.tree.lists.charges[k], pick.top);
        let a = usize::from(g.a[k]);
        let b = usize::from(g.b[k]);
        lows[a] = lows[a].min(x);
        lows[b] = lows[b].min(x);
    }
}

// And in bits: the free edges of the tree, and the sides of its labels.
#[derive(Clone, Copy)]
pub(crate) struct Circles<'a> {
    pub swapping: Swapping<'a>,
    pub ins: &'a [u8],
    pub sides: &'a Sides,
}

impl Circles<'_> {
    // The edges of the tree that change places with the free one outside it at place k: both at vertex 1, or neither, and the ends of that one lie on two
    // sides of the other.
    // Ruled out: one at vertex 1 with one that is not.
    fn meets(&self, k: usize) -> u32
        requires { Circled self.now × (k < self.now.swapping.tree.graph.now.m) }
        ensures { BitsTo result (length self.now.ins.now) (λ j. meets_by self.now.swapping (get_or self.now.ins.now j 0) k) }
    {
        if self.swapping.tree.graph.a[k] == 1 {
            return self.sides.near;
        }
        let ends = self.swapping.ends;
        let from = self.sides.below[usize::from(ends.from[k])];
        let to = self.sides.below[usize::from(ends.to[k])];
        from ^ to
    }

    // The best of the tree for the free edge outside it at place k, which is offered to each of those that change places with it.
    // A while: its bits are taken off from the lowest up. (The iterator of set bits is `node`'s, above this crate.)
    fn offer(&self, k: usize, bests: &mut [Pick; VERTEX_PLACES]) -> Pick
        requires { Circled self.now × (k < self.now.swapping.tree.graph.now.m) }
        ensures { PickBy self.now.swapping false self.now.ins.now k result
            × OfferedTo self.now.swapping self.now.ins.now k bests.old bests.new (length self.now.ins.now) }
    {
        let mut best = Pick::none();
        let mut bits = self.meets(k);
        while bits != 0 {
            let j = bits.trailing_zeros() as usize;
            let i = usize::from(self.ins[j]);
            self.swapping.exchange(i, k, &mut bests[j], &mut best);
            bits &= bits - 1;
        }
        best
    }

    // The best for each free edge outside the tree, into its place, and at each vertex the least cost of those that are there; and the best for each free
    // edge of the tree, in the order of their list.
    pub(crate) fn pick_outside(
        &self,
        outs: &[u8],
        bests: &mut [Pick; VERTEX_PLACES],
        picks: &mut [Pick; MAX_EDGES],
        lows: &mut [u64; VERTEX_PLACES],
    )
        requires { Circled self.now × Early self.now.swapping.tree.graph.now.m outs.now × (bests.old ≡ replicate 21 no_pick) × (lows.old ≡ Unpicked) }
        ensures { PicksTo self.now.swapping false outs.now self.now.ins.now picks.old picks.new lows.new (length outs.now)
            × BestsTo self.now.swapping self.now.ins.now outs.now bests.new (length outs.now) }
    {
        for e in outs {
            let k = usize::from(*e);
            let pick = self.offer(k, bests);
            self.swapping.settle(false, k, pick, picks, lows);
        }
    }

    // The best for each free edge of the tree, into its place, and at each vertex the least cost of those that are there.
    pub(crate) fn pick_inside(
        &self,
        bests: &[Pick; VERTEX_PLACES],
        picks: &mut [Pick; MAX_EDGES],
        lows: &mut [u64; VERTEX_PLACES],
    )
        requires { Circled self.now × (lows.old ≡ Unpicked) }
        ensures { (outs : List ℕ) → BestsTo self.now.swapping self.now.ins.now outs bests.now (length outs)
            → PicksTo self.now.swapping true self.now.ins.now outs picks.old picks.new lows.new (length self.now.ins.now) }
    {
        for (j, e) in self.ins.iter().enumerate() {
            let k = usize::from(*e);
            self.swapping.settle(true, k, bests[j], picks, lows);
        }
    }
}
