// The least 1-tree by the greedy choice, for every input; document 01's 'The 1-tree'.
#![tactic(auto)]

ghost use Rattle.std.specs.Prelude.{◌≡◌};
ghost use Rattle.tree_theory.specs.Arrays.{blank};
ghost use Rattle.greedy.specs.Least.{blank_lists, LeastOrRefused};

mod charges;
mod checked;
mod fronts;
mod kruskal;
mod order;
mod parts;
mod refusals;
mod sort;

pub use checked::Checked;
use graph::{Graph, MAX_COST, MAX_EDGES, Refusal, VERTEX_PLACES};
pub use parts::least_parts;
pub use refusals::{
    Denominator, ceiling_fault, ceiling_fits, denominator_fault, denominator_fits, input_fault,
    multipliers_fault, multipliers_fit,
};

// Limits, as specs/Limits.antt of crate graph has them.
pub const MAX_MULTIPLIER: i32 = 1_000_000;

pub const MAX_CEILING: i64 = 5_000_000_000;

pub const MAX_DENOMINATOR: u64 = 1_000;

// A label for each vertex, which number from 1.
pub const MAX_LABELS: usize = VERTEX_PLACES;

// How large q times a cost gets, whatever the denominator q.
pub const MAX_SCALED: u64 = MAX_DENOMINATOR * MAX_COST as u64;

// What a search is lent, and leaves its findings in: the least 1-tree, one byte an edge; each edge's charge; the order in which edges were looked at, a
// hint for the next time; and the labels that required edges give the vertices. Arrays of a fixed size, since no call takes memory; the tree's bytes are
// those that a call hands on to C.
#[derive(Clone, Copy, Debug, PartialEq, Eq)]
pub struct Lists {
    pub tree: [u8; MAX_EDGES],
    pub charges: [u64; MAX_EDGES],
    // `Found.live` of them: as an `ArrayVec`, filling it takes 262 instructions for 181 at 8 vertices, 1,411 for 883 at 20; by one copy 237 and 945.
    pub order: [u8; MAX_EDGES],
    pub labels: [u8; VERTEX_PLACES],
}

impl Lists {
    // Ruled out: a byte that is not 0; a charge that is not 0.
    pub fn blank() -> Lists
        ensures { result ≡ blank_lists }
    {
        Lists {
            tree: [0; MAX_EDGES],
            charges: [0; MAX_EDGES],
            order: [0; MAX_EDGES],
            labels: [0; VERTEX_PLACES],
        }
    }

    // Nothing is left of a tree, nor of the order in which its edges were looked at.
    // Ruled out: a byte of either left standing; a charge or a label changed.
    pub fn forget_tree(&mut self)
        ensures { self.new ≡ record self.old { tree = blank; order = blank } }
    {
        self.tree = [0; MAX_EDGES];
        self.order = [0; MAX_EDGES];
    }
}

// The bound of the least 1-tree, and how many edges the order lists.
#[derive(Clone, Copy, Debug, PartialEq, Eq)]
pub struct Found {
    pub bound: i64,
    pub live: usize,
}

// What was found, and at how many free edges the loop looked that joins the vertices other than vertex 1 (document 02, C-12).
#[derive(Clone, Copy)]
pub(crate) struct Outcome {
    pub found: Option<Found>,
    pub looked: usize,
}

// The first fault of a graph, its multipliers and a denominator; or else the least 1-tree by the greedy choice, from any hint.
// Ruled out: a byte of the lists changed where there is a fault; 32 where the multipliers are at fault.
// Inlined, as `Checked::least`, so that a caller that has just made its lists blank has them blanked once.
#[inline(always)]
pub fn least(
    g: &Graph,
    multipliers: &[i32],
    denominator: u64,
    hint: &[u8],
    lists: &mut Lists,
) -> Result<Option<Found>, Refusal>
    ensures { LeastOrRefused denominator g.now multipliers.now lists.old result lists.new }
{
    let checked = Checked::new(g, multipliers, usize::from(g.m))?;
    let q = Denominator::new(denominator)?;
    Ok(checked.least(q, hint, lists))
}
