// Refusal 35, and 11 with the list that it is about.
ghost use Rattle.std.specs.Prelude.{◌≡◌, ◌&&◌, not, eqb, leb};
ghost use Rattle.graph.specs.Limits.{min_vertices};
ghost use Rattle.graph.specs.Refusals.{fault_of};
ghost use Rattle.afloat.specs.Over as over;
ghost use Rattle.reduction.specs.Answers.{input_fault_over, tree_fault_over};
ghost use Rattle.reduction.specs.Listed.{bytes_fit};

use crate::vertices::{active, all_afloat, is_ashore};
use graph::{Graph, MIN_VERTICES, Refusal};
use onetree::{denominator_fault, multipliers_fault};

// Is each byte 1 for ashore or 0 for afloat?
fn all_bytes_fit(ashore: &[u8]) -> bool
    ensures { result ≡ bytes_fit ashore.now }
{
    ashore.iter().all(|byte| *byte <= 1)
}

// Is vertex 1 afloat, and are at least three of n vertices?
fn enough(ashore: &[u8], n: usize) -> bool
    ensures { result ≡ not (over.ashore ashore.now 1) && leb min_vertices (over.active_count (over.ashore ashore.now) n) }
{
    !is_ashore(ashore, 0) && active(ashore, n) >= MIN_VERTICES
}

// Does the list fit n vertices: is each byte 0 or 1, and are enough afloat? That it is all zero is seen first, as most are.
fn ashore_fits(ashore: &[u8], n: usize) -> bool
    ensures { result ≡ over.ashore_fits ashore.now n }
{
    if all_afloat(ashore) {
        return n >= MIN_VERTICES;
    }
    all_bytes_fit(ashore) && enough(ashore, n)
}

// Refusal 35 where a byte is above 1, vertex 1 is ashore, or fewer than three vertices are afloat.
// Ruled out: none for a 2 at a place where a 1 would do; none where two vertices are afloat; 35 where just three are.
#[tactic(auto, unfolding(afloat::specs::Over::ashore_fault))]
pub fn ashore_fault(ashore: &[u8], n: usize) -> Result<(), Refusal>
    ensures { fault_of result ≡ over.ashore_fault ashore.now n }
{
    Refusal::Ashore.unless(ashore_fits(ashore, n))
}

// Are these the lengths of the multipliers, of the list of vertices, and of a lent list for the edges?
fn lengths_fit(g: &Graph, multipliers: usize, ashore: usize, lent: usize) -> bool
    ensures { result ≡ (eqb multipliers g.now.n && eqb ashore g.now.n) && eqb lent g.now.m }
{
    let n = usize::from(g.n);
    multipliers == n && ashore == n && lent == usize::from(g.m)
}

// The first of refusals 15, 11 and 12, of a graph, its multipliers, a list of bytes for its vertices and a lent list of length lent.
// Ruled out: 12 where the list of vertices is of wrong length; none where the lent list alone is.
pub fn input_fault(
    g: &Graph,
    multipliers: &[i32],
    ashore: &[u8],
    lent: usize,
) -> Result<(), Refusal>
    ensures { fault_of result ≡ input_fault_over g.now multipliers.now ashore.now lent 0 }
{
    g.fault()?;
    Refusal::Length.unless(lengths_fit(g, multipliers.len(), ashore.len(), lent))?;
    multipliers_fault(multipliers)
}

// The first fault of a tree call: 35 follows 32.
// Ruled out: 35 where the denominator is at fault too; 11 for a list of vertices of the right length.
#[inline(always)]
pub fn tree_fault(
    g: &Graph,
    multipliers: &[i32],
    ashore: &[u8],
    denominator: u64,
    lent: usize,
) -> Result<(), Refusal>
    ensures { fault_of result ≡ tree_fault_over g.now multipliers.now ashore.now denominator lent }
{
    input_fault(g, multipliers, ashore, lent)?;
    denominator_fault(denominator)?;
    ashore_fault(ashore, usize::from(g.n))
}
