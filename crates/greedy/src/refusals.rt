// Refusals 15, 11, 12, 13 and 32: what is wrong with a call's input. Each number is told at one place.
ghost use Rattle.std.specs.Prelude.{◌≡◌, ◌≤◌, cond, not, IfOk};
ghost use Rattle.integers.specs.Range.{within};
ghost use Rattle.greedy.specs.AllWithin.{all_within};
ghost use Rattle.graph.specs.Limits.{max_denominator, max_multiplier};
ghost use Rattle.graph.specs.Refusals.{fault_of};
ghost use Rattle.tree_theory.specs.Inputs.{multipliers_fit, ceiling_fits, denominator_fits, denominator_fault, input_fault};

use crate::{MAX_CEILING, MAX_DENOMINATOR, MAX_MULTIPLIER};
use graph::{Graph, MAX_VERTICES, Refusal};

// A line of its own, and so is the ceiling's, since their types differ: at graph's `cost_ok` stands why.
#[tactic(auto, using(crate::proofs::Contains::within_contains))]
fn multiplier_fits(x: i32) -> bool
    ensures { result ≡ within max_multiplier x }
{
    (-MAX_MULTIPLIER..=MAX_MULTIPLIER).contains(&x)
}

// By `&`, as graph's `costs_fit`; but a list that is longer than any graph's is looked at no further than the first that does not fit.
fn all_fit(multipliers: &[i32]) -> bool
    ensures { result ≡ all_within max_multiplier multipliers.now }
{
    if multipliers.len() > MAX_VERTICES {
        return multipliers.iter().all(|x| multiplier_fits(*x));
    }
    multipliers
        .iter()
        .fold(true, |fit, x| fit & multiplier_fits(*x))
}

// Is each multiplier in its range, and that of vertex 1 zero?
// Ruled out: yes where only the last is out of range; no for a list that is right but empty.
pub fn multipliers_fit(multipliers: &[i32]) -> bool
    ensures { result ≡ multipliers_fit multipliers.now }
{
    all_fit(multipliers) && (multipliers.is_empty() || multipliers[0] == 0)
}

// Refusal 12 where a multiplier is out of its range, or that of vertex 1 is not zero.
// Ruled out: 12 for a multiplier at either end of the range; none where only the first is wrong.
pub fn multipliers_fault(multipliers: &[i32]) -> Result<(), Refusal>
    ensures { fault_of result ≡ cond (not (multipliers_fit multipliers.now)) 12 0 }
{
    Refusal::Multiplier.unless(multipliers_fit(multipliers))
}

// Is the ceiling in its range?
// Ruled out: no for a ceiling at either end of the range; yes for one past it.
#[tactic(auto, using(crate::proofs::Contains::within_contains), unfolding(tree_theory::specs::Inputs::ceiling_fits))]
pub fn ceiling_fits(ceiling: i64) -> bool
    ensures { result ≡ ceiling_fits ceiling }
{
    (-MAX_CEILING..=MAX_CEILING).contains(&ceiling)
}

// Refusal 13 where the ceiling is out of its range.
// Ruled out: 13 at either end of the range; none past it.
pub fn ceiling_fault(ceiling: i64) -> Result<(), Refusal>
    ensures { fault_of result ≡ cond (not (ceiling_fits ceiling)) 13 0 }
{
    Refusal::Ceiling.unless(ceiling_fits(ceiling))
}

// Is the denominator in its range?
// Ruled out: yes for 0; no for either end of the range.
#[tactic(auto, using(crate::proofs::Contains::counted_contains), unfolding(tree_theory::specs::Inputs::denominator_fits))]
pub fn denominator_fits(denominator: u64) -> bool
    ensures { result ≡ denominator_fits denominator }
{
    (1..=MAX_DENOMINATOR).contains(&denominator)
}

// Refusal 32 where the denominator is out of its range.
// Ruled out: 32 at either end of the range; none past it.
#[tactic(auto, unfolding(tree_theory::specs::Inputs::denominator_fault))]
pub fn denominator_fault(denominator: u64) -> Result<(), Refusal>
    ensures { fault_of result ≡ denominator_fault denominator }
{
    Refusal::Denominator.unless(denominator_fits(denominator))
}

// A denominator that refusal 32 does not meet.
#[derive(Clone, Copy)]
pub struct Denominator {
    pub q: u64,
    pub ghost low: { 1 ≤ q },
    pub ghost fits: { q ≤ max_denominator },
}

impl Denominator {
    // Ruled out: another number than the one given; 32 at either end of the range.
    #[tactic(auto, using(tree_theory::specs::Accepted::denominator_range))]
    pub fn new(denominator: u64) -> Result<Denominator, Refusal>
        ensures fault { fault_of result ≡ denominator_fault denominator }
        ensures same { IfOk result (λ d. d.q ≡ denominator) }
    {
        denominator_fault(denominator)?;
        Ok(Denominator { q: denominator })
    }
}

// The first fault of a graph, its multipliers and a lent list of length lent, in document 01's order.
// Ruled out: 12 where a list is of wrong length; 11 where the graph is at fault.
pub fn input_fault(g: &Graph, multipliers: &[i32], lent: usize) -> Result<(), Refusal>
    ensures { fault_of result ≡ input_fault g.now multipliers.now lent 0 }
{
    g.fault()?;
    Refusal::Length.unless(multipliers.len() == usize::from(g.n) && lent == usize::from(g.m))?;
    multipliers_fault(multipliers)
}
