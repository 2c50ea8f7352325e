// Charged costs, each moved up by one offset so that it is unsigned, and the bound that a sum of them stands for; multipliers count in q-ths of a
// minute (document 02, C-17).
ghost use Rattle.std.specs.Prelude.{◌≡◌, ℕ, ◌*◌, ◌<◌, ◌≤◌, length, get_or, ◌+ℤ◌};
ghost use Rattle.integers.specs.Parts.{IsDiff};
ghost use Rattle.integers.specs.Range.{InRange};
ghost use Rattle.integers.specs.Multiples.{◌times◌};
ghost use Rattle.graph.specs.Limits.{max_cost, max_multiplier, max_edges, max_vertices};
ghost use Rattle.graph.specs.Valid.{Valid};
ghost use Rattle.tree_theory.specs.Inputs.{multiplier};
ghost use Rattle.tree_theory.specs.Multipliers.{Ranged};
ghost use Rattle.greedy.specs.Charged.{offset, max_scaled, max_charge, Cheap};
ghost use Rattle.greedy.specs.Charging.{AllCharged, Raised, BoundOf};

use crate::{Checked, Denominator, MAX_MULTIPLIER, MAX_SCALED};
use graph::{Graph, MAX_EDGES};

// What a charge is moved up by for its cost: one more than that, so that no charge is 0.
const COST_OFFSET: u64 = MAX_SCALED + 1;

// And for the multiplier of each end.
const MULTIPLIER_OFFSET: u64 = MAX_MULTIPLIER as u64;

// A number moved up by its limit. In 64 bits, so that the compiler makes one number of all that a charge is moved up by.
fn raised(x: i64, limit: u64) -> u64
    requires { (limit ≤ max_scaled) × InRange limit x }
    ensures { IsDiff x result limit × (result ≤ 2 * limit) }
{
    (x + limit as i64) as u64
}

fn charge(q: Denominator, cost: i32, x: i32, y: i32) -> u64
    requires { InRange max_cost cost × InRange max_multiplier x × InRange max_multiplier y }
    ensures { IsDiff ((q.q times cost +ℤ x) +ℤ y) result offset × (1 ≤ result) × (result ≤ max_charge) }
{
    raised(q.q as i64 * i64::from(cost), MAX_SCALED)
        + raised(x.into(), MULTIPLIER_OFFSET)
        + raised(y.into(), MULTIPLIER_OFFSET)
        + 1
}

// The multiplier of vertex v.
fn multiplier_at(multipliers: &[i32], v: u8) -> i32
    requires { (1 ≤ v) × (v ≤ length multipliers.now) }
    ensures { result ≡ multiplier multipliers.now v }
{
    multipliers[usize::from(v) - 1]
}

impl Checked<'_> {
    // Every edge's charge. By place: three arrays are read and one is written; over `charges[..m].iter_mut().enumerate()` the other three are still read so,
    // and the invariant names a part of the charges, which the proof must put back. Their length is said, since a caller that lends a field is not told it.
    fn charge_each(&self, q: Denominator, charges: &mut [u64; MAX_EDGES])
        ensures { AllCharged q.q self.now.graph.now self.now.multipliers.now charges.old charges.new }
    {
        let Checked {
            graph: g,
            multipliers,
        } = *self;
        for k in 0..usize::from(g.m) {
            let x = multiplier_at(multipliers, g.a[k]);
            let y = multiplier_at(multipliers, g.b[k]);
            charges[k] = charge(q, g.cost[k], x, y);
        }
    }

    // The same. Multipliers mostly count in minutes: with the number 1 itself the compiler leaves the product out. Without this a tree or a pass takes 53
    // instructions more at 8 vertices, 376 at 20.
    pub(crate) fn charge(&self, q: Denominator, charges: &mut [u64; MAX_EDGES])
        ensures { AllCharged q.q self.now.graph.now self.now.multipliers.now charges.old charges.new }
    {
        if q.q == 1 {
            self.charge_each(Denominator { q: 1 }, charges);
        } else {
            self.charge_each(q, charges);
        }
    }

    // The bound of a 1-tree whose charges add up to sum: what each was moved up by for its cost comes off, for as many edges as there are vertices, and twice
    // the multipliers, moved up as they are.
    pub(crate) fn bound(&self, sum: u64) -> i64
        requires { sum ≤ max_charge * max_edges }
        ensures { BoundOf self.now.graph.now.n self.now.multipliers.now sum result }
    {
        let t = total(self.multipliers);
        sum as i64 - (2 * t + COST_OFFSET * u64::from(self.graph.n)) as i64
    }
}

// A graph whose edges have their charges, both lent: none is 0, nor too large for its key.
#[derive(Clone, Copy)]
pub(crate) struct ChargedGraph<'a> {
    pub(crate) graph: &'a Graph,
    pub(crate) charges: &'a [u64; MAX_EDGES],
    ghost valid: { Valid graph.now },
    ghost low: { (k : ℕ) → k < graph.now.m → 1 ≤ get_or charges.now k 0 },
    ghost cheap: { Cheap graph.now charges.now },
}

// The sum of the multipliers, each moved up by its limit.
#[tactic(auto, using(crate::specs::Charging::raised_none, crate::specs::Fits::raised_sum_fits))]
fn total(multipliers: &[i32]) -> u64
    requires { Ranged multipliers.now × (length multipliers.now ≤ max_vertices) }
    ensures { Raised multipliers.now (length multipliers.now) result }
{
    // a loop: the law of `sum` after `map` wants a function of the item, and what `raised` promises is a relation
    let mut sum = 0;
    for x in multipliers {
        sum += raised(i64::from(*x), MULTIPLIER_OFFSET);
    }
    sum
}
