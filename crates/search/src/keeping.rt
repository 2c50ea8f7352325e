// Which tour is kept of the best one and a found one: the cheaper, and of two that cost the same the first.
ghost use Rattle.std.specs.Prelude.{◌≡◌, ◌≤◌, ◌<◌, true, false, ℕ, eqb, get_or, MatchOption};
ghost use Rattle.graph.specs.Limits.{max_edges};
ghost use Rattle.graph.specs.Network.{network};
ghost use Rattle.graph.specs.Valid.{Valid};
ghost use Rattle.tree_theory.specs.OneTree.{lacks_first};
ghost use Rattle.tree_theory.specs.Arrays.{bytes};
ghost use Rattle.tours.specs.Tours as Tours;
ghost use Rattle.search.specs.Record.{has_tour};
ghost use Rattle.search.specs.Runs.Keeping.{replaces_by, kept_in};

use crate::Search;
use crate::cost::tour_cost;
use graph::{MAX_EDGES, ValidGraph};
use std::cmp::Ordering;

// Here m stands in each `requires`: the number of edges beside two tours that `replaces` alone compares; a struct of the three, made for it, would
// say no less.

// The highest-numbered of the first m edges in which the tours differ. By place: the place is the answer, which `rposition` over a `zip` of the two
// lists' first m would name no more plainly.
fn last_difference(m: usize, f: &[u8; MAX_EDGES], b: &[u8; MAX_EDGES]) -> Option<usize>
    requires { m ≤ max_edges }
    ensures { MatchOption result ((j : ℕ) → j < m → eqb (get_or f.now j 0) 1 ≡ eqb (get_or b.now j 0) 1)
        (λ k. (k < m) × ¬ (eqb (get_or f.now k 0) 1 ≡ eqb (get_or b.now k 0) 1)
        × ((j : ℕ) → k < j → j < m → eqb (get_or f.now j 0) 1 ≡ eqb (get_or b.now j 0) 1)) }
{
    (0..m).rev().find(|&k| (f[k] == 1) != (b[k] == 1))
}

// Whether the tour f lacks the highest-numbered of the first m edges in which it differs from b.
fn comes_first(m: usize, f: &[u8; MAX_EDGES], b: &[u8; MAX_EDGES]) -> bool
    requires { m ≤ max_edges }
    ensures { result ≡ lacks_first m (bytes f.now) (bytes b.now) }
{
    last_difference(m, f, b).is_some_and(|k| b[k] == 1)
}

// Whether a found tour f of cost x takes the place of the best tour b.
fn replaces(valid: ValidGraph, x: i64, f: &[u8; MAX_EDGES], b: &[u8; MAX_EDGES]) -> bool
    ensures { result
        ≡ replaces_by valid.entry.graph.now.m x (Tours.cost (network valid.entry.graph.now) (bytes b.now)) f.now b.now }
{
    let m = usize::from(valid.graph.m);
    match x.cmp(&tour_cost(valid, b)) {
        Ordering::Less => true,
        Ordering::Equal => comes_first(m, f, b),
        Ordering::Greater => false,
    }
}

impl Search {
    // The incumbent, if there is one: the record has a byte for the flag, since C lends it, and all that asks for the tour asks here.
    pub(crate) fn incumbent(&self) -> Option<&[u8; MAX_EDGES]>
        ensures { MatchOption result (has_tour self.now ≡ false) (λ best. (has_tour self.now ≡ true) × (best.now ≡ self.now.best)) }
    {
        (self.has_best == 1).then_some(&self.best)
    }

    // A found tour: the upper bound is its cost, and it is the incumbent, unless the one that is there stays. `Valid` is required, since the graph is
    // the record's own: a `ValidGraph` of it, handed over beside `&mut self`, would lend it twice.
    pub(crate) fn keep(&mut self, found: &[u8; MAX_EDGES])
        requires { Valid self.old.graph }
        ensures { self.new ≡ kept_in self.old found.now }
    {
        let valid = ValidGraph { graph: &self.graph };
        let cost = tour_cost(valid, found);
        // `is_none_or` was tried: the check hands on nothing of a closure that holds a `ValidGraph`, not even the closure's own `ensures`.
        let better = match self.incumbent() {
            Some(best) => replaces(valid, cost, found, best),
            None => true,
        };
        if better {
            self.best = *found;
        }
        self.upper = cost;
        self.has_best = 1;
    }
}
