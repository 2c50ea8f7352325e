// Document 02's C-21: a given tour sailed edge by edge, with delays of each student's own. (Its words: leg for edge, buoy for vertex, round for
// tour, e for the spread.) Crate `sailing` says what a simulation is.
#![tactic(auto)]

ghost use Rattle.std.specs.Prelude.{◌≡◌, ◌≤◌, ◌<◌, ◌+◌, length, ◌+ℤ◌};
ghost use Rattle.integers.specs.Range.{InRange};
ghost use Rattle.graph.specs.Limits.{max_cost};
ghost use Rattle.graph.specs.Network.{network};
ghost use Rattle.graph.specs.Refusals.{fault_of};
ghost use Rattle.sailing.specs.Draws.{max_spread, modulus, next, delay, after};
ghost use Rattle.sailing.specs.Times.{total};
ghost use Rattle.sailing.specs.Orders.{in_sailing_order};
ghost use Rattle.sailing.specs.Simulation.{simulation_fault, times_of, simulation_reply, simulation_leaves};
ghost use Rattle.simulation.specs.Answers.{simulation_meaning};
ghost use Rattle.simulation.specs.Steps.{leads_to};

use graph::{Graph, Refusal, VERTEX_PLACES, ValidGraph};
use std::mem;

// As specs/Draws.antt of crate sailing has them.
pub const MAX_STUDENT: u64 = 65_535;

pub const MAX_SPREAD: u64 = 1_000;

const FACTOR: u64 = 1_664_525;

const INCREMENT: u64 = 1_013_904_223;

const MODULUS: u64 = 4_294_967_296;

// A draw is what a state has above these.
const LOW: u64 = 65_536;

// The end of a sailing: the total and the last state.
#[derive(Clone, Copy, Debug, PartialEq, Eq)]
pub struct Sailed {
    pub total: i64,
    pub state: u64,
}

// The state that one leg makes of s.
#[tactic(auto, using(sailing::specs::Apart::next_small), unfolding(sailing::specs::Draws::next))]
fn next(s: u64) -> u64
    requires { s < modulus }
    ensures { (result ≡ next s) × (result < modulus) }
{
    (FACTOR * s + INCREMENT) % MODULUS
}

// The time of an edge of this cost in state s.
fn time(cost: i32, spread: u64, s: u64) -> i64
    requires { InRange max_cost cost × (spread ≤ max_spread) × (s < modulus) }
    ensures { (result ≡ cost +ℤ delay spread s) × InRange (max_cost + max_spread) result }
{
    let drawn = s / LOW % (2 * spread + 1);
    i64::from(cost) + (drawn as i64 - spread as i64)
}

// Where edge k leads from vertex u: nowhere if there is no such edge, or u is no end of it.
#[tactic(auto, using(crate::specs::Steps::leads_not_listed, crate::specs::Steps::leads_from_a, crate::specs::Steps::leads_from_b, crate::specs::Steps::leads_nowhere), unfolding(graph::specs::Numbered::edge_place))]
fn leads(g: &ValidGraph, k: usize, u: u8) -> Option<u8>
    ensures { result ≡ leads_to (network g.now.graph.now) k u }
{
    let place = g.graph.place(k)?;
    let (a, b) = (g.graph.a[place], g.graph.b[place]);
    if a == u {
        Some(b)
    } else if b == u {
        Some(a)
    } else {
        None
    }
}

// Are the edges a tour of all vertices in sailing order from vertex 1? Each leads to a vertex not come to before, the last to vertex 1.
fn in_order(g: &ValidGraph, edges: &[usize]) -> bool
    requires { length edges.now ≡ g.now.graph.now.n }
    ensures { result ≡ in_sailing_order (network g.now.graph.now) edges.now }
{
    let mut met = [false; VERTEX_PLACES];
    let mut at = 1;
    // no try_fold: its closure would write `met` besides what it hands on
    for &k in edges {
        let Some(v) = leads(g, k, at) else {
            return false;
        };
        let place = usize::from(v);
        if mem::replace(&mut met[place], true) {
            return false;
        }
        at = v;
    }
    at == 1
}

// What is simulated: a tour, sailed by a student with delays of this spread.
#[derive(Clone, Copy)]
struct Simulation<'a> {
    g: &'a Graph,
    edges: &'a [usize],
    student: u64,
    spread: u64,
}

impl<'a> Simulation<'a> {
    // The first fault, in document 02's order; `len` is the length of the lent list.
    #[tactic(auto, using(graph::specs::Meaning::graph_fine), unfolding(sailing::specs::Simulation::simulation_fault))]
    fn fault(&self, len: usize) -> Result<(), Refusal>
        ensures { fault_of result ≡ simulation_fault self.now.g.now self.now.edges.now self.now.student self.now.spread len }
    {
        let g = self.g.valid()?;
        let n = usize::from(self.g.n);
        Refusal::Length.unless(self.edges.len() == n && len == n)?;
        Refusal::Tour.unless(in_order(&g, self.edges))?;
        Refusal::StudentOrSpread.unless(self.spread <= MAX_SPREAD && self.student <= MAX_STUDENT)
    }

    // The sailing itself: each edge's time, their total and the last state.
    fn sail(&self, times: &mut [i64]) -> Sailed
        requires { simulation_fault self.now.g.now self.now.edges.now self.now.student self.now.spread (length times.old) ≡ 0 }
        ensures { (result.total ≡ total (times_of self.now.g.now self.now.edges.now self.now.student self.now.spread))
            × (result.state ≡ after (length self.now.edges.now) self.now.student)
            × (times.new ≡ times_of self.now.g.now self.now.edges.now self.now.student self.now.spread) }
    {
        let mut total = 0;
        let mut state = self.student;
        // by the place in `times`: of a list that is written through an adapter of iter_mut (zip) a proof knows nothing afterwards
        for (i, &k) in self.edges.iter().enumerate() {
            let drawn = next(state);
            let t = time(self.g.cost[k - 1], self.spread, drawn);
            times[i] = t;
            total += t;
            state = drawn;
        }
        Sailed { total, state }
    }
}

// A given tour sailed edge by edge: each edge's time in `times`, the total and the last state.
// Ruled out: a tour's edges accepted in another order than the sailing order; a delay drawn before the step; a time written by a refusal.
pub fn simulate(
    g: &Graph,
    edges: &[usize],
    student: u64,
    spread: u64,
    times: &mut [i64],
) -> Result<Sailed, Refusal>
    ensures { (simulation_meaning result
        ≡ simulation_reply g.now edges.now student spread (length times.old))
        × (times.new ≡ simulation_leaves g.now edges.now student spread times.old) }
{
    let simulation = Simulation {
        g,
        edges,
        student,
        spread,
    };
    simulation.fault(times.len())?;
    Ok(simulation.sail(times))
}
