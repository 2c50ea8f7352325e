// Document 02's C-21: a tour sailed edge by edge, and a search for each pair of sweeps and step. Neither needs a record.
ghost use Rattle.std.specs.Prelude.{◌≡◌, length};
ghost use Rattle.sailing.specs.Simulation.{simulation_reply, simulation_leaves};
ghost use Rattle.compare.specs.Comparison.{compare_reply, compare_leaves};
ghost use Rattle.ffi.specs.Answers.{said_of, said_sailing};

use crate::Reply;
use compare::Terms;
use graph::{Graph, Refusal};

// What a simulation answers: 0, the total and the last state; or a refusal's number and place, and 0 for the others, in C's form as Reply is. No
// refusal of this call has a place.
#[repr(C)]
#[derive(Clone, Copy, Debug, PartialEq, Eq, Default)]
pub struct Sailed {
    pub number: u32,
    pub place: u64,
    pub total: i64,
    pub state: u64,
}

// Ruled out: a total beside a refusal's number; the last state as the total.
impl From<Result<simulation::Sailed, Refusal>> for Sailed {
    ghost use Rattle.std.specs.Prelude.{◌≡◌};
    ghost use Rattle.simulation.specs.Answers.{simulation_meaning};
    ghost use Rattle.ffi.specs.Answers.{said_sailing};

    ghost from_gives = { λ answer said. said ≡ said_sailing (simulation_meaning answer) };

    #[tactic(auto, unfolding(simulation::specs::Answers::simulation_meaning))]
    fn from(answer: Result<simulation::Sailed, Refusal>) -> Sailed {
        match answer {
            Ok(sailed) => Sailed {
                total: sailed.total,
                state: sailed.state,
                ..Sailed::default()
            },
            Err(refusal) => Sailed {
                number: refusal.into(),
                ..Sailed::default()
            },
        }
    }
}

// Ruled out: a tour's edges accepted in another order; a time written by a refusal.
#[unsafe(no_mangle)]
pub extern "C" fn planner_simulate(
    g: Graph,
    edges: &[usize],
    student: u64,
    spread: u64,
    times: &mut [i64],
) -> Sailed
    ensures { (result ≡ said_sailing (simulation_reply g edges.now student spread (length times.old)))
        × (times.new ≡ simulation_leaves g edges.now student spread times.old) }
{
    Sailed::from(simulation::simulate(&g, edges, student, spread, times))
}

// Ruled out: a budget handed on from one pair to the next; a count written before a later pair is refused.
#[unsafe(no_mangle)]
pub extern "C" fn planner_compare(
    g: Graph,
    multipliers: &[i32],
    ashore: &[u8],
    terms: Terms,
    sweeps: &[u32],
    steps: &[u32],
    report: &mut [u64],
) -> Reply
    ensures { (result ≡ said_of (compare_reply g multipliers.now ashore.now terms sweeps.now steps.now (length report.old)))
        × (report.new ≡ compare_leaves g multipliers.now ashore.now terms sweeps.now steps.now report.old) }
{
    Reply::from(compare::compare(&g, multipliers, ashore, terms, sweeps, steps, report))
}
