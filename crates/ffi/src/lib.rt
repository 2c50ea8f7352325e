// The calls for C, C++, Rust and Python, as include/planner.h has them: a graph goes in by value, a record or a graph to be filled is lent. The three fresh
// calls answer a record, planner_simulate four numbers of its own, and every other call the same four: document 01's number, 0 where the call is accepted,
// and the place, the value and the count of nodes, 0 where the answer has none.
#![tactic(auto)]

ghost use Rattle.std.specs.Prelude.{◌≡◌, length};
ghost use Rattle.charts.specs.Chart.{reading, write_outcome, write_leaves};
ghost use Rattle.ffi.specs.Answers.{counted, said_outcome, check_outcome, Fills};
ghost use Rattle.ffi.specs.Outcomes.{number_of};

mod dispatches;
mod logs;
mod searches;
mod shelves;
mod simulations;
mod trees;

use graph::{Graph, Refusal, Refused};

// What a call answers beside document 01's numbers; no refusal has one of these.
#[derive(Clone, Copy)]
pub(crate) enum Outcome {
    // 'no tree' and 'dead'
    Nothing = 1000,
    GoingOn = 1001,
    Finished = 1002,
    // 'None': no tour is within the ceiling.
    NoTour = 1003,
    Best = 1004,
    // A turn that found no unfinished search.
    Idle = 1005,
}

// Ruled out: the number of another outcome; the number of a refusal.
impl From<Outcome> for u32 {
    ghost from_gives = { λ outcome n. n ≡ number_of outcome };

    fn from(outcome: Outcome) -> u32 {
        outcome as u32
    }
}

// What a call answers. C has no Option and no enum with values, so all four fields are always there, and 0 stands for none.
#[repr(C)]
#[derive(Clone, Copy, Debug, PartialEq, Eq, Default)]
pub struct Reply {
    pub number: u32,
    pub place: u64,
    pub value: i64,
    pub nodes: u64,
}

impl Reply {
    // An outcome with a value and a count of nodes.
    fn counted(outcome: Outcome, value: i64, nodes: u64) -> Reply
        ensures { result ≡ counted (number_of outcome) value nodes }
    {
        Reply {
            number: outcome.into(),
            value,
            nodes,
            ..Reply::default()
        }
    }
}

// A call that has nothing to tell.
// Ruled out: a number other than 0; a place or a value.
impl From<()> for Reply {
    ghost use Rattle.ffi.specs.Answers.{plain};

    ghost from_gives = { λ _ said. said ≡ plain 0 0 };

    fn from(_done: ()) -> Reply {
        Reply::default()
    }
}

// Ruled out: the number of another outcome; a count of nodes beside it.
impl From<Outcome> for Reply {
    ghost use Rattle.ffi.specs.Answers.{plain};
    ghost use Rattle.ffi.specs.Outcomes.{number_of};

    ghost from_gives = { λ outcome said. said ≡ plain (number_of outcome) 0 };

    fn from(outcome: Outcome) -> Reply {
        Reply::counted(outcome, 0, 0)
    }
}

// Ruled out: a place left out; the number of another refusal.
impl From<Refused> for Reply {
    ghost use Rattle.std.specs.Option.{unwrap_or};
    ghost use Rattle.graph.specs.Refusals.{number};
    ghost use Rattle.ffi.specs.Answers.{plain};

    ghost from_gives = { λ refused said. said ≡ plain (number refused.refusal) (unwrap_or refused.place 0) };

    fn from(refused: Refused) -> Reply {
        Reply {
            number: refused.refusal.into(),
            place: refused.place.unwrap_or(0),
            ..Reply::default()
        }
    }
}

// Ruled out: the number of another refusal; a place other than 0.
impl From<Refusal> for Reply {
    ghost use Rattle.graph.specs.Refusals.{number};
    ghost use Rattle.ffi.specs.Answers.{plain};

    ghost from_gives = { λ refusal said. said ≡ plain (number refusal) 0 };

    fn from(refusal: Refusal) -> Reply {
        Refused::from(refusal).into()
    }
}

// What was told, or why it was refused: each has its numbers above, or beside the calls that tell it.
// Ruled out: other numbers than those of what was told; other numbers than those of the refusal.
impl<T: Into<Reply>, E: Into<Reply>> From<Result<T, E>> for Reply {
    ghost use Rattle.std.specs.Prelude.{MatchResult};

    ghost from_gives = { λ r said. MatchResult r (λ x. T.converts x said) (λ e. E.converts e said) };

    fn from(answer: Result<T, E>) -> Reply {
        match answer {
            Ok(x) => x.into(),
            Err(e) => e.into(),
        }
    }
}

// Ruled out: 0 for a graph that breaks 'Legs and marks'; any number but 15 for it.
#[unsafe(no_mangle)]
pub extern "C" fn planner_check(g: Graph) -> Reply
    ensures { result ≡ said_outcome (check_outcome g) }
{
    Reply::from(g.fault())
}

// Ruled out: a graph changed by a refusal; a place left out.
#[tactic(auto, unfolding(charts::specs::Chart::read_meaning, charts::specs::Chart::accept, charts::specs::Chart::refuse))]
#[unsafe(no_mangle)]
pub extern "C" fn planner_read(g: &mut Graph, bytes: &[u8]) -> Reply
    ensures { Fills g.old (reading bytes.now) result g.new }
{
    match charts::read(bytes) {
        Ok(read) => {
            *g = read;
            Reply::from(())
        }
        Err(refused) => Reply::from(refused),
    }
}

// Ruled out: a byte written by a refusal; 11 for a graph that breaks 'Legs and marks'.
#[tactic(auto, unfolding(charts::specs::Answers::write_meaning))]
#[unsafe(no_mangle)]
pub extern "C" fn planner_write(g: Graph, out: &mut [u8]) -> Reply
    ensures { (result ≡ said_outcome (write_outcome g (length out.old)))
        × (out.new ≡ write_leaves g out.old) }
{
    Reply::from(charts::write(&g, out))
}
