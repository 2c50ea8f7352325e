// The calls on a dispatcher, on one that the caller lends: each is crate dispatcher's, and its answer in numbers (document 02, C-24). The place that
// was added or served is the answer's place.
ghost use Rattle.std.specs.Prelude.{◌≡◌};
ghost use Rattle.dispatch_theory.specs.Dispatcher as Calls;
ghost use Rattle.lent_records.specs.Records.{replies};
ghost use Rattle.machine.specs.Machine.{opening_of};
ghost use Rattle.dispatcher.specs.Replies.{dispatchers};
ghost use Rattle.ffi.specs.Dispatches.{Leaves, LeavesList};

use crate::{Outcome, Reply};
use dispatcher::Dispatcher;
use graph::Graph;
use machine::Settings;

// The place that was added.
// Ruled out: another place; the place as the call's number.
impl From<usize> for Reply {
    ghost use Rattle.std.specs.Prelude.{◌≡◌, Ok};
    ghost use Rattle.dispatcher.specs.Replies.{add_means};
    ghost use Rattle.ffi.specs.Dispatches.{said_at};

    ghost from_gives = { λ place said. said ≡ said_at (add_means (Ok place)) };

    fn from(place: usize) -> Reply {
        Reply {
            place: place as u64,
            ..Reply::default()
        }
    }
}

// The place that a turn served, if it served one.
// Ruled out: 0 as the number of an idle turn; a place that was not served.
impl From<Option<usize>> for Reply {
    ghost use Rattle.std.specs.Prelude.{◌≡◌, Ok};
    ghost use Rattle.dispatcher.specs.Replies.{turn_means};
    ghost use Rattle.ffi.specs.Dispatches.{said_at};

    ghost from_gives = { λ served said. said ≡ said_at (turn_means (Ok served)) };

    fn from(served: Option<usize>) -> Reply {
        match served {
            Some(place) => place.into(),
            None => Outcome::Idle.into(),
        }
    }
}

// Ruled out: a place that holds a search; a byte that is not zero.
#[unsafe(no_mangle)]
pub extern "C" fn planner_fresh_dispatcher() -> Dispatcher
    ensures { result ≡ (replies dispatchers).fresh }
{
    Dispatcher::fresh()
}

// Adding a search. Ruled out: a place other than the free one with the smallest number; a part of a refused opening in a place.
#[unsafe(no_mangle)]
pub extern "C" fn planner_add(
    d: &mut Dispatcher,
    g: Graph,
    multipliers: &[i32],
    ashore: &[u8],
    settings: Settings,
) -> Reply
    ensures { Leaves d.old (Calls.add (opening_of g multipliers.now ashore.now settings)) result d.new }
{
    Reply::from(d.add(&g, multipliers, ashore, settings))
}

// A turn of p nodes. Ruled out: a place named that was not served; a dispatcher changed by an idle turn.
#[unsafe(no_mangle)]
pub extern "C" fn planner_turn(d: &mut Dispatcher, p: u64) -> Reply
    ensures { Leaves d.old (Calls.turn p) result d.new }
{
    Reply::from(d.turn(p))
}

// Ruled out: the verdict of another place; a dispatcher changed.
#[unsafe(no_mangle)]
pub extern "C" fn planner_tell_at(d: &mut Dispatcher, place: usize) -> Reply
    ensures { Leaves d.old (Calls.tell_at place) result d.new }
{
    Reply::from(d.tell(place))
}

// Ruled out: a refusal with a byte of `out` changed; the tour of another place.
#[unsafe(no_mangle)]
pub extern "C" fn planner_show_at(d: &mut Dispatcher, place: usize, out: &mut [u8]) -> Reply
    ensures { LeavesList d.old (Calls.show_at place out.old) result d.new out.new }
{
    Reply::from(d.show(place, out))
}

// Ruled out: a byte of the search left in the place; another place changed.
#[unsafe(no_mangle)]
pub extern "C" fn planner_close_at(d: &mut Dispatcher, place: usize) -> Reply
    ensures { Leaves d.old (Calls.close_at place) result d.new }
{
    Reply::from(d.close(place))
}
