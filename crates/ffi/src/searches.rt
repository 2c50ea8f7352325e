// The calls on a search, on a record that the caller lends: each is crate search's, and its answer in numbers.
ghost use Rattle.std.specs.Prelude.{◌≡◌};
ghost use Rattle.machine.specs.Calls as Calls;
ghost use Rattle.search.specs.Record.{fresh};
ghost use Rattle.machine.specs.Machine.{opening_of};
ghost use Rattle.ffi.specs.Searches.{Leaves, LeavesList};

use crate::{Outcome, Reply};
use graph::Graph;
use machine::Settings;
use search::{Progress, Search, Verdict};

// Ruled out: 'finished' for a search that goes on; another count of nodes.
impl From<Progress> for Reply {
    ghost use Rattle.std.specs.Prelude.{◌≡◌, Ok};
    ghost use Rattle.search.specs.Replies.{run_means};
    ghost use Rattle.ffi.specs.Answers.{said_of};

    ghost from_gives = { λ progress said. said ≡ said_of (run_means (Ok progress)) };

    fn from(progress: Progress) -> Reply {
        match progress {
            Progress::GoingOn(count) => Reply::counted(Outcome::GoingOn, 0, count),
            Progress::Finished(count) => Reply::counted(Outcome::Finished, 0, count),
        }
    }
}

// Ruled out: a cost where there is no tour; 'none' for a search that goes on.
impl From<Verdict> for Reply {
    ghost use Rattle.std.specs.Prelude.{◌≡◌, Ok};
    ghost use Rattle.search.specs.Replies.{tell_means};
    ghost use Rattle.ffi.specs.Answers.{said_of};

    ghost from_gives = { λ verdict said. said ≡ said_of (tell_means (Ok verdict)) };

    fn from(verdict: Verdict) -> Reply {
        match verdict {
            Verdict::Searching(count) => Reply::counted(Outcome::GoingOn, 0, count),
            Verdict::NoTour(count) => Reply::counted(Outcome::NoTour, 0, count),
            Verdict::Best { cost, count } => Reply::counted(Outcome::Best, cost, count),
        }
    }
}

// Ruled out: an open search; a byte that is not zero.
#[unsafe(no_mangle)]
pub extern "C" fn planner_fresh() -> Search
    ensures { result ≡ fresh }
{
    Search::fresh()
}

// Opening. Ruled out: a part of a refused opening in the record; an upper bound that is not the ceiling.
#[unsafe(no_mangle)]
pub extern "C" fn planner_open(
    s: &mut Search,
    g: Graph,
    multipliers: &[i32],
    ashore: &[u8],
    settings: Settings,
) -> Reply
    ensures { Leaves s.old (Calls.opens (opening_of g multipliers.now ashore.now settings)) result s.new }
{
    Reply::from(s.open(&g, multipliers, ashore, settings))
}

// Running. Ruled out: a node opened beyond the budget; 'finished' while nodes wait.
#[unsafe(no_mangle)]
pub extern "C" fn planner_run(s: &mut Search, budget: u64) -> Reply
    ensures { Leaves s.old (Calls.run budget) result s.new }
{
    Reply::from(s.run(budget))
}

// Telling. Ruled out: a cost while nodes wait; a record changed.
#[unsafe(no_mangle)]
pub extern "C" fn planner_tell(s: &mut Search) -> Reply
    ensures { Leaves s.old Calls.tell result s.new }
{
    Reply::from(s.tell())
}

// Showing. Ruled out: a refusal with a byte of `out` changed; a tour after 'none'.
#[unsafe(no_mangle)]
pub extern "C" fn planner_show(s: &mut Search, out: &mut [u8]) -> Reply
    ensures { LeavesList s.old (Calls.show out.old) result s.new out.new }
{
    Reply::from(s.show(out))
}

// Closing. Ruled out: a byte of the search left in the record; a record that fails its check made fresh.
#[unsafe(no_mangle)]
pub extern "C" fn planner_close(s: &mut Search) -> Reply
    ensures { Leaves s.old Calls.close result s.new }
{
    Reply::from(s.close())
}
