// Document 01's 'The hunt': the record that the caller lends, and the calls on it. Our words: search for hunt, stack for pile, incumbent
// for best round, multipliers for dues, upper bound for the present ceiling U, budget for allowance.
#![tactic(auto)]

ghost use Rattle.std.specs.Prelude.{◌≡◌, true, OnOk};
ghost use Rattle.machine.specs.Calls as Calls;
ghost use Rattle.graph.specs.Refusals.{fault_of};
ghost use Rattle.search.specs.Record.{fresh};
ghost use Rattle.machine.specs.Machine.{opening_of};
ghost use Rattle.search.specs.Check.{check};
ghost use Rattle.search.specs.Seen.{state_in, Again};
ghost use Rattle.search.specs.Replies.{closed_fault, means, run_means, tell_means, reply, lent};

mod cost;
mod keeping;
mod opening;
mod record;
mod running;
mod stack;
mod vertices;

use cost::tour_cost;
use graph::{Graph, MAX_EDGES, MAX_VERTICES, Refusal, ValidGraph};
use machine::Settings;
use node::NODE_WORDS;
use opening::Opening;

// As specs/Limits.antt of crate graph has it.
pub const MAX_COUNT: u64 = 9_223_372_036_854_775_807;

// Room for the nodes that wait, six words each: at most two more than there are active vertices.
pub const MAX_NODES: usize = MAX_VERTICES + 2;

pub const STACK_SIZE: usize = NODE_WORDS * MAX_NODES;

// And for the multipliers that they carry, one for each active vertex.
pub const CARRIED_SIZE: usize = MAX_VERTICES * MAX_NODES;

// The search record. Where a search is open: the arguments of its opening, the upper bound, the count of nodes opened, the stack (node p
// from the bottom has six words from place NODE_WORDS * p on, three with a bit for each required edge and three with one for each excluded
// edge, and carries a multiplier for each active vertex, in their order, from place MAX_VERTICES * p on), the incumbent (1 in, 0 out), and the list of
// the vertices ashore (1 ashore, 0 afloat). The flags `open` and `has_best` are bytes, 1 yes and 0 no. The fields stand by width, so that no byte lies
// between them. docs/RECORD.md states the check that every call makes of it. Bytes for flags, flat arrays and a depth beside them, since
// include/planner.h and docs/RECORD.md declare them so, field by field: the code reads the incumbent as an `Option` (`incumbent`), and a node by `get`
// and `put` alone.
#[repr(C)]
#[derive(Clone, Copy, Debug, PartialEq, Eq)]
pub struct Search {
    pub settings: Settings,
    pub upper: i64,
    pub count: u64,
    pub stack: [u64; STACK_SIZE],
    pub depth: u64,
    pub graph: Graph,
    pub multipliers: [i32; MAX_VERTICES],
    pub carried: [i32; CARRIED_SIZE],
    pub best: [u8; MAX_EDGES],
    pub ashore: [u8; MAX_VERTICES],
    pub open: u8,
    pub has_best: u8,
}

// What a run answers, with the count of nodes opened. specs/Replies.antt says what each answer means in document 01.
#[derive(Clone, Copy, Debug, PartialEq, Eq)]
pub enum Progress {
    GoingOn(u64),
    Finished(u64),
}

// What telling answers: the verdict, the cost where there is one, and the count.
#[derive(Clone, Copy, Debug, PartialEq, Eq)]
pub enum Verdict {
    Searching(u64),
    NoTour(u64),
    Best { cost: i64, count: u64 },
}

// What a record holds: one that fails its check; no search; one with nodes that wait; one that is finished.
#[derive(Clone, Copy, Debug, PartialEq, Eq)]
pub enum State {
    Broken,
    Empty,
    Waiting,
    Finished,
}

impl Search {
    ghost use Rattle.search.specs.Inverse.{Typed};
    ghost use Rattle.search.specs.ReplyCases.{IsOpen};

    // A record with no search open.
    // Ruled out: an open search; a byte that is not zero.
    #[tactic(auto, unfolding(crate::specs::Record::fresh))]
    pub fn fresh() -> Search
        ensures { result ≡ fresh }
    {
        Search {
            settings: Settings::default(),
            upper: 0,
            count: 0,
            stack: [0; STACK_SIZE],
            depth: 0,
            graph: Graph::empty(),
            multipliers: [0; MAX_VERTICES],
            carried: [0; CARRIED_SIZE],
            best: [0; MAX_EDGES],
            ashore: [0; MAX_VERTICES],
            open: 0,
            has_best: 0,
        }
    }

    // What is tested before all input where a search has to be open: 24, then 20.
    fn opened(&self) -> Result<(), Refusal>
        ensures fault { fault_of result ≡ closed_fault self.now }
        ensures passed { OnOk result (IsOpen self.now) }
        ensures typed { check self.now ≡ true → Typed self.now }
    {
        Refusal::Record.unless(self.is_sound())?;
        Refusal::NotOpen.unless(self.open == 1)
    }

    // What the record holds, for a caller that keeps several.
    // Ruled out: no search where the record fails its check; nodes that wait where a search is finished.
    #[tactic(auto, using(crate::specs::ReplyCases::seen_24, crate::specs::ReplyCases::seen_20, crate::specs::ReplyCases::seen_finished, crate::specs::ReplyCases::seen_waiting, crate::specs::ReplyCases::again))]
    pub fn state(&self) -> State
        ensures state { result ≡ state_in self.now }
        ensures again { Again self.now }
    {
        match (self.is_sound(), self.open, self.depth) {
            (false, _, _) => State::Broken,
            (true, 1, 0) => State::Finished,
            (true, 1, _) => State::Waiting,
            (true, _, _) => State::Empty,
        }
    }

    // Opening.
    // Ruled out: a record that holds a byte of the graph past its edges; an upper bound that is not the ceiling; a first node that leaves in an edge that
    // touches a vertex ashore; a part of a refused opening in the record.
    pub fn open(
        &mut self,
        g: &Graph,
        multipliers: &[i32],
        ashore: &[u8],
        settings: Settings,
    ) -> Result<(), Refusal>
        ensures answer { means result ≡ (reply self.old (Calls.opens (opening_of g.now multipliers.now ashore.now settings))).answer }
        ensures left { self.new ≡ (reply self.old (Calls.opens (opening_of g.now multipliers.now ashore.now settings))).search }
    {
        Refusal::Record.unless(self.is_sound())?;
        Refusal::AlreadyOpen.unless(self.open != 1)?;
        let asked = Opening {
            g,
            multipliers,
            ashore,
            settings,
        };
        asked.fault()?;
        asked.begin(self);
        Ok(())
    }

    // Running. The record is worked on where it lies: nothing of it is copied for the call, and for a node only its rows and multipliers. Where no node is
    // to be opened the call is the check alone.
    // Ruled out: a node opened beyond the budget; a count of nodes that were not opened; a node that is opened with marks or multipliers made
    // below another; a record changed by a refusal.
    pub fn run(&mut self, budget: u64) -> Result<Progress, Refusal>
        ensures answer { run_means result ≡ (reply self.old (Calls.run budget)).answer }
        ensures left { self.new ≡ (reply self.old (Calls.run budget)).search }
    {
        self.opened()?;
        if budget > 0 && self.depth > 0 {
            self.advance(budget);
        }
        if self.depth == 0 {
            return Ok(Progress::Finished(self.count));
        }
        Ok(Progress::GoingOn(self.count))
    }

    // Telling.
    // Ruled out: a cost while nodes wait; a cost that is not the sum of the incumbent's edges.
    pub fn tell(&self) -> Result<Verdict, Refusal>
        ensures answer { tell_means result ≡ (reply self.now Calls.tell).answer }
        ensures left { self.now ≡ (reply self.now Calls.tell).search }
    {
        self.opened()?;
        if self.depth != 0 {
            return Ok(Verdict::Searching(self.count));
        }
        let Some(best) = self.incumbent() else {
            return Ok(Verdict::NoTour(self.count));
        };
        let valid = ValidGraph { graph: &self.graph };
        Ok(Verdict::Best {
            cost: tour_cost(valid, best),
            count: self.count,
        })
    }

    // Showing.
    // Ruled out: a tour while nodes wait; a refusal with a byte of `out` changed.
    pub fn show(&self, out: &mut [u8]) -> Result<(), Refusal>
        ensures answer { means result ≡ (reply self.now (Calls.show out.old)).answer }
        ensures left { self.now ≡ (reply self.now (Calls.show out.old)).search }
        ensures list { out.new ≡ lent self.now (Calls.show out.old) }
    {
        self.opened()?;
        Refusal::NodesWait.unless(self.depth == 0)?;
        let best = self.incumbent().ok_or(Refusal::NoTour)?;
        Refusal::Length.unless(out.len() == usize::from(self.graph.m))?;
        out.copy_from_slice(&best[..out.len()]);
        Ok(())
    }

    // Closing.
    // Ruled out: a byte of the search left in the record; a record that fails its check made fresh.
    pub fn close(&mut self) -> Result<(), Refusal>
        ensures answer { means result ≡ (reply self.old Calls.close).answer }
        ensures left { self.new ≡ (reply self.old Calls.close).search }
    {
        self.opened()?;
        *self = Search::fresh();
        Ok(())
    }
}
