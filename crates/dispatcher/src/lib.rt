// Document 02's C-24: a dispatcher of eight searches that take turns, in a record that the caller lends, and the calls on it. (Its words: hunt
// for search, dues for multipliers.)
#![tactic(auto)]

ghost use Rattle.std.specs.Prelude.{◌≡◌};
ghost use Rattle.dispatch_theory.specs.Dispatcher as Calls;
ghost use Rattle.lent_records.specs.Records.{replies};
ghost use Rattle.machine.specs.Machine.{opening_of};
ghost use Rattle.dispatcher.specs.Replies.{dispatchers, add_means, turn_means, tell_means, means, reply, lent};

mod survey;

use graph::{Graph, Refusal};
pub use lent_records::PLACES;
use machine::Settings;
use search::{Search, State, Verdict};
use survey::first_after;

// The dispatcher: the place last served, 1 to 8, or 0 where none was yet; and a search record for each place. docs/RECORD.md states the
// check that every call makes of all of it. A number and no Option for the place, since C lends the record, all of whose bytes count.
#[repr(C)]
#[derive(Clone, Copy, Debug, PartialEq, Eq)]
pub struct Dispatcher {
    pub last: usize,
    pub places: [Search; PLACES],
}

impl Dispatcher {
    // A dispatcher that holds no search.
    // Ruled out: a place that holds one; a byte that is not zero.
    #[tactic(auto, unfolding(dispatch_theory::specs::Records::encode_all, dispatch_theory::specs::Dispatcher::fresh, search::specs::Record::encode))]
    pub fn fresh() -> Dispatcher
        ensures { result ≡ (replies dispatchers).fresh }
    {
        Dispatcher {
            last: 0,
            places: [Search::fresh(); PLACES],
        }
    }

    // Adding: a search is opened at the free place with the smallest number, which is the answer.
    // Ruled out: a ninth search; a place other than the free one with the smallest number; a part of a refused opening in a place.
    pub fn add(
        &mut self,
        g: &Graph,
        multipliers: &[i32],
        ashore: &[u8],
        settings: Settings,
    ) -> Result<usize, Refusal>
        ensures answer { add_means result ≡ (reply self.old (Calls.add (opening_of g.now multipliers.now ashore.now settings))).answer }
        ensures left { self.new ≡ (reply self.old (Calls.add (opening_of g.now multipliers.now ashore.now settings))).dispatcher }
    {
        let seen = self.survey()?;
        let at = first_after(&seen, 0, State::Empty).ok_or(Refusal::Full)?;
        self.places[at].open(g, multipliers, ashore, settings)?;
        Ok(at + 1)
    }

    // A turn: up to p nodes of the first search after the place last served, in cyclic order, that has nodes waiting. Its place is the answer, or
    // none where every search is finished.
    // Ruled out: a turn for a finished search, or for one that stands behind another unfinished one; more nodes than p; an idle turn that forgets
    // the place last served; a place named that was not served.
    pub fn turn(&mut self, p: u64) -> Result<Option<usize>, Refusal>
        ensures answer { turn_means result ≡ (reply self.old (Calls.turn p)).answer }
        ensures left { self.new ≡ (reply self.old (Calls.turn p)).dispatcher }
    {
        let seen = self.survey()?;
        Refusal::NoNodes.unless(p != 0)?;
        let Some(at) = first_after(&seen, self.last, State::Waiting) else {
            return Ok(None);
        };
        // the turn answers the place alone
        let _ran = self.places[at].run(p);
        self.last = at + 1;
        Ok(Some(self.last))
    }

    // Telling at a place.
    // Ruled out: the verdict of another place; a place that holds nothing told as going on.
    #[tactic(auto, using(crate::specs::Cases::tell_refused, crate::specs::Cases::tell_done))]
    pub fn tell(&self, place: usize) -> Result<Verdict, Refusal>
        ensures answer { tell_means result ≡ (reply self.now (Calls.tell_at place)).answer }
        ensures left { self.now ≡ (reply self.now (Calls.tell_at place)).dispatcher }
    {
        let at = self.holding(place)?;
        self.places[at].tell()
    }

    // Showing at a place.
    // Ruled out: the tour of another place; a refusal with a byte of `out` changed.
    #[tactic(auto, using(crate::specs::Cases::show_refused, crate::specs::Cases::show_done))]
    pub fn show(&self, place: usize, out: &mut [u8]) -> Result<(), Refusal>
        ensures answer { means result ≡ (reply self.now (Calls.show_at place out.old)).answer }
        ensures left { self.now ≡ (reply self.now (Calls.show_at place out.old)).dispatcher }
        ensures list { out.new ≡ lent self.now (Calls.show_at place out.old) }
    {
        let at = self.holding(place)?;
        self.places[at].show(out)
    }

    // Closing at a place.
    // Ruled out: a byte of the search left in the place; another place, or the place last served, changed.
    #[tactic(auto, using(crate::specs::Cases::close_refused, crate::specs::Cases::close_done))]
    pub fn close(&mut self, place: usize) -> Result<(), Refusal>
        ensures answer { means result ≡ (reply self.old (Calls.close_at place)).answer }
        ensures left { self.new ≡ (reply self.old (Calls.close_at place)).dispatcher }
    {
        let at = self.holding(place)?;
        self.places[at].close()
    }
}
