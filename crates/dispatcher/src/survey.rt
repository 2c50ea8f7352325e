// What the dispatcher sees of its places, and the choice of one.
ghost use Rattle.std.specs.Prelude.{◌≡◌, ◌≤◌, ◌<◌, map, IfSome};
ghost use Rattle.graph.specs.Refusals.{number};
ghost use Rattle.search.specs.Seen.{state_in};
ghost use Rattle.lent_records.specs.Places.{place_of, AtPlace};
ghost use Rattle.dispatch_theory.specs.Dispatcher.{first_after};
ghost use Rattle.dispatcher.specs.Seen.{is_at, any_seen_broken, Laid, Surveys, held_fault};

use crate::Dispatcher;
use graph::Refusal;
use lent_records::{PLACES, place_of};
use search::State;

// Where the first place after `last`, in cyclic order, stands that is seen to hold what is wanted, counted from 0.
pub(crate) fn first_after(seen: &[State; PLACES], last: usize, wanted: State) -> Option<usize>
    requires { last ≤ PLACES }
    ensures found { result ≡ place_of (first_after (is_at seen.now wanted) PLACES last) }
    ensures within { IfSome result (λ at. at < PLACES) }
{
    let (before, after) = seen.split_at(last);
    after
        .iter()
        .chain(before)
        .position(|x| *x == wanted)
        .map(|k| (last + k) % PLACES)
}

// Does a place that was seen fail its check?
fn any_broken(seen: &[State; PLACES]) -> bool
    ensures { result ≡ any_seen_broken seen.now }
{
    seen.contains(&State::Broken)
}

impl Dispatcher {
    // What each place holds. Here and below a clause `laid` hands on what the language's types say of the places: it is known where they are read.
    fn states(&self) -> [State; PLACES]
        ensures laid { Laid self.now }
        ensures seen { result ≡ map state_in self.now.places }
    {
        self.places.each_ref().map(|x| x.state())
    }

    // Every place, if each is such as its own check accepts, and the last served one of them, or 0.
    pub(crate) fn survey(&self) -> Result<[State; PLACES], Refusal>
        ensures laid { Laid self.now }
        ensures seen { Surveys self.now result }
    {
        let seen = self.states();
        Refusal::Record.unless(self.last <= PLACES && !any_broken(&seen))?;
        Ok(seen)
    }

    // Where the search at a place to tell, show or close stands. Each of these is this test and the search's own call: a closure around two
    // lines would be no plainer, and close changes what the others read.
    #[tactic(auto, using(crate::specs::Cases::held_24, crate::specs::Cases::fault_42, crate::specs::Cases::fault_20, crate::specs::Cases::fault_0, lent_records::specs::Places::place_some, lent_records::specs::Places::place_none))]
    pub(crate) fn holding(&self, place: usize) -> Result<usize, Refusal>
        ensures laid { Laid self.now }
        ensures held { AtPlace number (held_fault self.now place) place result }
    {
        let seen = self.survey()?;
        let at = place_of(place).ok_or(Refusal::Place)?;
        Refusal::NotOpen.unless(seen[at] != State::Empty)?;
        Ok(at)
    }
}
