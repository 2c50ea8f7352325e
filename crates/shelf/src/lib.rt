// Document 02, C-18: a shelf of eight places, with the names 1 to 8, that the caller lends beside the search record: a search is saved under a
// name, and brought back.
#![tactic(auto)]

ghost use Rattle.std.specs.Prelude.{◌≡◌};
ghost use Rattle.graph.specs.Refusals.{number, fault_of};
ghost use Rattle.search.specs.Replies.{means};
ghost use Rattle.search_records.specs.Seen.{any_broken};
ghost use Rattle.lent_records.specs.Places.{AtPlace};
ghost use Rattle.shelf.specs.Replies.{fresh_shelf, save_number, back_number, save_reply, back_reply, Tested};

use graph::Refusal;
pub use lent_records::PLACES;
use lent_records::place_of;
use search::{Search, State};

// The shelf's record: the place of name k is places[k - 1], a search record, fresh where nothing is saved (and no `Option`, since C lends the
// record). docs/RECORD.md states the check that save and back make of it.
#[repr(C)]
#[derive(Clone, Copy, Debug, PartialEq, Eq)]
pub struct Shelf {
    pub places: [Search; PLACES],
}

impl Shelf {
    // A shelf on which nothing is saved.
    // Ruled out: a place with a search; a byte that is not zero.
    #[tactic(auto, unfolding(crate::specs::Replies::fresh_shelf))]
    pub fn fresh() -> Shelf
        ensures { result ≡ fresh_shelf }
    {
        Shelf {
            places: [Search::fresh(); PLACES],
        }
    }

    // Does a place fail its check? Of the places themselves: the dispatcher asks it of the states that it keeps, and the shelf keeps none.
    fn any_broken(&self) -> bool
        ensures { result ≡ any_broken self.now.places }
    {
        self.places.iter().any(|s| s.state() == State::Broken)
    }

    // 24, tested before all else: of the search's record, and of every place. What the search's record holds.
    #[tactic(auto, using(crate::specs::Cases::sound, crate::specs::Cases::unsound_search, crate::specs::Cases::unsound_shelf))]
    fn tested(&self, s: &Search) -> Result<State, Refusal>
        ensures { Tested s.now self.now result }
    {
        let state = s.state();
        Refusal::Record.unless(state != State::Broken && !self.any_broken())?;
        Ok(state)
    }

    // Where a search is saved under a name, or why none is.
    // Ruled out: 33 where no search is open; a place where one fails its check.
    #[tactic(auto, using(crate::specs::Cases::save_24, crate::specs::Cases::save_20, crate::specs::Cases::save_named))]
    fn place_to_save(&self, s: &Search, name: usize) -> Result<usize, Refusal>
        ensures { AtPlace number (save_number s.now self.now name) name result }
    {
        Refusal::NotOpen.unless(self.tested(s)? != State::Empty)?;
        place_of(name).ok_or(Refusal::Name)
    }

    // What a save would be refused, if anything; nothing is saved.
    // Ruled out: 33 where no search is open; no refusal where a place fails its check.
    pub fn save_fault(&self, s: &Search, name: usize) -> Result<(), Refusal>
        ensures { fault_of result ≡ save_number s.now self.now name }
    {
        self.place_to_save(s, name)?;
        Ok(())
    }

    // Where the search under a name is brought back from, or why none is.
    #[tactic(auto, using(crate::specs::Cases::back_24, crate::specs::Cases::back_33, crate::specs::Cases::back_34, crate::specs::Cases::back_0, lent_records::specs::Places::place_some, lent_records::specs::Places::place_none))]
    fn place_to_bring(&self, s: &Search, name: usize) -> Result<usize, Refusal>
        ensures { AtPlace number (back_number s.now self.now name) name result }
    {
        self.tested(s)?;
        let at = place_of(name).ok_or(Refusal::Name)?;
        Refusal::NothingSaved.unless(self.places[at].state() != State::Empty)?;
        Ok(at)
    }

    // Saving.
    // Ruled out: another place changed; a search that is still open under its name saved as a fresh record; a place changed by a refusal.
    #[tactic(auto, using(crate::specs::Cases::save_refused, crate::specs::Cases::save_accepted))]
    pub fn save(&mut self, s: &Search, name: usize) -> Result<(), Refusal>
        ensures answer { means result ≡ (save_reply s.now self.old name).answer }
        ensures left { self.new ≡ (save_reply s.now self.old name).shelf }
    {
        let at = self.place_to_save(s, name)?;
        self.places[at] = *s;
        Ok(())
    }

    // Bringing back.
    // Ruled out: the search of another name; a part of the search that was open before; a record changed by a refusal.
    #[tactic(auto, using(crate::specs::Cases::back_refused, crate::specs::Cases::back_accepted))]
    pub fn back(&self, s: &mut Search, name: usize) -> Result<(), Refusal>
        ensures answer { means result ≡ (back_reply s.old self.now name).answer }
        ensures left { s.new ≡ (back_reply s.old self.now name).search }
    {
        let at = self.place_to_bring(s, name)?;
        *s = self.places[at];
        Ok(())
    }
}
