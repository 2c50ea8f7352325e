// Searches saved on a shelf that the caller lends beside the record, and brought back (document 02, C-18). Each call is lent for writing, first,
// what it changes.
ghost use Rattle.std.specs.Prelude.{◌≡◌};
ghost use Rattle.shelf.specs.Replies.{fresh_shelf};
ghost use Rattle.ffi.specs.Shelves.{Saves, Brings};

use crate::Reply;
use search::Search;
use shelf::Shelf;

// Ruled out: a place with a search; a byte that is not zero.
#[unsafe(no_mangle)]
pub extern "C" fn planner_fresh_shelf() -> Shelf
    ensures { result ≡ fresh_shelf }
{
    Shelf::fresh()
}

// Saving. Ruled out: another place changed; a refused save that stores.
#[unsafe(no_mangle)]
pub extern "C" fn planner_save(shelf: &mut Shelf, s: &Search, name: usize) -> Reply
    ensures { Saves s.now shelf.old name result shelf.new }
{
    Reply::from(shelf.save(s, name))
}

// Bringing back. Ruled out: the search of another name; a record changed by a refusal.
#[unsafe(no_mangle)]
pub extern "C" fn planner_back(s: &mut Search, shelf: &Shelf, name: usize) -> Reply
    ensures { Brings s.old shelf.now name result s.new }
{
    Reply::from(shelf.back(s, name))
}
