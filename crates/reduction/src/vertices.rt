// Which vertices are afloat, and the graph of those alone: vertices have new numbers, in their order; edges keep theirs.
ghost use Rattle.std.specs.Prelude.{◌≡◌, ◌+◌, ◌<◌, ◌||◌, eqb, length, pos, true};
ghost use Rattle.lists.specs.Fill.{fit};
ghost use Rattle.graph.specs.Limits.{max_vertices};
ghost use Rattle.graph.specs.Network.{network};
ghost use Rattle.graph.specs.Valid.{Valid};
ghost use Rattle.afloat.specs.Lists.{reduced_list};
ghost use Rattle.afloat.specs.Over.{ashore, active_count, ashore_fits};
ghost use Rattle.afloat.specs.Reduced.{reduced};
ghost use Rattle.std.specs.List.{list_all};
ghost use Rattle.reduction.specs.Listed.{none_listed, all_zero, some_ashore};
ghost use Rattle.reduction.specs.Chunks.{zero_word};
ghost use Rattle.reduction.specs.Numbers.{Numbered};
ghost use Rattle.reduction.specs.Moved.{Moved, MovedEdges};

use graph::{EXCLUDED, Graph, MAX_VERTICES, VERTEX_PLACES};

// The byte of a vertex that is ashore.
pub const ASHORE: u8 = 1;

// Is the vertex at place k ashore? One without a byte in the list is not.
#[tactic(auto, unfolding(afloat::specs::Over::ashore))]
pub(crate) fn is_ashore(bytes: &[u8], k: usize) -> bool
    ensures { result ≡ ashore bytes.now (k + 1) }
{
    k < bytes.len() && bytes[k] == ASHORE
}

// How many of n vertices are afloat.
// Ruled out: the number of those ashore; a vertex without a byte in the list left out.
pub fn active(bytes: &[u8], n: usize) -> usize
    ensures { result ≡ active_count (ashore bytes.now) n }
{
    let mut count = 0;
    for k in 0..n {
        if !is_ashore(bytes, k) {
            count += 1;
        }
    }
    count
}

// Is a byte of the list 1?
// Ruled out: no where only the last byte is 1; yes for a list of zeros.
pub fn any_ashore(bytes: &[u8]) -> bool
    ensures { result ≡ some_ashore bytes.now }
{
    bytes.iter().any(|byte| *byte == ASHORE)
}

// Are all bytes of these words 0?
fn words_zero(words: &[[u8; 8]]) -> bool
    ensures { result ≡ list_all zero_word words.now }
{
    words.iter().all(|word| u64::from_ne_bytes(*word) == 0)
}

// And all of these?
fn bytes_zero(bytes: &[u8]) -> bool
    ensures { result ≡ all_zero bytes.now }
{
    bytes.iter().all(|byte| *byte == 0)
}

// Are all bytes 0? Eight at a time: a call's list is short, and a loop that asks of 32 bytes at a time costs more before it begins.
pub(crate) fn all_afloat(bytes: &[u8]) -> bool
    ensures { result ≡ all_zero bytes.now }
{
    let (words, rest) = bytes.as_chunks::<8>();
    words_zero(words) && bytes_zero(rest)
}

// Does the list say of n vertices that none is ashore?
pub(crate) fn none_listed(bytes: &[u8], n: usize) -> bool
    ensures { result ≡ none_listed bytes.now n }
{
    bytes.len() == n && all_afloat(bytes)
}

// Has an edge an end without a new number?
fn touches(x: u8, y: u8) -> bool
    ensures { result ≡ eqb x 0 || eqb y 0 }
{
    x == 0 || y == 0
}

// A valid graph, lent, and a list of bytes for its vertices that refusal 35 does not meet.
#[derive(Clone, Copy)]
pub struct Afloat<'a> {
    pub graph: &'a Graph,
    pub ashore: &'a [u8],
    pub ghost valid: { Valid graph.now },
    pub ghost fits: { ashore_fits ashore.now graph.now.n ≡ true },
    pub ghost long: { length ashore.now ≡ graph.now.n },
}

impl Afloat<'_> {
    // How many vertices are afloat.
    // Ruled out: the number of those ashore.
    pub fn active(&self) -> usize
        ensures { result ≡ active_count (ashore self.now.ashore.now) self.now.graph.now.n }
    {
        active(self.ashore, usize::from(self.graph.n))
    }

    // The new number of each vertex that is afloat, at the place of its old one; 0 for the others.
    fn numbers(&self) -> [u8; VERTEX_PLACES]
        ensures { Numbered (ashore self.now.ashore.now) self.now.graph.now.n result }
    {
        let mut numbers = [0; VERTEX_PLACES];
        let mut last = 0;
        for k in 0..usize::from(self.graph.n) {
            if !is_ashore(self.ashore, k) {
                last += 1;
                numbers[k + 1] = last;
            }
        }
        numbers
    }

    // Edge k where its ends have these new numbers, 0 for one that is ashore: then it is excluded, and put between vertices 1 and 2.
    fn move_edge(&self, k: usize, numbers: &[u8; VERTEX_PLACES], g: &mut Graph)
        requires inside { k < self.now.graph.now.m }
        requires before { MovedEdges (ashore self.now.ashore.now) self.now.graph.now k g.old }
        requires numbered { Numbered (ashore self.now.ashore.now) self.now.graph.now.n numbers.now }
        ensures { MovedEdges (ashore self.now.ashore.now) self.now.graph.now (k + 1) g.new }
    {
        let x = numbers[usize::from(self.graph.a[k])];
        let y = numbers[usize::from(self.graph.b[k])];
        if touches(x, y) {
            g.a[k] = 1;
            g.b[k] = 2;
            g.mark[k] = EXCLUDED;
        } else {
            g.a[k] = x;
            g.b[k] = y;
        }
    }

    // The graph of the vertices that are afloat, with all edges under their numbers: their ends in new numbers; one that touches a vertex ashore is
    // excluded, whatever its mark, and put between vertices 1 and 2, so that a pair may be there twice. Its costs are the graph's.
    // Ruled out: as many vertices as the graph has; an edge of which one end alone has its new number.
    pub fn reduced(&self) -> Graph
        ensures moved { Moved (ashore self.now.ashore.now) self.now.graph.now result }
        ensures network { network result ≡ reduced (ashore self.now.ashore.now) (network self.now.graph.now) }
    {
        let numbers = self.numbers();
        let mut g = *self.graph;
        for k in 0..usize::from(self.graph.m) {
            self.move_edge(k, &numbers, &mut g);
        }
        g.n = self.active() as u8;
        g
    }

    // The multipliers of the vertices that are afloat, in their order, in an array's places.
    // Ruled out: the multiplier of a vertex ashore; a number other than 0 past the last.
    pub fn active_multipliers(&self, multipliers: &[i32]) -> [i32; MAX_VERTICES]
        ensures { result ≡ fit max_vertices (pos 0) (reduced_list (ashore self.now.ashore.now) self.now.graph.now.n multipliers.now) }
    {
        let mut d = [0; MAX_VERTICES];
        let mut j = 0;
        for k in 0..usize::from(self.graph.n).min(multipliers.len()) {
            let x = multipliers[k];
            if !is_ashore(self.ashore, k) {
                d[j] = x;
                j += 1;
            }
        }
        d
    }
}
