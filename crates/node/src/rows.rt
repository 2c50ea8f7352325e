// A node's marks as words: what the passes come to is packed into them again, a word at a time, by the set bits of the word of the edges that are left.
ghost use Rattle.std.specs.Prelude.{◌≡◌, ◌+◌, ◌-◌, ◌/◌, ◌%◌, ◌≤◌, ◌<◌};
ghost use Rattle.std.specs.Int.Bits.{bit_and};
ghost use Rattle.graph.specs.Limits.{max_edges};
ghost use Rattle.mark_rows.specs.MarkRows.{row_words, rows_of};
ghost use Rattle.node.specs.Marks.{marks_in};
ghost use Rattle.node.specs.Words.{bit_where, with_bit};

use crate::{Fate, NODE_WORDS, ROW_WORDS, WORD_BITS, Workspace};
use graph::{EXCLUDED, MAX_EDGES, REQUIRED, ValidGraph};

// A bit where the mark has this value, or none.
fn bit_where(mark: u8, value: u8, bit: u64) -> u64
    ensures { result ≡ bit_where mark value bit }
{
    if mark == value { bit } else { 0 }
}

// The set bits of a word, from the lowest up.
#[derive(Drop)]
pub(crate) struct SetBits(pub u64);

impl Iterator for SetBits {
    ghost use Rattle.std.specs.Iterator.{at_most};
    ghost use Rattle.node.specs.Walking.{Lowest};

    type Item = usize;

    ghost next_gives = { Lowest };

    ghost remaining = { λ bits. at_most bits.0 };

    fn next(&mut self) -> Option<usize> {
        if self.0 == 0 {
            return None;
        }
        let lowest = self.0.trailing_zeros() as usize;
        self.0 &= self.0 - 1;
        Some(lowest)
    }
}

// One word of each of a node's rows, as it is packed, and where the marks of the next word stand.
#[derive(Clone, Copy)]
struct Pair {
    required: u64,
    excluded: u64,
    next: usize,
}

// A node's words, lent, as they are read for m edges. The loops over words go by number: an edge has a bit in two of them, and its place by it. That
// a word's number is below `row_words` is asked, not a type: the loops' range shows it, and a type would be made at each turn to be taken apart again.
#[derive(Clone, Copy)]
pub(crate) struct Rows<'a> {
    pub words: &'a [u64; NODE_WORDS],
    pub m: usize,
    pub ghost few: { m ≤ max_edges },
}

impl<'a> Rows<'a> {
    ghost use Rattle.std.specs.Prelude.{unwrap_or, IfSome};
    ghost use Rattle.thinning.specs.Ranks.{rank};
    ghost use Rattle.node.specs.Walking.{cut, Masked};
    ghost use Rattle.node.specs.Words.{kept_in, full_of, required_byte, new_byte, PackedWord, Packed, FirstFree};

    // The bits of word w that belong to the m edges. By three cases: with `saturating_sub` and one test, `pack` took 251 instructions a node for 226.
    fn full(&self, w: usize) -> u64
        requires { w < row_words }
        ensures { result ≡ full_of self.now.m w }
    {
        let low = WORD_BITS * w;
        if self.m <= low {
            0
        } else if self.m - low >= WORD_BITS {
            u64::MAX
        } else {
            (1u64 << (self.m - low)) - 1
        }
    }

    // Those of them that x does not have.
    fn complement(&self, x: u64, w: usize) -> u64
        requires { w < row_words }
        ensures { result ≡ full_of self.now.m w - bit_and x (full_of self.now.m w) }
    {
        let all = self.full(w);
        all - (x & all)
    }

    // Word w of the edges that are not excluded. A bare word: a type for it with what is ensured would have to hold rows and w too, which its callers have.
    #[tactic(auto, using(crate::specs::Words::live_masked))]
    pub(crate) fn live_word(&self, w: usize) -> u64
        requires { w < row_words }
        ensures { Masked (kept_in self.now.m self.now.words.now) self.now.m w result }
    {
        self.complement(self.words[ROW_WORDS + w], w)
    }

    // The mark of an edge that is not excluded: its bit in the required row.
    #[tactic(auto, using(bits::specs::Words::read_bit))]
    pub(crate) fn mark_at(&self, k: usize) -> u8
        requires { k < max_edges }
        ensures { result ≡ required_byte self.now.words.now k }
    {
        ((self.words[k / WORD_BITS] >> (k % WORD_BITS)) & 1) as u8
    }

    // Word w of both rows, from the marks of the edges that are left, of which this word's stand from place `from` on. A while: over `SetBits`, whose bit
    // is to be made of its place again, a node of 8 vertices takes 40 instructions more.
    fn pack_word(&self, w: usize, from: usize, marks: &[u8; MAX_EDGES]) -> Pair
        requires in_row { w < row_words }
        requires before { from ≡ rank (kept_in self.now.m self.now.words.now) (cut self.now.m w 0) }
        ensures count { result.next ≡ rank (kept_in self.now.m self.now.words.now) (cut self.now.m w 64) }
        ensures packed { PackedWord self.now.m (new_byte self.now.m self.now.words.now marks.now) w result.required result.excluded }
    {
        let live = self.live_word(w);
        let mut required = 0u64;
        let mut excluded = self.complement(live, w);
        let mut next = from;
        let mut x = live;
        while x != 0 {
            let rest = x & (x - 1);
            let mark = marks[next];
            required |= bit_where(mark, REQUIRED, x - rest);
            excluded |= bit_where(mark, EXCLUDED, x - rest);
            next += 1;
            x = rest;
        }
        Pair {
            required,
            excluded,
            next,
        }
    }

    // The words of the node from the marks of its edges that are left: the others stay excluded.
    #[tactic(auto, using(crate::specs::Words::ranked_none, crate::specs::Words::packed_none))]
    pub(crate) fn pack(&self, marks: &[u8; MAX_EDGES]) -> [u64; NODE_WORDS]
        ensures { Packed self.now.m (new_byte self.now.m self.now.words.now marks.now) row_words result }
    {
        let mut r = [0u64; NODE_WORDS];
        let mut f = 0;
        for w in 0..ROW_WORDS {
            let pair = self.pack_word(w, f, marks);
            r[w] = pair.required;
            r[ROW_WORDS + w] = pair.excluded;
            f = pair.next;
        }
        r
    }

    // The place of the lowest-numbered free edge. A loop: with `find_map` (tried) two goals stay open, since std has a lemma of `find` over a range and none
    // of that; after `find` the word that is found would be made once more.
    fn first_free(&self) -> Option<usize>
        ensures first { FirstFree self.now.m self.now.words.now (unwrap_or result self.now.m) }
        ensures within { IfSome result (λ k. k < self.now.m) }
    {
        for w in 0..ROW_WORDS {
            let x = self.complement(self.words[w] | self.words[ROW_WORDS + w], w);
            if x != 0 {
                return Some(WORD_BITS * w + x.trailing_zeros() as usize);
            }
        }
        None
    }
}

// The edge at place k required, in the words of a node. This and the next are two, one a row: one function would be told the row by a number.
#[tactic(auto, using(crate::specs::Words::shifted))]
fn require(k: usize, rows: &mut [u64; NODE_WORDS])
    requires { k < max_edges }
    ensures { rows.new ≡ with_bit (k / 64) (k % 64) rows.old }
{
    rows[k / WORD_BITS] |= 1u64 << (k % WORD_BITS);
}

// And excluded.
#[tactic(auto, using(crate::specs::Words::shifted))]
fn exclude(k: usize, rows: &mut [u64; NODE_WORDS])
    requires { k < max_edges }
    ensures { rows.new ≡ with_bit (row_words + k / 64) (k % 64) rows.old }
{
    rows[ROW_WORDS + k / WORD_BITS] |= 1u64 << (k % WORD_BITS);
}

// The words of a graph's own marks.
// Ruled out: an edge in both rows, or past the graph's; a required edge in the row of the excluded ones.
#[tactic(auto, using(crate::specs::Words::own_rows))]
pub fn rows_of(valid: ValidGraph) -> [u64; NODE_WORDS]
    ensures { result ≡ rows_of (marks_in valid.entry.graph.now.m valid.entry.graph.now.mark) }
{
    let g = valid.graph;
    let rows = Rows {
        words: &[0; NODE_WORDS],
        m: usize::from(g.m),
    };
    rows.pack(&g.mark)
}

impl Workspace {
    ghost use Rattle.std.specs.Prelude.{List, ℤ, Ok};
    ghost use Rattle.machine.specs.Outcomes.{closes};
    ghost use Rattle.machine.specs.Machine.{branch};
    ghost use Rattle.mark_rows.specs.MarkRows.{marks_in_rows};
    ghost use Rattle.node.specs.Opened.{opened, opened_as, places};

    // A node that closes.
    #[tactic(auto, unfolding(crate::specs::Opened::opened_as))]
    pub(crate) fn close(&mut self) -> Fate
        ensures { opened (Ok result) self.new ≡ opened_as closes }
    {
        *self = Workspace::blank();
        Fate::Closes
    }

    // After the last pass, of which `last` has the multipliers: the node with these words, of m edges, splits at its lowest free edge, or closes.
    pub(crate) fn split(&mut self, m: usize) -> Fate
        requires few { m ≤ max_edges }
        requires of_marks { self.old.rows ≡ rows_of (marks_in_rows m self.old.rows) }
        ensures { (d : List ℤ) → self.old.last ≡ places d
            → opened (Ok result) self.new ≡ opened_as (branch d (marks_in_rows m self.old.rows)) }
    {
        let rows = Rows {
            words: &self.rows,
            m,
        };
        let Some(k) = rows.first_free() else {
            return self.close();
        };
        self.top = self.rows;
        exclude(k, &mut self.rows);
        require(k, &mut self.top);
        self.tour = [0; MAX_EDGES];
        Fate::Splits
    }
}
