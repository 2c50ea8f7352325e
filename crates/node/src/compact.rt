// The edges that a node does not exclude, moved together, and bytes for them made bytes for all edges again: a word of the node at a time, by the bits
// of the edges that are left. No list of their places is made: a node of 28 edges takes 41 instructions more with one, a node of 190 edges 310 (tried
// in Rust). New places are counted by hand: a `zip` with `(f..)` still has to hand on where it stops, for 13 instructions; with one iterator over
// the edges of all words a node of 28 edges takes 184 instructions more, a node of 190 edges 1,162.
ghost use Rattle.graph.specs.Edgeless.{edgeless};
ghost use Rattle.node.specs.Opened.{left, marked};

use crate::rows::{Rows, SetBits};
use crate::{ROW_WORDS, WORD_BITS};
use graph::{Graph, MAX_EDGES};

impl<'a> Rows<'a> {
    ghost use Rattle.std.specs.Prelude.{◌≡◌, ◌<◌};
    ghost use Rattle.mark_rows.specs.MarkRows.{row_words, marks_in_rows};
    ghost use Rattle.thinning.specs.Ranks.{rank};
    ghost use Rattle.node.specs.Marks.{bytes_of};
    ghost use Rattle.node.specs.Compacting.{left_to};
    ghost use Rattle.node.specs.Expanding.{ExpandedTo};
    ghost use Rattle.node.specs.Walking.{cut};
    ghost use Rattle.node.specs.Words.{kept_in, marked_in};

    // The edges of word w that are not excluded, with their marks, added to a graph of those of the words before.
    fn gather_word(&self, w: usize, g: &Graph, into: &mut Graph)
        requires in_row { w < row_words }
        requires before { into.old ≡ left_to (marked_in self.now.m self.now.words.now g.now) (cut self.now.m w 0) }
        ensures { into.new ≡ left_to (marked_in self.now.m self.now.words.now g.now) (cut self.now.m w 64) }
    {
        let mut f = usize::from(into.m);
        for t in SetBits(self.live_word(w)) {
            let k = WORD_BITS * w + t;
            prove!(k < MAX_EDGES);
            prove!(f < MAX_EDGES);
            into.a[f] = g.a[k];
            into.b[f] = g.b[k];
            into.cost[f] = g.cost[k];
            into.mark[f] = self.mark_at(k);
            f += 1;
        }
        into.m = f as u8;
    }

    // The graph of the edges that the node with these words does not exclude, with its marks, made of one without edges.
    pub(crate) fn without_excluded(&self, g: &Graph, into: &mut Graph)
        requires same { self.now.m ≡ g.now.m }
        requires blank { into.old ≡ edgeless g.now.n }
        ensures { into.new ≡ left (marked g.now self.now.words.now) }
    {
        for w in 0..ROW_WORDS {
            self.gather_word(w, g, into);
        }
    }

    // The bytes of the edges of word w that are not excluded, at their places, from those of the edges that are left, of which this word's stand from
    // place `from` on; where the next word's stand is handed on.
    fn expand_word(
        &self,
        w: usize,
        from: usize,
        bytes: &[u8; MAX_EDGES],
        all: &mut [u8; MAX_EDGES],
    ) -> usize
        requires in_row { w < row_words }
        requires before { from ≡ rank (kept_in self.now.m self.now.words.now) (cut self.now.m w 0) }
        requires put { ExpandedTo (bytes_of (marks_in_rows self.now.m self.now.words.now)) bytes.now (cut self.now.m w 0) all.old }
        ensures count { result ≡ rank (kept_in self.now.m self.now.words.now) (cut self.now.m w 64) }
        ensures put { ExpandedTo (bytes_of (marks_in_rows self.now.m self.now.words.now)) bytes.now (cut self.now.m w 64) all.new }
    {
        let mut next = from;
        for t in SetBits(self.live_word(w)) {
            all[WORD_BITS * w + t] = bytes[next];
            next += 1;
        }
        next
    }

    // Bytes for all edges, from those of the edges that are left; zero for the others.
    pub(crate) fn expand(&self, bytes: &[u8; MAX_EDGES]) -> [u8; MAX_EDGES]
        ensures { ExpandedTo (bytes_of (marks_in_rows self.now.m self.now.words.now)) bytes.now self.now.m result }
    {
        let mut all = [0u8; MAX_EDGES];
        let mut f = 0;
        for w in 0..ROW_WORDS {
            f = self.expand_word(w, f, bytes, &mut all);
        }
        all
    }
}
