// The record's own check, refusal 24: specs/Canonical.antt says what it asks, docs/RECORD.md says it in words.
ghost use Rattle.std.specs.Prelude.{◌≡◌, ◌-◌, ◌*◌, ◌^◌, ◌<◌, ◌≤◌, ℕ, true, eqb, pos, bit_and};
ghost use Rattle.lists.specs.Bools.{Says};
ghost use Rattle.graph.specs.Limits.{max_vertices, max_edges};
ghost use Rattle.machine.specs.Calls.{fault};
ghost use Rattle.bits.specs.Rows.{row_ones};
ghost use Rattle.mark_rows.specs.MarkRows.{row_words, required_in};
ghost use Rattle.mark_rows.specs.SixWords.{WordsFit};
ghost use Rattle.search.specs.Record.{max_nodes, rows_at, multipliers_at, opening_in, active_in};
ghost use Rattle.tree_theory.specs.Inputs.{multipliers_fit};
ghost use Rattle.search.specs.Canonical.{Zeros, NoneAshore, GraphTidy, CarriedTidy, NodeFits, StackFits, touching_in, StackStruck, CarriedFits, Bits, Tidy, Fits, Idle};
ghost use Rattle.search.specs.Inverse.{Words, GraphSized, Sized, Typed};
ghost use Rattle.search.specs.Check.{check};
ghost use Rattle.search.specs.Checks.Struck.{Covers};

use crate::opening::Opening;
use crate::stack::get;
use crate::vertices::struck_rows;
use crate::{CARRIED_SIZE, MAX_COUNT, MAX_NODES, STACK_SIZE, Search};
use graph::{Graph, MAX_EDGES, MAX_VERTICES};
use machine::Settings;
use node::{NODE_WORDS, ROW_WORDS, WORD_BITS};
use reduction::Afloat;

// A number that may be 0. std's `PartialEq` and `Default` promise less of a type that is not known: what equals its default need not be it.
pub(crate) trait Number: Copy {
    ghost zero: { Self };

    fn is_zero(self) -> bool
        ensures { Says result (self ≡ zero) };
}

impl Number for u8 {
    ghost zero = { 0 };

    fn is_zero(self) -> bool {
        self == 0
    }
}

impl Number for u64 {
    ghost zero = { 0 };

    fn is_zero(self) -> bool {
        self == 0
    }
}

impl Number for i32 {
    ghost zero = { pos 0 };

    fn is_zero(self) -> bool {
        self == 0
    }
}

// Is every place from `from` on zero? By `&`: a loop with no way out in the middle takes many places at a time, where `all` was tried and takes up
// to ten times as long. A record that is not yet checked may say a `from` past the last place.
pub(crate) fn zero_from<T: Number, const N: usize>(a: &[T; N], from: usize) -> bool
    ensures { Says result (Zeros T.zero N from a.now) }
{
    a[..][from.min(N)..]
        .iter()
        .fold(true, |zero, x| zero & x.is_zero())
}

// Is each byte 0 or 1? As above, but by `for`: a `fold` was tried, and takes 68 instructions for 66.
fn bits(a: &[u8; MAX_EDGES]) -> bool
    ensures { Says result (Bits a.now) }
{
    let mut met = false;
    for x in a {
        met |= *x > 1;
    }
    !met
}

// Below, m, n and p or the depth stand in a `requires`: the numbers of one record. `fits` calls with them once it has tested them, and `carried_tidy`
// with a p that it holds below MAX_NODES. A struct of them for each caller would say no less.
// Here and below a clause `sized`, `words` or `typed` hands on what the language's types say of a record's arrays: it is known where they are read.

// Is the graph zero past edge m?
fn graph_tidy(g: &Graph) -> bool
    ensures tidy { Says result (GraphTidy g.now) }
    ensures sized { GraphSized g.now }
{
    let m = usize::from(g.m);
    zero_from(&g.a, m) && zero_from(&g.b, m) && zero_from(&g.cost, m) && zero_from(&g.mark, m)
}

// Is what node p carries zero past n?
fn zero_past(carried: &[i32; CARRIED_SIZE], n: usize, p: usize) -> bool
    requires { p < max_nodes }
    ensures { Says result (Zeros (pos 0) max_vertices n (multipliers_at max_vertices carried.now p)) }
{
    let d: [i32; MAX_VERTICES] = get(carried, p);
    zero_from(&d, n)
}

// Is what the nodes in use carry zero past n, and all that is past them?
fn carried_tidy(carried: &[i32; CARRIED_SIZE], n: usize, depth: usize) -> bool
    ensures { Says result (CarriedTidy n depth carried.now) }
{
    let used = depth.min(MAX_NODES);
    (0..used).all(|p| zero_past(carried, n, p)) && zero_from(carried, MAX_VERTICES * used)
}

// Is every bit of x from bit `from` on clear?
fn clear_from(x: u64, from: usize) -> bool
    ensures { Says result (x < 2 ^ from) }
{
    from >= WORD_BITS || x >> from == 0
}

// Is no bit set in both words, and every bit from bit `from` on clear?
fn word_fits(x: u64, y: u64, from: usize) -> bool
    ensures { Says result ((bit_and x y ≡ 0) × (x < 2 ^ from) × (y < 2 ^ from)) }
{
    x & y == 0 && clear_from(x, from) && clear_from(y, from)
}

// Is no edge in both rows, and every bit past edge m clear? By place: the place says how many bits a word has left, and a `zip` of the row's two
// halves, numbered, would say it no more plainly.
fn rows_fit(rows: &[u64; NODE_WORDS], m: usize) -> bool
    ensures { Says result (WordsFit m rows.now) }
{
    (0..ROW_WORDS).all(|i| word_fits(
        rows[i],
        rows[ROW_WORDS + i],
        m.saturating_sub(WORD_BITS * i),
    ))
}

// How many edges are required? The set bits of their row.
fn required_edges(rows: &[u64; NODE_WORDS]) -> u32
    ensures { result ≡ row_ones (required_in rows.now) }
{
    rows[..ROW_WORDS].iter().map(|x| x.count_ones()).sum()
}

// Has node p two rows as they should be, and at least p required edges?
fn node_fits(stack: &[u64; STACK_SIZE], m: usize, p: usize) -> bool
    requires { (m ≤ max_edges) × (p < max_nodes) }
    ensures { Says result (NodeFits m stack.now p) }
{
    let rows: [u64; NODE_WORDS] = get(stack, p);
    rows_fit(&rows, m) && p <= required_edges(&rows) as usize
}

// Has each node of the stack two such rows, and at least as many required edges as nodes lie below it?
fn stack_fits(stack: &[u64; STACK_SIZE], m: usize, depth: usize) -> bool
    requires { (m ≤ max_edges) × (depth ≤ max_nodes) }
    ensures fits { Says result (StackFits m depth stack.now) }
    ensures words { Words stack.now }
{
    (0..depth).all(|p| node_fits(stack, m, p))
}

// Has the excluded row of a node every bit of another's?
fn excludes(rows: &[u64; NODE_WORDS], struck: &[u64; NODE_WORDS]) -> bool
    ensures { Says result (Covers rows.now struck.now) }
{
    (0..ROW_WORDS).all(|i| rows[ROW_WORDS + i] & struck[ROW_WORDS + i] == struck[ROW_WORDS + i])
}

// Has that of node p?
fn node_excludes(stack: &[u64; STACK_SIZE], struck: &[u64; NODE_WORDS], p: usize) -> bool
    requires { p < max_nodes }
    ensures { Says result (Covers (rows_at stack.now p) struck.now) }
{
    let rows: [u64; NODE_WORDS] = get(stack, p);
    excludes(&rows, struck)
}

// Has that of each node of the stack?
fn nodes_exclude(stack: &[u64; STACK_SIZE], struck: &[u64; NODE_WORDS], depth: usize) -> bool
    requires { depth ≤ max_nodes }
    ensures covers { Says result ((p : ℕ) → p < depth → Covers (rows_at stack.now p) struck.now) }
    ensures words { Words stack.now }
{
    (0..depth).all(|p| node_excludes(stack, struck, p))
}

// Are the n multipliers that node p carries such as an opening accepts?
fn multipliers_fit_at(carried: &[i32; CARRIED_SIZE], n: usize, p: usize) -> bool
    requires { (n ≤ max_vertices) × (p < max_nodes) }
    ensures { result ≡ multipliers_fit (multipliers_at n carried.now p) }
{
    let d: [i32; MAX_VERTICES] = get(carried, p);
    onetree::multipliers_fit(&d[..n])
}

// Are the multipliers that each node carries such as an opening accepts?
fn carried_fits(carried: &[i32; CARRIED_SIZE], n: usize, depth: usize) -> bool
    requires { (n ≤ max_vertices) × (depth ≤ max_nodes) }
    ensures { Says result (CarriedFits n depth carried.now) }
{
    (0..depth).all(|p| multipliers_fit_at(carried, n, p))
}

impl Search {
    // Zero at every place that is not used: past the edges, the vertices, the active vertices and the nodes, and where there is no incumbent.
    fn is_tidy(&self, none: bool, active: usize) -> bool
        requires none { Says none (NoneAshore self.now) }
        requires active { active ≡ active_in self.now }
        ensures tidy { Says result (Tidy self.now) }
        ensures sized { Sized self.now }
    {
        let n = usize::from(self.graph.n);
        let m = usize::from(self.graph.m);
        let depth = self.depth as usize;
        let shown = if self.has_best == 1 { m } else { 0 };
        graph_tidy(&self.graph)
            && zero_from(&self.multipliers, n)
            && zero_from(&self.stack, NODE_WORDS * depth.min(MAX_NODES))
            && carried_tidy(&self.carried, active, depth)
            && zero_from(&self.best, shown)
            && (none || zero_from(&self.ashore, n))
    }

    // With `is_tidy`, the fresh record: by fields, since `*self == Search::fresh()` would make a record and read each array again, as `is_tidy` just
    // has: 1,300 instructions for 33, in a copy of the two in Rust.
    fn is_idle(&self) -> bool
        ensures { Says result (Idle self.now) }
    {
        self.graph.n == 0
            && self.graph.m == 0
            && self.settings == Settings::default()
            && self.upper == 0
            && self.depth == 0
            && self.has_best != 1
            && self.count == 0
    }

    // Are the arguments of an open record such as an opening accepts?
    fn opening_fits(&self, none: bool) -> bool
        requires none { Says none (NoneAshore self.now) }
        ensures { Says result (fault (opening_in self.now) ≡ 0) }
    {
        let n = usize::from(self.graph.n);
        if n > MAX_VERTICES {
            return false;
        }
        let held = Opening {
            g: &self.graph,
            multipliers: &self.multipliers[..n],
            ashore: &self.ashore[..n],
            settings: self.settings,
        };
        held.given_fault().is_ok() && (none || reduction::ashore_fault(held.ashore, n).is_ok())
    }

    // Does each node of the stack exclude what touches a vertex ashore? Word by word, against the first node of the graph without its marks, which
    // excludes these edges and no others. Not inlined: the graphs that it makes would have their room in the frame of every call on a record.
    #[inline(never)]
    fn is_struck(&self) -> bool
        requires { (fault (opening_in self.now) ≡ 0) × (self.now.depth ≤ max_nodes) }
        ensures { Says result (StackStruck self.now.graph.m (touching_in self.now) self.now.depth self.now.stack) }
    {
        let n = usize::from(self.graph.n);
        let unmarked = Graph {
            mark: [0; MAX_EDGES],
            ..self.graph
        };
        let afloat = Afloat {
            graph: &unmarked,
            ashore: &self.ashore[..n],
        };
        nodes_exclude(&self.stack, &struck_rows(&afloat), self.depth as usize)
    }

    // Are the fields of an open record such as a search has them? The last three tests require what those before say, which one chain of `&&` was
    // tried for and does not hand on: each fact stands behind a join.
    fn fits(&self, none: bool, active: usize) -> bool
        requires none { Says none (NoneAshore self.now) }
        requires active { active ≡ active_in self.now }
        ensures fits { Says result (Fits self.now) }
        ensures words { result ≡ true → Words self.now.stack }
    {
        let m = usize::from(self.graph.m);
        let depth = self.depth as usize;
        if !self.opening_fits(none)
            || self.settings.lifting > 1
            || !onetree::ceiling_fits(self.upper)
            || depth > active + 2
            || !bits(&self.best)
            || self.count > MAX_COUNT
        {
            return false;
        }
        if !carried_fits(&self.carried, active, depth) || !stack_fits(&self.stack, m, depth) {
            return false;
        }
        none || self.is_struck()
    }

    // Does the record stand for a state of the machine? A flag is 0 or 1, and no other byte. One chain of `&&` was tried: as in `fits`.
    pub(crate) fn is_sound(&self) -> bool
        ensures checked { result ≡ check self.now }
        ensures typed { check self.now ≡ true → Typed self.now }
    {
        let none = self.none_ashore();
        let active = self.active(none);
        if self.open > 1 || self.has_best > 1 || !self.is_tidy(none, active) {
            return false;
        }
        if self.open == 1 {
            return self.fits(none, active);
        }
        self.is_idle()
    }
}
