// The opening of a node, `open`: document 01's passes, made on the edges that the node does not exclude. Beside it, what a search has before it:
// the settings' fault, a multiplier for each place, and the words of a graph's own marks.
#![tactic(auto)]

ghost use Rattle.std.specs.Prelude.{◌≡◌, ◌≤◌, OnErr, length, replicate};
ghost use Rattle.graph.specs.Limits.{max_vertices, max_edges};
ghost use Rattle.graph.specs.Refusals.{fault_of};
ghost use Rattle.graph.specs.Valid.{graph_of};
ghost use Rattle.mark_rows.specs.MarkRows.{marks_in_rows};
ghost use Rattle.node.specs.Faults.{settings_fault};
ghost use Rattle.node.specs.Marks.{bytes_of};
ghost use Rattle.node.specs.Opened.{no_rows, no_multipliers, places, marked, taken, opened, opens};

mod compact;
mod passes;
mod rows;

use graph::{Graph, MAX_EDGES, MAX_VERTICES, Refusal};
use machine::Settings;
use onetree::PassLists;
use passes::{Ending, open_left};
use rows::Rows;
pub use rows::rows_of;

// Limits, as specs/Limits.antt of crate graph has them.
pub const MAX_SWEEPS: u32 = 15;

pub const MAX_STEP: u32 = 10_000;

// Refusal 14 where the sweeps or the step are above their limits.
// Ruled out: 14 at either limit; none where the step alone is above its own.
pub fn settings_fault(settings: Settings) -> Result<(), Refusal>
    ensures { fault_of result ≡ settings_fault settings.sweeps settings.step }
{
    Refusal::Settings.unless(settings.sweeps <= MAX_SWEEPS && settings.step <= MAX_STEP)
}

// The bits of a word, the words of a row, and those of a node's marks: a row for its required edges, then one for its excluded ones. Edge k is
// bit (k − 1) % 64 of word (k − 1) / 64 of its row. One array, as the stack of a search stores them.
pub const WORD_BITS: usize = 64;

pub const ROW_WORDS: usize = 3;

pub const NODE_WORDS: usize = 2 * ROW_WORDS;

// Multipliers in an array's places, as many as it has, then zeros: with n elsewhere, as the record carries them.
// Ruled out: a multiplier left out, or one that another follows past the last.
pub fn padded(multipliers: &[i32]) -> [i32; MAX_VERTICES]
    ensures { result ≡ places multipliers.now }
{
    let n = multipliers.len().min(MAX_VERTICES);
    let mut r = [0; MAX_VERTICES];
    r[..n].copy_from_slice(&multipliers[..n]);
    r
}

// A node's marks in `rows`, and what its opening leaves: of the two nodes of a split, the lower one in `rows`, with the edge excluded, and
// the upper one in `top`, with the edge required; a found tour in `tour`, a byte for each edge, as C is lent the record's best; and in `last`
// the multipliers of both nodes, which are those of the last pass. Zero where there is nothing to tell.
#[derive(Clone, Copy, Debug, PartialEq, Eq)]
pub struct Workspace {
    pub rows: [u64; NODE_WORDS],
    pub top: [u64; NODE_WORDS],
    pub tour: [u8; MAX_EDGES],
    pub last: [i32; MAX_VERTICES],
}

impl Workspace {
    // All zero.
    // Ruled out: a word, a byte or a multiplier that is not 0.
    pub fn blank() -> Workspace
        ensures { result ≡ record { rows = no_rows; top = no_rows; tour = replicate max_edges 0; last = no_multipliers } }
    {
        Workspace {
            rows: [0; NODE_WORDS],
            top: [0; NODE_WORDS],
            tour: [0; MAX_EDGES],
            last: [0; MAX_VERTICES],
        }
    }
}

// What becomes of a node that is opened. What goes with it lies in the workspace, out of which the search copies it into its record: as values of
// these cases it would be copied twice.
#[derive(Clone, Copy, Debug, PartialEq, Eq)]
pub enum Fate {
    Closes,
    Finds,
    Splits,
}

// The node with the marks in `rows` is opened, on the graph of its edges that are not excluded: they are gathered by the words, the loops of a
// pass go over them alone, and what they come to is packed into words again. The graph's own marks count for nothing, and words that make no
// marks are read as marks all the same. The ceiling of the settings is the upper bound. `lists` are for the passes to work in: whatever they
// hold, the answers are the same, and what a fate leaves in them is free, so a search makes them once for all its nodes.
// Ruled out: an edge that the node excludes, and that a node below it does not; multipliers that gain after the last pass; an edge ruled by lifting
// where the settings say 0, or one that lifting rules left free where they do not; a byte written, of `lists` too, where the node is refused.
pub fn open(
    g: &Graph,
    multipliers: &[i32; MAX_VERTICES],
    settings: Settings,
    node: &mut Workspace,
    lists: &mut PassLists,
) -> Result<Fate, Refusal>
    ensures opened { opened result node.new
        ≡ opens (taken (marked g.now node.old.rows) multipliers.now settings) node.old }
    ensures lists { OnErr result (lists.new ≡ lists.old) }
{
    let m = usize::from(g.m);
    // A test of its own: behind `unless` a wrong limit is refused only by a goal that names no fact, and a must-fail edit must fail at one.
    if m > MAX_EDGES {
        return Err(Refusal::Graph);
    }
    let mut left = Graph::edgeless(g.n);
    let rows = Rows {
        words: &node.rows,
        m,
    };
    rows.without_excluded(g, &mut left);
    match open_left(&mut left, multipliers, settings, &mut node.last, lists) {
        Err(refusal) => Err(refusal),
        Ok(Ending::Shut) => Ok(node.close()),
        Ok(Ending::Found) => {
            let tour = rows.expand(&left.mark);
            *node = Workspace {
                tour,
                ..Workspace::blank()
            };
            Ok(Fate::Finds)
        }
        Ok(Ending::Unclosed) => {
            node.rows = rows.pack(&left.mark);
            Ok(node.split(m))
        }
    }
}

// What `open_parts` takes by value. Any numbers: a graph whose numbers are no bytes is refused, as each that is not valid.
#[derive(Clone, Copy, Debug, PartialEq, Eq)]
pub struct Subproblem {
    pub n: usize,
    pub m: usize,
    pub multipliers: [i32; MAX_VERTICES],
    pub settings: Settings,
}

// `open` for a caller that has the parts of a graph and no lists: the ends and costs of its m edges are lent, and the lists are made here.
// Ruled out: numbers cut to bytes; the ends of an edge the wrong way round; a byte written where the node is refused.
pub fn open_parts(
    p: Subproblem,
    a: &[u8; MAX_EDGES],
    b: &[u8; MAX_EDGES],
    cost: &[i32; MAX_EDGES],
    node: &mut Workspace,
) -> Result<Fate, Refusal>
    ensures { opened result node.new
        ≡ opens (taken (graph_of p.n p.m a.now b.now cost.now (bytes_of (marks_in_rows p.m node.old.rows))) p.multipliers p.settings) node.old }
{
    let Ok(n) = u8::try_from(p.n) else {
        return Err(Refusal::Graph);
    };
    let Ok(m) = u8::try_from(p.m) else {
        return Err(Refusal::Graph);
    };
    let g = Graph {
        a: *a,
        b: *b,
        cost: *cost,
        n,
        m,
        ..Graph::empty()
    };
    open(
        &g,
        &p.multipliers,
        p.settings,
        node,
        &mut PassLists::blank(),
    )
}
