// Document 02's C-11: what requiring or excluding one free edge would do to the least 1-tree. (Its words: leg for edge, struck for excluded.)
#![tactic(auto)]

ghost use Rattle.std.specs.Prelude.{◌≡◌, ◌+◌, ◌≤◌, ◌||◌, IfOk, cond, eqb, length};
ghost use Rattle.graph.specs.Refusals.{fault_of};
ghost use Rattle.graph.specs.Limits.{max_edges};
ghost use Rattle.onetree.specs.Answers.{meaning};
ghost use Rattle.preview.specs.Preview.{edge_fault, preview_fault, preview_reply, preview_leaves};

use graph::{EXCLUDED, FREE, Graph, REQUIRED, Refusal};
use reduction::tree_fault;

// A new mark as a graph has it: 1 or 2. It comes in C's 32 bits, so that no caller's number is cut to a right one, and is refused here and not on the
// way in, since 15, 11, 12, 32 and 35 come before its 30 (document 02, C-11, C-17 and C-20).
fn new_mark(mark: u32) -> Result<u8, Refusal>
    ensures fault { fault_of result ≡ cond (eqb mark 1 || eqb mark 2) 0 30 }
    ensures same { IfOk result (λ m. m ≡ mark) }
{
    match mark {
        1 => Ok(REQUIRED),
        2 => Ok(EXCLUDED),
        _ => Err(Refusal::NoSuchEdge),
    }
}

// The place of a free edge and its new mark, or the fault of either. The edge is free by its mark in the graph, even where it touches a vertex ashore.
#[tactic(auto, using(graph::specs::Refusals::positive), unfolding(graph::specs::Numbered::edge_place))]
fn free_edge(g: &Graph, edge: usize, mark: u32) -> Result<(usize, u8), Refusal>
    requires { g.now.m ≤ max_edges }
    ensures fault { fault_of result ≡ edge_fault g.now edge mark }
    ensures place { IfOk result (λ p. (p.0 + 1 ≡ edge) × (p.0 + 1 ≤ max_edges) × (p.1 ≡ mark)) }
{
    let place = g.place(edge).ok_or(Refusal::NoSuchEdge)?;
    let mark = new_mark(mark)?;
    Refusal::NotFree.unless(g.mark[place] == FREE)?;
    Ok((place, mark))
}

// The first fault of a preview, in document 02's order; or the place of the edge and its new mark.
fn asked(
    g: &Graph,
    multipliers: &[i32],
    ashore: &[u8],
    denominator: u64,
    edge: usize,
    mark: u32,
    lent: usize,
) -> Result<(usize, u8), Refusal>
    ensures fault { fault_of result ≡ preview_fault g.now multipliers.now ashore.now denominator edge mark lent }
    ensures place { IfOk result (λ p. (p.0 + 1 ≡ edge) × (p.0 + 1 ≤ max_edges) × (p.1 ≡ mark)) }
{
    tree_fault(g, multipliers, ashore, denominator, lent)?;
    free_edge(g, edge, mark)
}

// The least 1-tree of a copy of the graph in which this free edge has this mark, as the tree call answers with the same list of
// vertices ashore; the graph is untouched.
// Ruled out: the edge numbered from 0; an answer for an edge that is required or excluded already; 31 for a mark that is none.
pub fn preview(
    g: &Graph,
    multipliers: &[i32],
    ashore: &[u8],
    denominator: u64,
    edge: usize,
    mark: u32,
    out: &mut [u8],
) -> Result<Option<i64>, Refusal>
    ensures reply { meaning result ≡ preview_reply g.now multipliers.now ashore.now denominator edge mark (length out.old) }
    ensures left { out.new ≡ preview_leaves g.now multipliers.now ashore.now denominator edge mark out.old }
{
    let (place, mark) = asked(g, multipliers, ashore, denominator, edge, mark, out.len())?;
    let mut h = *g;
    h.mark[place] = mark;
    reduction::tree(&h, multipliers, ashore, denominator, out)
}
