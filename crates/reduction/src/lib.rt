// Document 02's C-20: the calls tree and rule with a list that says which vertices are ashore. They are answered on the graph of the others, whose
// vertices have new numbers; where none is ashore, on the graph itself. (Its words: buoy, leg, due, struck; ashore for inactive, afloat for active.)
#![tactic(auto)]

ghost use Rattle.std.specs.Prelude.{◌≡◌, length, true};
ghost use Rattle.integers.specs.Multiples.{◌times◌};
ghost use Rattle.tree_theory.specs.Inputs.{ceiling_fits, denominator_fault};
ghost use Rattle.onetree.specs.Answers.{meaning, tree_says, tree_writes, rule_says, rule_writes};
ghost use Rattle.reduction.specs.Answers.{tree_of, rulings_of, tree_reply_over, tree_leaves_over, rule_reply_over, rule_leaves_over};
ghost use Rattle.reduction.specs.Accepting.{MultipliersFit};

mod left;
mod refusals;
mod vertices;

use crate::left::{Small, expand};
pub use crate::refusals::{ashore_fault, input_fault, tree_fault};
use crate::vertices::none_listed;
pub use crate::vertices::{ASHORE, Afloat, active, any_ashore};
use graph::{Graph, MAX_EDGES, Refusal};
use onetree::{Ruling, ceiling_fault, denominator_fault};

// The tree call where some vertices are ashore and nothing is refused: on the graph of the others, of whose edges only those that are not excluded are
// left. Not inlined, here and below: the graphs that it makes would have their room in the frame of every call.
#[inline(never)]
fn tree_over(
    afloat: &Afloat,
    multipliers: &[i32],
    denominator: u64,
    out: &mut [u8],
) -> Result<Option<i64>, Refusal>
    requires fits { MultipliersFit afloat.now.graph.now multipliers.now }
    requires denominator { denominator_fault denominator ≡ 0 }
    requires lent { length out.old ≡ afloat.now.graph.now.m }
    ensures reply { meaning result ≡ tree_says (tree_of afloat.now.graph.now multipliers.now afloat.now.ashore.now denominator) }
    ensures left { out.new ≡ tree_writes afloat.now.graph.now.m out.old (tree_of afloat.now.graph.now multipliers.now afloat.now.ashore.now denominator) }
{
    let small = Small::new(afloat, multipliers);
    let mut bytes = [0; MAX_EDGES];
    let n = usize::from(small.left.n);
    let m = usize::from(small.left.m);
    let bound = onetree::tree(
        &small.left,
        &small.multipliers[..n],
        denominator,
        &mut bytes[..m],
    )?;
    if bound.is_some() {
        expand(&small.all, &bytes, 0, out);
    }
    Ok(bound)
}

// The 1-tree of least bound over the vertices that are afloat, or that there is none: document 01's call where none is ashore.
// Ruled out: 'no tree' since a vertex ashore is not joined; byte 1 at an edge that touches one; 35 before 32.
// Inlined, here and below, so that where none is ashore the list costs no call.
#[inline(always)]
pub fn tree(
    g: &Graph,
    multipliers: &[i32],
    ashore: &[u8],
    denominator: u64,
    out: &mut [u8],
) -> Result<Option<i64>, Refusal>
    ensures reply { meaning result ≡ tree_reply_over g.now multipliers.now ashore.now denominator (length out.old) }
    ensures left { out.new ≡ tree_leaves_over g.now multipliers.now ashore.now denominator out.old }
{
    if none_listed(ashore, usize::from(g.n)) {
        return onetree::tree(g, multipliers, denominator, out);
    }
    tree_fault(g, multipliers, ashore, denominator, out.len())?;
    tree_over(&Afloat { graph: g, ashore }, multipliers, denominator, out)
}

// The rule call where some vertices are ashore and nothing is refused, as `tree_over`.
#[inline(never)]
fn rule_over(
    afloat: &Afloat,
    multipliers: &[i32],
    ceiling: i64,
    denominator: u64,
    out: &mut [u8],
) -> Result<Option<i64>, Refusal>
    requires fits { MultipliersFit afloat.now.graph.now multipliers.now }
    requires ceiling { ceiling_fits ceiling ≡ true }
    requires denominator { denominator_fault denominator ≡ 0 }
    requires lent { length out.old ≡ afloat.now.graph.now.m }
    ensures reply { meaning result ≡ rule_says (denominator times ceiling) (tree_of afloat.now.graph.now multipliers.now afloat.now.ashore.now denominator) }
    ensures left { out.new ≡ rule_writes afloat.now.graph.now.m (denominator times ceiling) out.old
        (rulings_of afloat.now.graph.now multipliers.now afloat.now.ashore.now ceiling denominator)
        (tree_of afloat.now.graph.now multipliers.now afloat.now.ashore.now denominator) }
{
    let small = Small::new(afloat, multipliers);
    let mut bytes = [0; MAX_EDGES];
    let n = usize::from(small.left.n);
    let m = usize::from(small.left.m);
    let bound = onetree::rule(
        &small.left,
        &small.multipliers[..n],
        ceiling,
        denominator,
        &mut bytes[..m],
    )?;
    if bound.is_some() {
        expand(&small.all, &bytes, u8::from(Ruling::WasExcluded), out);
    }
    Ok(bound)
}

// The bound of the least 1-tree over the vertices that are afloat, and for each edge its ruling; or that none is within the ceiling: document 01's call
// where none is ashore.
// Ruled out: 3 for a required edge that touches a vertex ashore; 'dead' since such an edge is in no 1-tree.
#[inline(always)]
pub fn rule(
    g: &Graph,
    multipliers: &[i32],
    ashore: &[u8],
    ceiling: i64,
    denominator: u64,
    out: &mut [u8],
) -> Result<Option<i64>, Refusal>
    ensures reply { meaning result ≡ rule_reply_over g.now multipliers.now ashore.now ceiling denominator (length out.old) }
    ensures left { out.new ≡ rule_leaves_over g.now multipliers.now ashore.now ceiling denominator out.old }
{
    if none_listed(ashore, usize::from(g.n)) {
        return onetree::rule(g, multipliers, ceiling, denominator, out);
    }
    input_fault(g, multipliers, ashore, out.len())?;
    ceiling_fault(ceiling)?;
    denominator_fault(denominator)?;
    ashore_fault(ashore, usize::from(g.n))?;
    rule_over(
        &Afloat { graph: g, ashore },
        multipliers,
        ceiling,
        denominator,
        out,
    )
}
