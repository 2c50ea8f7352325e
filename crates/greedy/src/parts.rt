// The search for the least 1-tree for callers that have no `Graph`, and that have a refusal of their own to tell.
ghost use Rattle.graph.specs.Refusals.{fault_of};
ghost use Rattle.graph.specs.Valid.{graph_of};
ghost use Rattle.greedy.specs.LeastParts.{LeastPartsOrRefused};

use crate::{Checked, Denominator, Found, Lists};
use graph::{GraphParts, MAX_EDGES, Refusal};

// The same as `least`, of the parts of a graph: the first fault of the graph, its multipliers and the list that the caller is lent for an answer, or else
// `later`, what the caller refuses after them, or else that of the denominator. The charges are blanked before all else.
// Ruled out: 32 where the caller has a refusal left to tell; a charge left standing where there is a fault, or a byte of the tree changed.
pub fn least_parts(
    parts: &GraphParts<'_>,
    multipliers: &[i32],
    lent: usize,
    later: Result<(), Refusal>,
    denominator: u64,
    hint: &[u8],
    lists: &mut Lists,
) -> Result<Option<Found>, Refusal>
    ensures { LeastPartsOrRefused denominator (graph_of parts.now.n parts.now.m parts.now.a.now parts.now.b.now parts.now.cost.now parts.now.mark.now)
        multipliers.now lent (fault_of later) lists.old result lists.new }
{
    lists.charges = [0; MAX_EDGES];
    let g = parts.graph()?;
    let checked = Checked::new(&g, multipliers, lent)?;
    later?;
    let q = Denominator::new(denominator)?;
    Ok(checked.least(q, hint, lists))
}
