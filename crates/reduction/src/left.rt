// What onetree's calls are asked instead: the graph of the vertices that are afloat, without its excluded edges; and its bytes made bytes for all edges.
ghost use Rattle.std.specs.Prelude.{◌≡◌, ◌+◌, ◌<◌, ◌≤◌, length};
ghost use Rattle.lists.specs.Rows.{row};
ghost use Rattle.graph.specs.Limits.{max_edges};
ghost use Rattle.thinning.specs.Ranks.{rank};
ghost use Rattle.reduction.specs.Accepting.{MultipliersFit};
ghost use Rattle.reduction.specs.Left.{kept, LeftTo, LeftOf, expanded};
ghost use Rattle.reduction.specs.Made.{Made};

use crate::vertices::Afloat;
use graph::{EXCLUDED, Graph, MAX_EDGES, MAX_VERTICES};

// Edge k at place f, behind those that are left of the edges before it.
fn copy_edge(g: &Graph, k: usize, f: usize, left: &mut Graph)
    requires few { (k < max_edges) × (f < max_edges) }
    requires before { LeftTo g.now k left.old }
    requires at { f ≡ rank (kept g.now.mark) k }
    ensures { LeftTo g.now (k + 1) left.new }
{
    left.a[f] = g.a[k];
    left.b[f] = g.b[k];
    left.cost[f] = g.cost[k];
    left.mark[f] = g.mark[k];
}

// The graph of the edges that are not excluded.
fn without_excluded(g: &Graph) -> Graph
    requires { g.now.m ≤ max_edges }
    ensures { LeftOf g.now result }
{
    let mut left = Graph::edgeless(g.n);
    let mut f = 0;
    for k in 0..usize::from(g.m) {
        if g.mark[k] != EXCLUDED {
            copy_edge(g, k, f, &mut left);
            f += 1;
        }
    }
    left.m = f as u8;
    left
}

// Bytes for the edges that are left made bytes for all: an excluded one has the byte `rest`.
pub(crate) fn expand(g: &Graph, bytes: &[u8; MAX_EDGES], rest: u8, out: &mut [u8])
    requires few { g.now.m ≤ max_edges }
    requires lent { length out.old ≡ g.now.m }
    ensures { out.new ≡ row g.now.m (expanded g.now bytes.now rest) }
{
    let mut f = 0;
    for k in 0..usize::from(g.m) {
        if g.mark[k] == EXCLUDED {
            out[k] = rest;
        } else {
            out[k] = bytes[f];
            f += 1;
        }
    }
}

// The graph of the vertices that are afloat, with all edges and with those that are not excluded, and the multipliers of these vertices.
#[derive(Clone, Copy)]
pub(crate) struct Small {
    pub(crate) all: Graph,
    pub(crate) left: Graph,
    pub(crate) multipliers: [i32; MAX_VERTICES],
}

impl Small {
    pub(crate) fn new(afloat: &Afloat, multipliers: &[i32]) -> Small
        requires { MultipliersFit afloat.now.graph.now multipliers.now }
        ensures { Made afloat.now.ashore.now afloat.now.graph.now multipliers.now result }
    {
        let all = afloat.reduced();
        let left = without_excluded(&all);
        Small {
            all,
            left,
            multipliers: afloat.active_multipliers(multipliers),
        }
    }
}
