// The cost of a tour.
ghost use Rattle.std.specs.Prelude.{◌≡◌, ◌*◌};
ghost use Rattle.integers.specs.Range.{InRange};
ghost use Rattle.graph.specs.Limits.{max_cost, max_edges};
ghost use Rattle.graph.specs.Network.{network};
ghost use Rattle.tree_theory.specs.Arrays.{bytes};
ghost use Rattle.tours.specs.Tours.{cost};

use graph::{MAX_EDGES, ValidGraph};

// The sum of the costs of the edges that are in. By index: `zip`, `filter`, `map` and `sum` were tried, but a sum of signed numbers asks that each
// sum on the way is in range, of which std has no lemma. A `for` over the `zip`, as in onetree's `count_degrees`, was proved too, but takes
// 947 instructions for 757 at 190 edges.
pub(crate) fn tour_cost(valid: ValidGraph, w: &[u8; MAX_EDGES]) -> i64
    ensures { (result ≡ cost (network valid.entry.graph.now) (bytes w.now)) × InRange (max_cost * max_edges) result }
{
    let g = valid.graph;
    let mut sum = 0;
    for k in 0..usize::from(g.m) {
        if w[k] == 1 {
            sum += i64::from(g.cost[k]);
        }
    }
    sum
}
