// How many edges of a set touch each vertex.
ghost use Rattle.tours.specs.Counted.{DegreesTo};

use graph::{MAX_EDGES, VERTEX_PLACES, ValidGraph};

// The degree of each vertex in the edges that are in, vertex v's at place v. The graph by reference: by value a pass takes 7 instructions more.
// Ruled out: an edge counted at one end alone; a byte past the edges counted.
pub fn count_degrees(valid: &ValidGraph, tree: &[u8; MAX_EDGES]) -> [u8; VERTEX_PLACES]
    ensures { DegreesTo valid.now.graph.now.m valid.now.graph.now tree.now result }
{
    let g = valid.graph;
    let mut degrees = [0u8; VERTEX_PLACES];
    let m = usize::from(g.m);
    for ((&a, &b), &w) in g.a[..m].iter().zip(&g.b[..m]).zip(&tree[..m]) {
        if w == 1 {
            degrees[usize::from(a)] += 1;
            degrees[usize::from(b)] += 1;
        }
    }
    degrees
}
