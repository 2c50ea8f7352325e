// Document 01's 'Legs and marks'. Our words: graph for chart or sea, vertex for buoy, edge for leg.
#![tactic(auto)]

ghost use Rattle.std.specs.Prelude.{◌≡◌, ◌<◌, IfSome};
ghost use Rattle.graph.specs.Edgeless.{edgeless};
ghost use Rattle.graph.specs.Numbered.{edge_place};
ghost use Rattle.graph.specs.Valid.{Valid};

mod refusals;
mod valid;

pub use refusals::{Refusal, Refused};
pub use valid::{check_parts, cost_ok, ends_ok};

// Limits. The definitions in specs/Limits.antt state them; every size fact is a law over those.
pub const MIN_VERTICES: usize = 3;

pub const MAX_VERTICES: usize = 20;

// A place for each vertex, and place 0 for none.
pub const VERTEX_PLACES: usize = MAX_VERTICES + 1;

pub const MAX_EDGES: usize = 190;

pub const MAX_COST: i32 = 100_000_000;

// Marks. Numbers and no enum, since C fills the bytes of a graph with what it likes, and `check` tells what is none.
pub const FREE: u8 = 0;

pub const REQUIRED: u8 = 1;

pub const EXCLUDED: u8 = 2;

// A graph, with any contents: vertices 1 to n, edges 1 to m. Edge k stands at place k - 1 of the arrays and joins a and b;
// what stands past m counts for nothing. The fields stand widest first, so that no byte lies between them. Arrays and a count, and none of edges, since
// C lays a graph out so.
#[repr(C)]
#[derive(Clone, Copy, Debug, PartialEq, Eq)]
pub struct Graph {
    pub cost: [i32; MAX_EDGES],
    pub a: [u8; MAX_EDGES],
    pub b: [u8; MAX_EDGES],
    pub mark: [u8; MAX_EDGES],
    pub n: u8,
    pub m: u8,
}

impl Graph {
    // n vertices and no edges, zero at every place.
    // Ruled out: one with a vertex more or less; one with an edge or a mark left past m.
    #[tactic(auto, unfolding(crate::specs::Edgeless::edgeless))]
    pub fn edgeless(n: u8) -> Graph
        ensures { result ≡ edgeless n }
    {
        Graph {
            cost: [0; MAX_EDGES],
            a: [0; MAX_EDGES],
            b: [0; MAX_EDGES],
            mark: [0; MAX_EDGES],
            n,
            m: 0,
        }
    }

    // No vertex and no edge, zero at every place.
    // Ruled out: one with vertices; one with an edge or a mark left past m.
    pub fn empty() -> Graph
        ensures { result ≡ edgeless 0 }
    {
        Graph::edgeless(0)
    }

    // The place of the edge of this number, 1 to m; none for another number.
    // Ruled out: none for edge m; a place for 0.
    #[tactic(auto, unfolding(crate::specs::Numbered::edge_place))]
    pub fn place(&self, edge: usize) -> Option<usize>
        ensures place { result ≡ edge_place self.now.m edge }
        ensures within { IfSome result (λ at. at < self.now.m) }
    {
        // 0 wraps round to what is no place; by `checked_sub` and `filter` it takes two instructions more
        let place = edge.wrapping_sub(1);
        (place < usize::from(self.m)).then_some(place)
    }
}

// A graph, lent, that keeps to 'Legs and marks'.
#[derive(Clone, Copy)]
pub struct ValidGraph<'a> {
    pub graph: &'a Graph,
    pub ghost valid: { Valid graph.now },
}

// The parts of a graph, lent one by one, for code that keeps no `Graph`: with any number of vertices and edges, a byte or not.
#[derive(Clone, Copy)]
pub struct GraphParts<'a> {
    pub n: usize,
    pub m: usize,
    pub a: &'a [u8; MAX_EDGES],
    pub b: &'a [u8; MAX_EDGES],
    pub cost: &'a [i32; MAX_EDGES],
    pub mark: &'a [u8; MAX_EDGES],
}
