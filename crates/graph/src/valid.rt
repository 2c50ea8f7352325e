// Refusal 15: 'Legs and marks'. Three passes over the edges are the whole check where they stand row by row; else a fourth goes by one table, in which each
// pair of ends has a place.
ghost use Rattle.std.specs.Prelude.{◌≡◌, ◌≤◌, ◌&&◌, IfOk, leb, min};
ghost use Rattle.lists.specs.Bools.{Says};
ghost use Rattle.lists.specs.Hits.{Nowhere};
ghost use Rattle.integers.specs.Range.{within};
ghost use Rattle.graph.specs.Limits.{max_edges, max_cost, max_mark};
ghost use Rattle.graph.specs.Valid.{ends_ok, graph_of, graph_fault, valid};
ghost use Rattle.graph.specs.Made.{MadeOf};
ghost use Rattle.graph.specs.Refusals.{fault_of};
ghost use Rattle.graph.specs.PairTable.{place_of};
ghost use Rattle.graph.specs.CheckLoop.{sized, ends_fit, costs_fit, parts_fit, pair_again, InPairs};
ghost use Rattle.graph.specs.Rising.{before, pairs_rise};

use crate::{
    EXCLUDED, Graph, GraphParts, MAX_COST, MAX_EDGES, MAX_VERTICES, MIN_VERTICES, Refusal,
    VERTEX_PLACES, ValidGraph,
};

// The table of pairs has a row for each first end, and in it a place for each second end.
const PAIRS: usize = VERTEX_PLACES * VERTEX_PLACES;

// Are x and y, in this order, the ends of an edge among n vertices?
// Ruled out: yes where they are swapped or one vertex; no for vertex n.
#[tactic(auto, unfolding(crate::specs::Valid::ends_ok))]
pub fn ends_ok(n: usize, x: u8, y: u8) -> bool
    ensures { result ≡ ends_ok n x y }
{
    (1..y).contains(&x) && usize::from(y) <= n
}

// Is the cost within its range? Of `i32` alone: one function over all types of numbers would need a trait that says which numbers they stand for.
// Ruled out: yes for one beyond the limit on either side; no for the limit itself.
#[tactic(auto, unfolding(integers::specs::Range::within))]
pub fn cost_ok(z: i32) -> bool
    ensures { result ≡ within max_cost z }
{
    (-MAX_COST..=MAX_COST).contains(&z)
}

// Are the ends x, y and the mark w of an edge as they must be? In bytes: by `ends_ok` the check of 190 edges takes 5,109 instructions for 2,072.
#[tactic(auto, unfolding(crate::specs::Valid::ends_ok))]
fn edge_fits(n: u8, x: u8, y: u8, w: u8) -> bool
    ensures { result ≡ ends_ok n x y && leb w max_mark }
{
    (1..y).contains(&x) && y <= n && w <= EXCLUDED
}

// Does the pair x, y come before the pair u, v?
#[tactic(auto, unfolding(crate::specs::Rising::before))]
fn before(x: u8, y: u8, u: u8, v: u8) -> bool
    ensures { result ≡ before x y u v }
{
    x < u || x == u && y < v
}

// The place of the pair x, y in the table of pairs met.
fn place_of(x: u8, y: u8) -> usize
    ensures { result ≡ place_of x y }
{
    usize::from(x) * VERTEX_PLACES + usize::from(y)
}

impl Graph {
    // Has it 3 to 20 vertices, and at most 190 edges?
    fn sized(&self) -> bool
        ensures { result ≡ sized self.now }
    {
        let n = usize::from(self.n);
        (MIN_VERTICES..=MAX_VERTICES).contains(&n) && usize::from(self.m) <= MAX_EDGES
    }

    // How many edges there are, as far as there is room for them.
    fn edges(&self) -> usize
        ensures { result ≡ min self.now.m max_edges }
    {
        usize::from(self.m).min(MAX_EDGES)
    }

    // Are the ends and the marks of all edges as they must be? By `&`: a loop with no way out in the middle takes many edges at a time, where `all`
    // takes six times as long.
    fn ends_fit(&self) -> bool
        ensures { result ≡ ends_fit self.now }
    {
        let m = self.edges();
        self.a[..m]
            .iter()
            .zip(&self.b[..m])
            .zip(&self.mark[..m])
            .fold(true, |fit, ((x, y), w)| fit & edge_fits(self.n, *x, *y, *w))
    }

    // Are all costs within their range? By `&`, as `ends_fit`.
    fn costs_fit(&self) -> bool
        ensures { result ≡ costs_fit self.now }
    {
        self.cost[..self.edges()]
            .iter()
            .fold(true, |fit, z| fit & cost_ok(*z))
    }

    // Is each pair of ends there once? Asked after `sized` alone: a type for what has passed it would stand at this one place.
    fn pairs_fit(&self) -> bool
        requires { (self.now.m ≤ max_edges) × InPairs self.now.a self.now.b self.now.m }
        ensures { Says result (Nowhere (pair_again self.now.a self.now.b) self.now.m) }
    {
        let mut met = [false; PAIRS];
        // a count, and by k: by `|=` the check of 190 edges takes 95 instructions more; by a zip of the two lists 100 more where it is inlined in a caller
        let mut again: u8 = 0;
        for k in 0..usize::from(self.m) {
            let p = place_of(self.a[k], self.b[k]);
            again += u8::from(met[p]);
            met[p] = true;
        }
        again == 0
    }

    // Does each pair of ends come before that of the next edge? By `&`, as `ends_fit`.
    fn pairs_rise(&self) -> bool
        ensures { result ≡ pairs_rise self.now }
    {
        let last = self.edges().saturating_sub(1);
        self.a[..last]
            .iter()
            .zip(&self.b[..last])
            .zip(&self.a[1..])
            .zip(&self.b[1..])
            .fold(true, |rise, (((x, y), u), v)| {
                rise & before(*x, *y, *u, *v)
            })
    }

    // The same as `pairs_fit`. Edges mostly stand row by row: then no table is made.
    fn pairs_once(&self) -> bool
        requires { (self.now.m ≤ max_edges) × InPairs self.now.a self.now.b self.now.m }
        ensures { Says result (Nowhere (pair_again self.now.a self.now.b) self.now.m) }
    {
        self.pairs_rise() || self.pairs_fit()
    }

    // Is all as it must be but that a pair may be there twice?
    fn parts_fit(&self) -> bool
        ensures { result ≡ parts_fit self.now }
    {
        self.sized() && self.ends_fit() && self.costs_fit()
    }

    // Does the graph keep to 'Legs and marks'? What stands past m counts for nothing.
    // Ruled out: yes for a graph with a mark above 2, an edge whose ends are swapped or a pair that is there twice, however far apart; no for one with
    // the full 190 edges, or for what stands past m.
    pub fn check(&self) -> bool
        ensures { result ≡ valid self.now }
    {
        self.parts_fit() && self.pairs_once()
    }

    // Refusal 15 where it does not.
    // Ruled out: none for a graph that breaks 'Legs and marks'; any number but 15 for it.
    pub fn fault(&self) -> Result<(), Refusal>
        ensures { fault_of result ≡ graph_fault self.now }
    {
        Refusal::Graph.unless(self.check())
    }

    // The graph, as one that keeps to it, or refusal 15.
    // Ruled out: a graph that breaks 'Legs and marks'; another graph than this one.
    #[tactic(auto, using(crate::specs::Meaning::graph_fine))]
    pub fn valid(&self) -> Result<ValidGraph<'_>, Refusal>
        ensures fault { fault_of result ≡ graph_fault self.now }
        ensures same { IfOk result (λ g. g.graph.now ≡ self.now) }
    {
        self.fault()?;
        Ok(ValidGraph { graph: self })
    }
}

impl GraphParts<'_> {
    // The graph that has these parts, or refusal 15 where n or m is no byte: parts with so many vertices or edges break 'Legs and marks'.
    // Ruled out: n or m cut to a byte; another refusal than 15.
    pub fn graph(&self) -> Result<Graph, Refusal>
        ensures { MadeOf (graph_of self.now.n self.now.m self.now.a.now self.now.b.now self.now.cost.now self.now.mark.now) result }
    {
        let (Ok(n), Ok(m)) = (u8::try_from(self.n), u8::try_from(self.m)) else {
            return Err(Refusal::Graph);
        };
        Ok(Graph {
            cost: *self.cost,
            a: *self.a,
            b: *self.b,
            mark: *self.mark,
            n,
            m,
        })
    }
}

// Do these parts of a graph keep to 'Legs and marks'? What stands past m counts for nothing.
// Ruled out: yes for a graph that has a pair twice, however far apart, or whose n is 256 more than it may be; no for one with the full 190 edges.
pub fn check_parts<'a>(
    n: usize,
    m: usize,
    a: &'a [u8; MAX_EDGES],
    b: &'a [u8; MAX_EDGES],
    cost: &'a [i32; MAX_EDGES],
    mark: &'a [u8; MAX_EDGES],
) -> bool
    ensures { result ≡ valid (graph_of n m a.now b.now cost.now mark.now) }
{
    let parts = GraphParts {
        n,
        m,
        a,
        b,
        cost,
        mark,
    };
    parts.graph().is_ok_and(|g| g.check())
}
