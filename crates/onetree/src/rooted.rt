// The least 1-tree away from vertex 1, hung on vertex 2: what the walk of a circle climbs. Vertices that required edges join stand for one,
// so that only free edges are listed and hung.
ghost use Rattle.std.specs.Prelude.{◌&&◌, not, eqb, ◌≡◌, ℕ, ◌<◌, ◌≤◌, get_or, replicate};
ghost use Rattle.graph.specs.Limits.{max_vertices};
ghost use Rattle.graph.specs.Valid.{Valid};
ghost use Rattle.tree_theory.specs.Spans.{Spans};
ghost use Rattle.tree_theory.specs.Merges.{Merges};
ghost use Rattle.swaps.specs.RootedTree.{Labelled};
ghost use Rattle.swaps.specs.TreeTable as table;
ghost use Rattle.swaps.specs.TreeTable.{Ends, pushed, longer, empty_table};
ghost use Rattle.swaps.specs.Visiting.{row_of, Hung, Complete, Lined, Leaving, NeighboursHung, Rows};
ghost use Rattle.swaps.specs.Swaps.{Below};
ghost use Rattle.onetree.specs.Candidates.{AfterRoot, BelowRoot, Weighed};
ghost use Rattle.onetree.specs.Forcing.{OneEach};
ghost use Rattle.onetree.specs.HungTree.{HungTree, Unhung, rooting_of, queue_of, count_of};

use arrayvec::ArrayVec;
use graph::{FREE, Graph, MAX_EDGES, MAX_VERTICES, VERTEX_PLACES};
use greedy::Lists;

// A 1-tree in its graph, as a pass finds it. That it is one (`Spans`) and what its labels are (`Merges`) stand in contracts: both have walks, of which
// there may be two, and a ghost field must be a proposition. The labels of its edges' ends are lent beside it: a struct of both, with `Labelled` as a ghost
// field, would save that one line in `hang` and in `ReadyToJudge`, and make the path to the graph longer by a name in each contract.
#[derive(Clone, Copy)]
pub(crate) struct LeastTree<'a> {
    pub graph: &'a Graph,
    pub lists: &'a Lists,
    pub ghost valid: { Valid graph.now },
}

// The labels of each edge's two ends. Two arrays, as a graph's a and b are, of which the laws speak: pairs are as fast to the instruction, and each law would
// be told of two maps.
#[derive(Drop)]
pub(crate) struct EndLabels {
    pub from: [u8; MAX_EDGES],
    pub to: [u8; MAX_EDGES],
}

// Records of arrays are filled where they lie: one that is handed on as a value is copied.
impl EndLabels {
    pub(crate) fn blank() -> EndLabels {
        EndLabels {
            from: [0; MAX_EDGES],
            to: [0; MAX_EDGES],
        }
    }

    // By place: two arrays are read and two written. Over a `zip` of the two that are read (tried: left open) both writes would still go by place.
    pub(crate) fn fill(&mut self, tree: &LeastTree)
        ensures { Labelled tree.now.graph.now tree.now.lists.now.labels self.new.from self.new.to }
    {
        let g = tree.graph;
        let labels = &tree.lists.labels;
        for k in 0..usize::from(g.m) {
            self.from[k] = labels[usize::from(g.a[k])];
            self.to[k] = labels[usize::from(g.b[k])];
        }
    }
}

// Whether an edge of the tree may give way to another on its circle: it is free and not at vertex 1. By `&`, which is one branch for two.
// Ruled out: yes for a required edge, which then could be swapped out.
fn swappable(a: u8, mark: u8, w: u8) -> bool
    ensures { result ≡ not (eqb a 1) && (eqb w 1 && eqb mark 0) }
{
    a != 1 && (mark == FREE) & (w == 1)
}

// The tree's free edges at each label, and how many they are: row x - 1 lists those at x, each as one more than its place, and has zeros
// after them, so that a walk of a row needs no count, which is for pushing: document 01's 20 by 20 array. Edges at vertex 1 have no part in it.
#[derive(Drop)]
pub(crate) struct Listed {
    pub rows: [[u8; MAX_VERTICES]; MAX_VERTICES],
    pub count: [u8; VERTEX_PLACES],
}

impl Listed {
    fn blank() -> Listed
        ensures { (result.rows ≡ empty_table) × (result.count ≡ replicate 21 0) }
    {
        Listed {
            rows: [[0; MAX_VERTICES]; MAX_VERTICES],
            count: [0; VERTEX_PLACES],
        }
    }

    // At the end of the list of x.
    #[tactic(auto, unfolding(swaps::specs::Grid::put))]
    fn push(&mut self, x: usize, e: u8)
        requires { (1 ≤ x) × (x ≤ max_vertices) × (get_or self.old.count x 0 < max_vertices) }
        ensures { (self.new.rows ≡ pushed self.old.rows self.old.count x e) × (self.new.count ≡ longer self.old.count x) }
    {
        let i = usize::from(self.count[x]);
        self.rows[x - 1][i] = e;
        self.count[x] += 1;
    }

    // Each edge of the tree that may give way to another, at both its ends.
    // By place: five arrays are read at each. As zips they are five ranges `[..m]` and the pattern `((((&a, &mark), &member), &from), &to)`.
    fn fill(&mut self, tree: &LeastTree, ends: &EndLabels)
        requires { Spans tree.now.graph.now tree.now.lists.now.tree × Ends tree.now.graph.now tree.now.lists.now.tree ends.now.from ends.now.to
            × (self.old.rows ≡ empty_table) × (self.old.count ≡ replicate 21 0) }
        ensures { table.Lists tree.now.graph.now tree.now.lists.now.tree ends.now.from ends.now.to self.new.rows }
    {
        let g = tree.graph;
        for k in 0..usize::from(g.m) {
            if swappable(g.a[k], g.mark[k], tree.lists.tree[k]) {
                let e = (k + 1) as u8;
                self.push(usize::from(ends.from[k]), e);
                self.push(usize::from(ends.to[k]), e);
            }
        }
    }
}

// The label above each label, how deep each hangs, the place of the edge to the label above, and what that edge is charged; and the labels that hang, in the
// order of hanging. Arrays, and no array of structs: with one, climbs took 1.19 times the instructions, and hanging 1.14 times. A depth of 0 is nowhere, as in
// the laws of depths (`Hangs`): an Option is as fast in a climb, and no plainer, since one more than a depth would unwrap it and laws would have two cases.
#[derive(Drop)]
pub(crate) struct Rooting {
    pub parent: [u8; VERTEX_PLACES],
    pub depth: [u8; VERTEX_PLACES],
    pub edge: [u8; VERTEX_PLACES],
    pub weight: [u64; VERTEX_PLACES],
    pub queue: ArrayVec<u8, VERTEX_PLACES>,
}

impl Rooting {
    pub(crate) fn blank() -> Rooting
        ensures { Unhung result }
    {
        Rooting {
            parent: [0; VERTEX_PLACES],
            depth: [0; VERTEX_PLACES],
            edge: [0; VERTEX_PLACES],
            weight: [0; VERTEX_PLACES],
            queue: ArrayVec::new(),
        }
    }

    // Every neighbour of x that hangs nowhere yet is hung on x, and put at the end of the queue.
    fn visit(&mut self, ends: &EndLabels, listed: &Listed, x: usize)
        requires { Leaving ends.now.from ends.now.to (row_of listed.now.rows x) x (rooting_of self.old)
            (queue_of self.old) (count_of self.old) }
        ensures { NeighboursHung ends.now.from ends.now.to (row_of listed.now.rows x) x
            (rooting_of self.old) (queue_of self.old) (count_of self.old)
            (rooting_of self.new) (queue_of self.new) (count_of self.new) }
    {
        let d = self.depth[x] + 1;
        for e in &listed.rows[x - 1] {
            if *e == 0 {
                break;
            }
            let k = usize::from(*e) - 1;
            let y = usize::from(ends.from[k]) + usize::from(ends.to[k]) - x;
            if self.depth[y] == 0 {
                self.parent[y] = x as u8;
                self.depth[y] = d;
                self.edge[y] = k as u8;
                self.queue.push(y as u8);
            }
        }
    }

    // Vertex 2 hangs; from each label in the order of hanging its neighbours are hung.
    fn walk(&mut self, ends: &EndLabels, listed: &Listed)
        requires { ((n : ℕ) × (2 ≤ n) × (n ≤ max_vertices) × Rows ends.now.from ends.now.to n listed.now.rows)
            × Unhung self.old }
        ensures { ((n : ℕ) → 2 ≤ n → Rows ends.now.from ends.now.to n listed.now.rows
            → Hung ends.now.from ends.now.to listed.now.rows n
            (rooting_of self.new))
            × Complete ends.now.from ends.now.to listed.now.rows
            (rooting_of self.new)
            × Lined self.new.depth (queue_of self.new) (count_of self.new) }
    {
        self.depth[2] = 1;
        self.queue.push(2);
        let mut i = 0;
        // no `for`: the queue grows while it is walked
        while let Some(x) = self.queue.as_slice().get(i) {
            let x = usize::from(*x);
            self.visit(ends, listed, x);
            i += 1;
        }
    }

    // The labels of the queue but the first, which is the root.
    pub(crate) fn below_root(&self) -> &[u8]
        requires { 1 ≤ count_of self.now }
        ensures { AfterRoot (queue_of self.now) (count_of self.now) result.now }
    {
        &self.queue.as_slice()[1..]
    }

    // What the edge above each label is charged: there is none above the first of the queue, the root.
    fn weigh(&mut self, charges: &[u64; MAX_EDGES])
        requires { (1 ≤ count_of self.old) × OneEach (BelowRoot (queue_of self.old) (count_of self.old)) self.old.edge }
        ensures { Weighed (BelowRoot (queue_of self.old) (count_of self.old)) charges.now self.old.edge self.new.weight
            × (self.new ≡ record self.old { weight = self.new.weight }) }
    {
        // by place: where the fields are lent apart (`let Rooting { queue, edge, weight, .. } = self`, tried), the invariant can name no queue but its tail
        for i in 1..self.queue.len() {
            let v = usize::from(self.queue.as_slice()[i]);
            self.weight[v] = charges[usize::from(self.edge[v])];
        }
    }

    // The least 1-tree, hung, where the ends of its edges have these labels.
    pub(crate) fn hang(&mut self, tree: &LeastTree, ends: &EndLabels)
        requires { Spans tree.now.graph.now tree.now.lists.now.tree × Merges tree.now.graph.now tree.now.lists.now.labels
            × Labelled tree.now.graph.now tree.now.lists.now.labels ends.now.from ends.now.to × Unhung self.old }
        ensures { HungTree tree.now.graph.now tree.now.lists.now.tree tree.now.lists.now.labels (rooting_of self.new) (queue_of self.new) (count_of self.new)
            × Weighed (Below (rooting_of self.new)) tree.now.lists.now.charges self.new.edge self.new.weight }
    {
        let mut listed = Listed::blank();
        listed.fill(tree, ends);
        self.walk(ends, &listed);
        self.weigh(&tree.lists.charges);
    }
}
