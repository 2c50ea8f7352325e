// The greedy choice: of the edges at vertex 1 the first two, and of the others, in order, each that joins two components.
ghost use Rattle.std.specs.Prelude.{◌≡◌, cond, ℕ, ◌+◌, ◌*◌, ◌<◌, ◌≤◌, eqb, length, get_or};
ghost use Rattle.lists.specs.Bools.{Says};
ghost use Rattle.graph.specs.Limits.{max_edges};
ghost use Rattle.graph.specs.Network.{network};
ghost use Rattle.spanning.specs.Walks.{relabel};
ghost use Rattle.greedy.specs.Charged.{max_charge};
ghost use Rattle.greedy.specs.ChoiceSoFar.{ChoiceSoFar, Lacking, TwoTaken};
ghost use Rattle.greedy.specs.Keys.{AllKeyed, KeysOfEdges};
ghost use Rattle.greedy.specs.Parting.{Reached};
ghost use Rattle.greedy.specs.Fronts.{Front};
ghost use Rattle.greedy.specs.Chosen.{ChosenIs};
ghost use Rattle.tree_theory.specs.Arrays.{blank};

use crate::charges::ChargedGraph;
use crate::fronts::complete;
use crate::order::{CHARGE_UNIT, FAR_KEYS, place};
use graph::{MAX_EDGES, VERTEX_PLACES};

// The label z where those that are high become low.
fn relabelled(z: u8, low: u8, high: u8) -> u8
    ensures { result ≡ cond (eqb z high) low z }
{
    if z == high { low } else { z }
}

// The components labelled x and y become one, labelled by the smaller. Every label is stored, so that the loop takes many at a time.
fn join(labels: &mut [u8; VERTEX_PLACES], x: u8, y: u8)
    ensures { (v : ℕ) → v < 21 → get_or labels.new v 0 ≡ relabel x y (get_or labels.old v 0) }
{
    let low = x.min(y);
    let high = x.max(y);
    for z in labels.iter_mut() {
        *z = relabelled(*z, low, high);
    }
}

// The first place whose key is at least `least`, or the number of keys. So both the edges at vertex 1 among all and the required among those of one kind
// are counted, for these come first: a required edge's key has no charge in it, and a free edge's has one of at least 1. Few come before it: the three
// searches of a tree take 75 to 121 instructions at 8 vertices and 135 to 181 at 20; by `partition_point` they take 188 to 192 and 281 to 285.
fn reached(keys: &[u64], least: u64) -> usize
    ensures { Reached keys.now (length keys.now) least result }
{
    keys.iter()
        .position(|key| *key >= least)
        .unwrap_or(keys.len())
}

// What the greedy choice among the edges away from vertex 1 came to: the turn that is next, how many it took, the sum of their charges, and for each
// vertex the label of its component, the least vertex in it.
#[derive(Clone, Copy)]
struct Grown {
    next: usize,
    far: usize,
    sum: u64,
    labels: [u8; VERTEX_PLACES],
}

impl Grown {
    // Each vertex a component of its own.
    fn none() -> Grown
        ensures { (result.next ≡ 0) × (result.far ≡ 0) × (result.sum ≡ 0)
            × (length result.labels ≡ 21) × ((v : ℕ) → v < 21 → get_or result.labels v 0 ≡ v) }
    {
        Grown {
            next: 0,
            far: 0,
            sum: 0,
            labels: std::array::from_fn(|v| v as u8),
        }
    }

    // From the turn that is next on, onto what was taken before: one byte an edge in the tree. It ends as soon as `enough` edges are taken.
    fn grow(
        &mut self,
        charged: &ChargedGraph,
        keys: &[u64],
        enough: usize,
        tree: &mut [u8; MAX_EDGES],
    )
        requires { KeysOfEdges charged.now.graph.now keys.now × (self.old.next ≤ length keys.now)
            × ChoiceSoFar (network charged.now.graph.now) charged.now.charges.now keys.now self.old.next self.old.labels tree.old self.old.far self.old.sum }
        ensures { ChoiceSoFar (network charged.now.graph.now) charged.now.charges.now keys.now self.new.next self.new.labels tree.new self.new.far self.new.sum
            × Lacking (network charged.now.graph.now) keys.now enough self.old.next self.new.next
            × (self.old.next ≤ self.new.next) × (self.new.next ≤ length keys.now)
            × (self.new.next < length keys.now → enough ≤ self.new.far) }
    {
        let ChargedGraph { graph: g, charges } = *charged;
        // Counted in registers: fields would be stored in each turn. The turn that is next is part of the answer, so it is counted and not iterated.
        let Grown {
            mut next,
            mut far,
            mut sum,
            ..
        } = *self;
        while next < keys.len() && far < enough {
            let k = place(keys[next]);
            let x = self.labels[usize::from(g.a[k])];
            let y = self.labels[usize::from(g.b[k])];
            if x != y {
                join(&mut self.labels, x, y);
                tree[k] = 1;
                sum += charges[k];
                far += 1;
            }
            next += 1;
        }
        self.next = next;
        self.far = far;
        self.sum = sum;
    }
}

impl Grown {
    ghost use Rattle.std.specs.Prelude.{List, drop};
    ghost use Rattle.lists.specs.Sorting.{Shuffled};
    ghost use Rattle.greedy.specs.Fronts.{Front, Completes};

    // The same among the keys from place near on, of which the front is in order: where it is not enough, the others are put in order too. It is as if
    // all had been in order.
    fn grow_on(
        &mut self,
        charged: &ChargedGraph,
        keys: &mut [u64],
        near: usize,
        front: usize,
        enough: usize,
        tree: &mut [u8; MAX_EDGES],
    )
        requires { KeysOfEdges charged.now.graph.now keys.old × Front front keys.old × (near + self.old.next ≤ front)
            × ChoiceSoFar (network charged.now.graph.now) charged.now.charges.now (drop near keys.old) self.old.next self.old.labels tree.old
            self.old.far self.old.sum }
        ensures { Shuffled (length keys.old) keys.old keys.new × ((i : ℕ) → i < near → get_or keys.new i 0 ≡ get_or keys.old i 0)
            × ((ls : List ℕ) × Completes front keys.old ls
            × ChoiceSoFar (network charged.now.graph.now) charged.now.charges.now (drop near ls) self.new.next self.new.labels tree.new
            self.new.far self.new.sum
            × Lacking (network charged.now.graph.now) (drop near ls) enough self.old.next self.new.next
            × (self.old.next ≤ self.new.next) × (near + self.new.next ≤ length ls)
            × (near + self.new.next < length ls → enough ≤ self.new.far)) }
    {
        self.grow(charged, &keys[near..front], enough, tree);
        if self.far < enough {
            complete(keys, front);
            self.grow(charged, &keys[near..], enough, tree);
        }
    }
}

// Is what was taken a 1-tree? near: how many edges at vertex 1 there were to choose two from, and must: how many of them are required; far: how many
// others were taken. The required ones among these were taken first, and all must have joined two components. No struct has these six numbers, and
// in place the four tests are branches, by which the proof of `choose` would have to go.
fn whole(n: usize, near: usize, must: usize, far: usize, required: usize, joined: usize) -> bool
    requires { far ≤ max_edges }
    ensures { Says result ((2 ≤ near) × (far + 2 ≡ n) × (must ≤ 2) × (joined ≡ required)) }
{
    near >= 2 && far + 2 == n && must <= 2 && joined == required
}

// What the greedy choice came to: the sum of the charges of all that it took, where these are a 1-tree; and at how many free edges the loop looked that
// joins the vertices other than vertex 1 (document 02, C-12).
#[derive(Clone, Copy)]
pub(crate) struct Chosen {
    pub sum: Option<u64>,
    pub looked: usize,
}

impl ChargedGraph<'_> {
    // The first two edges at vertex 1, or as many as there are, onto the others that are taken: one byte an edge in the tree, and the sum of charges.
    fn take_two(&self, keys: &[u64], sum: u64, tree: &mut [u8; MAX_EDGES]) -> u64
        requires { KeysOfEdges self.now.graph.now keys.now × (sum ≤ max_charge * max_edges) }
        ensures { TwoTaken self.now.charges.now keys.now (length keys.now) tree.old sum tree.new result
            × (result ≤ sum + max_charge * length keys.now) }
    {
        let mut all = sum;
        for key in keys.iter().take(2) {
            let k = place(*key);
            tree[k] = 1;
            all += self.charges[k];
        }
        all
    }

    // The choice among all edges by their keys, of which the front is in order: one byte for each that is taken into the tree, which is blank before, and the labels that the required ones
    // give the vertices.
    pub(crate) fn choose(
        &self,
        keys: &mut [u64],
        front: usize,
        tree: &mut [u8; MAX_EDGES],
        labels: &mut [u8; VERTEX_PLACES],
    ) -> Chosen
        requires { AllKeyed self.now.graph.now self.now.charges.now keys.old (length keys.old) × Front front keys.old × (tree.old ≡ blank) }
        ensures { ChosenIs self.now.graph.now self.now.charges.now tree.new labels.new result
            × AllKeyed self.now.graph.now self.now.charges.now keys.new (length keys.new) }
    {
        let near = reached(keys, FAR_KEYS);
        let must = reached(&keys[..near], CHARGE_UNIT);
        let away = &keys[near..];
        let required = reached(away, FAR_KEYS + CHARGE_UNIT);
        let n = usize::from(self.graph.n);
        let enough = n - 2;
        let mut grown = Grown::none();
        // the required edges are all taken, however few connect the vertices
        grown.grow(self, &away[..required], MAX_EDGES, tree);
        let joined = grown.far;
        *labels = grown.labels;
        grown.grow_on(self, keys, near, front, enough, tree);
        let sum = self.take_two(&keys[..near], grown.sum, tree);
        Chosen {
            sum: whole(n, near, must, grown.far, required, joined).then_some(sum),
            looked: grown.next - required,
        }
    }
}
