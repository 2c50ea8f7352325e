// Rulings by swaps with the least 1-tree: one tree, never a second one. Outside the tree an edge is judged against the dearest edge that
// may give way to it, inside it against the cheapest that may come in for it. A required edge never gives way, so vertices that required
// edges join stand for one.
ghost use Rattle.std.specs.Prelude.{◌≡◌, ◌≤◌, length};
ghost use Rattle.lists.specs.Rows.{row};
ghost use Rattle.graph.specs.Limits.{max_edges};
ghost use Rattle.tree_theory.specs.Arrays.{entry};
ghost use Rattle.tree_theory.specs.Spans.{Spans};
ghost use Rattle.tree_theory.specs.Merges.{Merges};
ghost use Rattle.onetree.specs.Answers.{byte_of, ruling_bytes, all_keep};
ghost use Rattle.onetree.specs.Verdicts.{bar_byte, force_byte};
ghost use Rattle.onetree.specs.Candidates.{NearIs};
ghost use Rattle.onetree.specs.Outside.{near_byte};
ghost use Rattle.onetree.specs.Ruled.{ruling_of, ListsFit, RuledBy};

use crate::rooted::{EndLabels, LeastTree, Rooting};
use graph::{EXCLUDED, FREE, Graph, MAX_EDGES, MAX_VERTICES, REQUIRED, VERTEX_PLACES};
use greedy::{Lists, MAX_CEILING, MAX_DENOMINATOR, MAX_MULTIPLIER, MAX_SCALED};

// The largest charge, and how far a bound lies below a ceiling at most, in units of the multipliers.
const MAX_CHARGE: u64 = 2 * (MAX_SCALED + 2 * MAX_MULTIPLIER as u64) + 1;

const MAX_SLACK: u64 = MAX_DENOMINATOR * MAX_CEILING as u64
    + (MAX_SCALED + 1 + 4 * MAX_MULTIPLIER as u64) * MAX_VERTICES as u64;

// Where there is no edge: more than any charge and any slack together, and 0, less than any charge. No Options: of the dearest alone they took 1.11 times the
// instructions of all climbs, of both 1.25 times.
pub(crate) const NONE: u64 = MAX_CHARGE + MAX_SLACK + 1;

const NO_TOP: u64 = 0;

// A ruling. Its byte is what the lists have that C lends.
#[derive(Clone, Copy, Debug, Default, PartialEq, Eq)]
pub enum Ruling {
    #[default]
    Keep = 0,
    Force = 1,
    Bar = 2,
    WasRequired = 3,
    WasExcluded = 4,
}

// Ruled out: the byte of 'required' for a forced edge; that of 'keep' for a barred one.
impl From<Ruling> for u8 {
    ghost use Rattle.std.specs.Prelude.{◌≡◌};
    ghost use Rattle.onetree.specs.Answers.{byte_of};

    ghost from_gives = { λ ruling byte. byte ≡ byte_of ruling };

    fn from(ruling: Ruling) -> u8 {
        ruling as u8
    }
}

// A byte that is no ruling's.
#[derive(Clone, Copy, Debug, PartialEq, Eq)]
pub struct NoRuling(pub u8);

// Ruled out: a ruling for 5; 'keep' for the byte of 'required'.
impl TryFrom<u8> for Ruling {
    type Error = NoRuling;

    ghost use Rattle.onetree.specs.Answers.{RulingOf};

    ghost try_from_gives = { RulingOf };

    fn try_from(byte: u8) -> Result<Ruling, NoRuling> {
        match byte {
            0 => Ok(Ruling::Keep),
            1 => Ok(Ruling::Force),
            2 => Ok(Ruling::Bar),
            3 => Ok(Ruling::WasRequired),
            4 => Ok(Ruling::WasExcluded),
            _ => Err(NoRuling(byte)),
        }
    }
}

// The bytes of rulings, into a list that C lends.
pub(crate) fn write(rulings: &[Ruling; MAX_EDGES], out: &mut [u8])
    requires { length out.old ≤ max_edges }
    ensures { out.new ≡ row (length out.old) (entry (ruling_bytes rulings.now)) }
{
    for (k, byte) in out.iter_mut().enumerate() {
        *byte = u8::from(rulings[k]);
    }
}

// Outside the tree an edge at charge c is barred where nothing may give way, or where even the dearest leaves it above the slack.
#[tactic(auto, unfolding(crate::specs::Verdicts::bar_byte))]
fn bar(top: u64, c: u64, slack: u64) -> Ruling
    ensures { byte_of result ≡ bar_byte top c slack }
{
    if top == NO_TOP || c.saturating_sub(top) > slack {
        Ruling::Bar
    } else {
        Ruling::Keep
    }
}

// In the tree one is forced where even the cheapest adds more than the slack.
#[tactic(auto, unfolding(crate::specs::Verdicts::force_byte))]
fn force(low: u64, c: u64, slack: u64) -> Ruling
    ensures { byte_of result ≡ force_byte low c slack }
{
    if low.saturating_sub(c) > slack {
        Ruling::Force
    } else {
        Ruling::Keep
    }
}

// At vertex 1: the dearest free edge of the tree and the cheapest free edge outside it.
#[derive(Clone, Copy)]
pub(crate) struct Near {
    pub dearest: u64,
    pub cheapest: u64,
}

impl Near {
    // By place: four arrays are read at each. As zips they are four ranges `[..m]` and the pattern `(((&a, &mark), &charge), &member)`.
    fn of(tree: &LeastTree) -> Near
        ensures { NearIs tree.now.graph.now.a tree.now.graph.now.mark tree.now.lists.now.tree tree.now.lists.now.charges result.dearest
            result.cheapest tree.now.graph.now.m }
    {
        let g = tree.graph;
        let mut near = Near {
            dearest: NO_TOP,
            cheapest: NONE,
        };
        for k in 0..usize::from(g.m) {
            if g.a[k] == 1 && g.mark[k] == FREE {
                let c = tree.lists.charges[k];
                if tree.lists.tree[k] == 1 {
                    near.dearest = near.dearest.max(c);
                } else {
                    near.cheapest = near.cheapest.min(c);
                }
            }
        }
        near
    }

    // A free edge at vertex 1: in the tree against the cheapest that may come in, outside it against the dearest that may give way.
    #[tactic(auto, unfolding(crate::specs::Outside::near_byte))]
    fn ruling(self, w: u8, c: u64, slack: u64) -> Ruling
        ensures { byte_of result ≡ near_byte w self.dearest self.cheapest c slack }
    {
        if w == 1 {
            force(self.cheapest, c, slack)
        } else {
            bar(self.dearest, c, slack)
        }
    }
}

#[tactic(auto, unfolding(crate::specs::Ruled::ruling_of))]
fn ruling_of(mark: u8, old: Ruling) -> Ruling
    ensures { byte_of result ≡ ruling_of mark (byte_of old) }
{
    match mark {
        REQUIRED => Ruling::WasRequired,
        EXCLUDED => Ruling::WasExcluded,
        _ => old,
    }
}

// What edges are judged by: the least 1-tree, hung on the labels of its edges' ends; at vertex 1 the dearest and the cheapest; and how far it lies below
// the ceiling.
#[derive(Clone, Copy)]
pub(crate) struct Judging<'a> {
    pub tree: LeastTree<'a>,
    pub ends: &'a EndLabels,
    pub hung: &'a Rooting,
    pub near: Near,
    pub slack: u64,
}

// `outside` goes by place: six arrays are read at each. `inside` goes over the queue, and writes at the places of its edges.
impl<'a> Judging<'a> {
    ghost use Rattle.std.specs.Prelude.{◌≡◌, replicate};
    ghost use Rattle.lists.specs.FilledFrom.{Updated};
    ghost use Rattle.greedy.specs.Charged.{no_charge};
    ghost use Rattle.onetree.specs.Answers.{ruling_bytes, all_keep};
    ghost use Rattle.onetree.specs.Candidates.{BelowRoot};
    ghost use Rattle.onetree.specs.Forcing.{Forcing};
    ghost use Rattle.onetree.specs.HungTree.{rooting_of, queue_of, count_of};
    ghost use Rattle.onetree.specs.Outside.{RuledOutside};
    ghost use Rattle.onetree.specs.Ruled.{final_at};
    ghost use Rattle.onetree.specs.ReadyToJudge.{ReadyToJudge};

    // Every free edge at vertex 1 or outside the tree, its ruling into res: elsewhere than at vertex 1 against the dearest on its circle, from
    // the label of one end to that of the other. And for each label the cheapest edge that can take the place of the one above it.
    fn outside(&self, res: &mut [Ruling; MAX_EDGES], cheapest: &mut [u64; VERTEX_PLACES])
        requires { ReadyToJudge self.now × (res.old ≡ all_keep) × (cheapest.old ≡ replicate 21 no_charge) }
        ensures { RuledOutside self.now.tree.graph.now self.now.tree.lists.now.tree self.now.tree.lists.now.charges self.now.tree.lists.now.labels
            (rooting_of self.now.hung.now) self.now.near.cheapest self.now.slack (ruling_bytes res.new) cheapest.new self.now.tree.graph.now.m }
    {
        let g = self.tree.graph;
        let lists = self.tree.lists;
        for k in 0..usize::from(g.m) {
            if g.mark[k] == FREE {
                let c = lists.charges[k];
                if g.a[k] == 1 {
                    res[k] = self.near.ruling(lists.tree[k], c, self.slack);
                } else if lists.tree[k] != 1 {
                    let from = usize::from(self.ends.from[k]);
                    let to = usize::from(self.ends.to[k]);
                    let top = self.hung.climb(cheapest, from, to, c);
                    res[k] = bar(top, c, self.slack);
                }
            }
        }
    }

    // The edge above each label of the queue but the root, its ruling into res: it is free and in the tree.
    fn inside(&self, cheapest: &[u64; VERTEX_PLACES], res: &mut [Ruling; MAX_EDGES])
        requires { ReadyToJudge self.now }
        ensures { Forcing (BelowRoot (queue_of self.now.hung.now) (count_of self.now.hung.now)) self.now.tree.lists.now.charges self.now.hung.now.edge
            cheapest.now self.now.slack (ruling_bytes res.old) (ruling_bytes res.new) }
    {
        for v in self.hung.below_root() {
            let v = usize::from(*v);
            let k = usize::from(self.hung.edge[v]);
            res[k] = force(cheapest[v], self.tree.lists.charges[k], self.slack);
        }
    }

    // Edge by edge, in res: what its mark says, or for a free edge what was found.
    fn finish(&self, res: &mut [Ruling; MAX_EDGES])
        ensures { Updated (final_at self.now.tree.graph.now.mark (ruling_bytes res.old)) (ruling_bytes res.old) (ruling_bytes res.new)
            self.now.tree.graph.now.m }
    {
        let g = self.tree.graph;
        for (k, mark) in g.mark[..usize::from(g.m)].iter().enumerate() {
            res[k] = ruling_of(*mark, res[k]);
        }
    }
}

// The ruling of every edge into res, 'keep' before, from the least 1-tree, its charges, the labels that required edges give its vertices and
// how far it lies below the ceiling; with lifting or without.
// The length is said, since a caller that lends a field is not told it.
// Ruled out: a required edge swapped out or ruled FORCE; a BAR at a bound that equals the ceiling; without lifting an edge tried under other multipliers.
pub(crate) fn rulings(
    g: &Graph,
    multipliers: &[i32],
    lists: &Lists,
    slack: u64,
    lifting: bool,
    res: &mut [Ruling; MAX_EDGES],
)
    requires spans { Spans g.now lists.now.tree × Merges g.now lists.now.labels × (res.old ≡ all_keep) }
    requires lists { ListsFit g.now lists.now multipliers.now slack }
    ensures { RuledBy lifting g.now multipliers.now lists.now.tree lists.now.charges slack (ruling_bytes res.new) × (length res.new ≡ max_edges) }
{
    let tree = LeastTree { graph: g, lists };
    let mut ends = EndLabels::blank();
    ends.fill(&tree);
    let mut hung = Rooting::blank();
    hung.hang(&tree, &ends);
    let near = Near::of(&tree);
    let judging = Judging {
        tree,
        ends: &ends,
        hung: &hung,
        near,
        slack,
    };
    let mut cheapest = [NONE; VERTEX_PLACES];
    judging.outside(res, &mut cheapest);
    judging.inside(&cheapest, res);
    judging.finish(res);
    if lifting {
        judging.lift(multipliers, res);
    }
}
