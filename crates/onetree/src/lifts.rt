// Lifting (document 02, C-13): each edge that the ordinary rulings keep is tried under its lifted multipliers, which move its two ends. Nothing is worked out
// anew under them: what the best changes of the pass's own tree cost says how far an end moves, and what is then decided.
ghost use Rattle.std.specs.Prelude.{◌≡◌, true, false, ◌*◌, ◌<◌, ◌≤◌, get_or};
ghost use Rattle.integers.specs.Range.{InRange};
ghost use Rattle.graph.specs.Limits.{max_edges, max_multiplier};
ghost use Rattle.graph.specs.Valid.{Valid};
ghost use Rattle.tree_theory.specs.Inputs.{multiplier};
ghost use Rattle.greedy.specs.Charged.{no_charge, max_slack};
ghost use Rattle.lists.specs.FilledFrom.{Updated};
ghost use Rattle.lifting.specs.Found.{move_of};
ghost use Rattle.lifting.specs.Verdict.{still_of, end_move, room_of, decides};
ghost use Rattle.onetree.specs.Answers.{ruling_bytes, byte_of};
ghost use Rattle.onetree.specs.ReadyToJudge.{ReadyToJudge};
ghost use Rattle.onetree.specs.Ruled.{ListsFit, RuledBy};
ghost use Rattle.onetree.specs.Lifts.{shift_by, tried_by, lifted_byte, lifted_at, Fitting};

use crate::degrees::count_degrees;
use crate::picks::{Circles, Pick, Swapping, cost, is_end, list_sides};
use crate::rooted::LeastTree;
use crate::rulings::{Judging, NONE, Ruling};
use crate::sides::Sides;
use arrayvec::ArrayVec;
use graph::{MAX_EDGES, VERTEX_PLACES, ValidGraph};
use greedy::MAX_MULTIPLIER;

// How far a multiplier is from the end of its range: in the tree it falls, outside it rises.
fn room(inside: bool, multiplier: i32) -> u64
    requires { InRange max_multiplier multiplier }
    ensures { (result ≡ room_of inside multiplier) × (result ≤ 2 * max_multiplier) }
{
    if inside {
        (multiplier + MAX_MULTIPLIER) as u64
    } else {
        (MAX_MULTIPLIER - multiplier) as u64
    }
}

// How far an end moves, where it does: to the end of its range, unless the least cost at it is less, or, where the other end is not vertex 1, what the
// best at it is short of the best.
#[tactic(auto, unfolding(lifting::specs::Found::move_of, lifting::specs::Folds::less))]
fn limited(j: u8, room: u64, low: u64, top: u64, at: u64) -> u64
    ensures { (result ≡ move_of j room low top at) × (result ≤ room) }
{
    let short = if j == 1 || at == 0 {
        room
    } else {
        top.saturating_sub(at)
    };
    room.min(low).min(short)
}

// Whether an end stays: vertex 1, an end of the edge that changes places, or one of a degree that would not gain by it.
#[tactic(auto, unfolding(lifting::specs::Verdict::still_of))]
fn stays(inside: bool, i: u8, touching: bool, degree: u8) -> bool
    ensures { result ≡ still_of inside i touching degree }
{
    i == 1 || touching || if inside { degree > 2 } else { degree < 2 }
}

// What the two ends' moves, x at degree da and y at degree db, leave: more than the slack, so that the edge is decided?
#[tactic(auto, unfolding(lifting::specs::Verdict::decides))]
fn decided(inside: bool, slack: u64, cost: u64, x: u64, da: u8, y: u64, db: u8) -> bool
    requires { (slack ≤ max_slack) × (cost ≤ no_charge) × (x ≤ 2 * max_multiplier) × (y ≤ 2 * max_multiplier) }
    ensures { result ≡ decides inside slack cost x da y db }
{
    let ends = x * u64::from(da) + y * u64::from(db);
    if inside {
        slack + ends < cost + (3 * x + 3 * y)
    } else {
        slack + (x + y) < cost + ends
    }
}

// What kept edges are tried by: the graph, its multipliers and the slack of the pass; each edge's best to change places with, the vertices' degrees in the
// tree, and at each vertex the least replacement cost (`rise`) and the least reduced cost (`fall`).
#[derive(Clone, Copy)]
pub(crate) struct Lifting<'a> {
    pub tree: LeastTree<'a>,
    pub multipliers: &'a [i32],
    pub slack: u64,
    pub picks: &'a [Pick; MAX_EDGES],
    pub degrees: &'a [u8; VERTEX_PLACES],
    pub rise: &'a [u64; VERTEX_PLACES],
    pub fall: &'a [u64; VERTEX_PLACES],
}

impl Lifting<'_> {
    // How far the end i moves of an edge with this best; j is its other end, and at the best key at i.
    fn shift(&self, inside: bool, i: u8, j: u8, pick: Pick, at: u64) -> u64
        requires { Fitting self.now × (1 ≤ i) × (i ≤ self.now.tree.graph.now.n) × (pick.place < max_edges) }
        ensures { (result ≡ shift_by self.now inside i j pick at) × (result ≤ 2 * max_multiplier) }
    {
        let v = usize::from(i);
        let touching = is_end(self.tree.graph, i, pick.place);
        if stays(inside, i, touching, self.degrees[v]) {
            return 0;
        }
        let lows = if inside { self.fall } else { self.rise };
        let room = room(inside, self.multipliers[v - 1]);
        limited(j, room, lows[v], pick.top, at)
    }

    // Whether the edge at place k is decided under its lifted multipliers: barred, or in the tree forced.
    // Ruled out: yes where the sum equals the slack; end b moved by what end a's move left.
    fn decides(&self, inside: bool, k: usize) -> bool
        requires { (k < self.now.tree.graph.now.m) × Fitting self.now }
        ensures { result ≡ tried_by self.now inside k }
    {
        let g = self.tree.graph;
        let (a, b) = (g.a[k], g.b[k]);
        let pick = self.picks[k];
        let x = self.shift(inside, a, b, pick, pick.at_a);
        let y = self.shift(inside, b, a, pick, pick.at_b);
        let cost = cost(inside, self.tree.lists.charges[k], pick.top);
        let (da, db) = (self.degrees[usize::from(a)], self.degrees[usize::from(b)]);
        decided(inside, self.slack, cost, x, da, y, db)
    }

    // What becomes of the edge at place k, which the ordinary pass keeps.
    fn lifted(&self, k: usize) -> Ruling
        requires { (k < self.now.tree.graph.now.m) × Fitting self.now }
        ensures { byte_of result ≡ lifted_byte self.now k }
    {
        let inside = self.tree.lists.tree[k] == 1;
        if !self.decides(inside, k) {
            Ruling::Keep
        } else if inside {
            Ruling::Force
        } else {
            Ruling::Bar
        }
    }

    // Its ruling, from the ordinary one: only what that keeps is tried.
    fn tried(&self, k: usize, old: Ruling) -> Ruling
        requires { (k < self.now.tree.graph.now.m) × Fitting self.now }
        ensures { byte_of result ≡ lifted_at self.now (byte_of old) k }
    {
        match old {
            Ruling::Keep => self.lifted(k),
            _ => old,
        }
    }

    // Every edge, in res. By place: `tried` reads the tree, the charges and the picks there.
    pub(crate) fn try_each(&self, res: &mut [Ruling; MAX_EDGES])
        requires { Fitting self.now }
        ensures { Updated (λ k. lifted_at self.now (get_or (ruling_bytes res.old) k 0) k) (ruling_bytes res.old) (ruling_bytes res.new) self.now.tree.graph.now.m }
    {
        for k in 0..usize::from(self.tree.graph.m) {
            res[k] = self.tried(k, res[k]);
        }
    }
}

impl Judging<'_> {
    // The ordinary rulings in res become those with lifting. A call of its own: inlined, a pass that does not lift would have its arrays in its frame.
    #[inline(never)]
    pub(crate) fn lift(&self, multipliers: &[i32], res: &mut [Ruling; MAX_EDGES])
        requires ready { ReadyToJudge self.now }
        requires lists { ListsFit self.now.tree.graph.now self.now.tree.lists.now multipliers.now self.now.slack }
        requires ruled { RuledBy false self.now.tree.graph.now multipliers.now self.now.tree.lists.now.tree self.now.tree.lists.now.charges self.now.slack
            (ruling_bytes res.old) }
        ensures { RuledBy true self.now.tree.graph.now multipliers.now self.now.tree.lists.now.tree self.now.tree.lists.now.charges self.now.slack
            (ruling_bytes res.new) }
    {
        let tree = self.tree;
        let swapping = Swapping {
            tree,
            ends: self.ends,
            hung: self.hung,
        };
        let mut ins = ArrayVec::new();
        let mut outs = ArrayVec::new();
        list_sides(&tree, &mut ins, &mut outs);
        let mut sides = Sides::blank();
        sides.fill(&swapping, ins.as_slice());
        let circles = Circles {
            swapping,
            ins: ins.as_slice(),
            sides: &sides,
        };
        let mut picks = [Pick::none(); MAX_EDGES];
        let mut bests = [Pick::none(); VERTEX_PLACES];
        let mut fall = [NONE; VERTEX_PLACES];
        circles.pick_outside(outs.as_slice(), &mut bests, &mut picks, &mut fall);
        let mut rise = [NONE; VERTEX_PLACES];
        circles.pick_inside(&bests, &mut picks, &mut rise);
        let degrees = count_degrees(&ValidGraph { graph: tree.graph }, &tree.lists.tree);
        let lifting = Lifting {
            tree,
            multipliers,
            slack: self.slack,
            picks: &picks,
            degrees: &degrees,
            rise: &rise,
            fall: &fall,
        };
        lifting.try_each(res);
    }
}
