// The passes of a node. Arrays of an edge's byte have 190 places, zero past m.
ghost use Rattle.std.specs.Prelude.{◌≡◌, ◌↔◌, All, IsTrue, OnErr, ℕ, ◌<◌, ◌≤◌, get_or, pos, ◌+ℤ◌};
ghost use Rattle.lists.specs.Fill.{fit};
ghost use Rattle.lists.specs.Filling.{Filling};
ghost use Rattle.integers.specs.Range.{InRange, clamp};
ghost use Rattle.graph.specs.Valid.{Valid};
ghost use Rattle.graph.specs.Limits.{max_vertices, max_edges, max_multiplier, max_step};
ghost use Rattle.onetree.specs.Answers.{byte_of, ruling_bytes};
ghost use Rattle.node.specs.Marks.{with_bytes, Padded};
ghost use Rattle.node.specs.Opened.{places, taken};
ghost use Rattle.node.specs.Gains.{gain_of, max_gain, GainsTo};
ghost use Rattle.node.specs.Marking.{mark_byte};
ghost use Rattle.node.specs.OnePass.{VerdictIs};
ghost use Rattle.node.specs.Passing.{TreeIs};
ghost use Rattle.node.specs.Refusing.{EndsAs};

use crate::{padded, settings_fault};
use graph::{Graph, MAX_EDGES, MAX_VERTICES, Refusal, VERTEX_PLACES, ValidGraph};
use machine::Settings;
use onetree::{
    Found, MAX_MULTIPLIER, PassLists, Ruling, ceiling_fault, count_degrees, input_fault,
};

// Is every degree 2? A 1-tree is then a tour.
fn two_each(degrees: &[u8]) -> bool
    ensures { IsTrue result ↔ All (λ (d : ℕ). d ≡ 2) degrees.now }
{
    degrees.iter().all(|&degree| degree == 2)
}

// What a vertex of this degree gains.
fn gain(step: u32, degree: u8) -> i32
    requires { step ≤ max_step }
    ensures value { result ≡ gain_of step degree }
    ensures range { InRange max_gain result }
{
    (step as i32) * (i32::from(degree) - 2)
}

// A multiplier with its gain, held to its range. That it is within it is asked, not a type: it lies as a bare i32 in the C interface's array.
fn gained(x: i32, gain: i32) -> i32
    requires multiplier { InRange max_multiplier x }
    requires gain { InRange max_gain gain }
    ensures { result ≡ clamp max_multiplier (x +ℤ gain) }
{
    (x + gain).clamp(-MAX_MULTIPLIER, MAX_MULTIPLIER)
}

// The next multipliers of n vertices: vertex 1 keeps its own. By number, as `apply`.
#[tactic(auto, using(crate::specs::Gains::gains_none, crate::specs::Gains::gains_to))]
fn gains(degrees: &[u8; VERTEX_PLACES], n: usize, step: u32, d: &mut [i32; MAX_VERTICES])
    requires some { 1 ≤ n }
    requires few { n ≤ max_vertices }
    requires step { step ≤ max_step }
    requires ranged { (i : ℕ) → i < n → InRange max_multiplier (get_or d.old i (pos 0)) }
    ensures { GainsTo n step degrees.now d.old d.new }
{
    for v in 1..n {
        d[v] = gained(d[v], gain(step, degrees[v + 1]));
    }
}

// The mark of an edge once its ruling is applied: keep, force and bar have the numbers of free, required and excluded, and what an edge was
// before has its mark's number two higher. By the numbers, many edges at a time: a match takes four times as many instructions for 190 edges.
fn mark_by(ruling: Ruling) -> u8
    ensures { result ≡ mark_byte (byte_of ruling) }
{
    let byte = u8::from(ruling);
    if byte > Ruling::Bar as u8 {
        byte - Ruling::Bar as u8
    } else {
        byte
    }
}

// The marks of the edges, once the rulings are applied; zero past them before and after. By number: `iter_mut` with `zip` was tried, and after such
// a loop nothing is known of the marks; with `enumerate` the rulings are still read by number, and the invariant names a part of the marks, as at
// greedy's `charge_each`; `rulings.map(mark_by)` takes 4,550 instructions, as it moves one ruling at a time, where a whole pass
// of 8 vertices takes 6,970. `padded`, here and in `judge` and `open_left`, is no ghost field of a struct around the graph: each write of a mark
// would have to show it again, and the tree part takes a graph; `marks_alone` says what a call changes, which no field can. Nor is the graph a
// `ValidGraph` here, which is lent for reading.
fn apply(rulings: &[Ruling; MAX_EDGES], g: &mut Graph)
    requires valid { Valid g.old }
    requires padded { Padded g.old.m g.old.mark }
    ensures marks { Filling 0 max_edges g.old.m (λ k. mark_byte (get_or (ruling_bytes rulings.now) k 0)) g.new.mark }
    ensures marks_alone { g.new ≡ with_bytes g.old g.new.mark }
{
    for k in 0..usize::from(g.m) {
        g.mark[k] = mark_by(rulings[k]);
    }
}

// The least 1-tree within the ceiling, and its rulings, or that there is none: one call of the tree part, which refuses a graph of more vertices
// than there are places. It lifts where the settings say anything but 0. The hint is for the tree part alone. The settings' fault stands before
// the denominator's, and is told before a pass is made, which would fill the lists.
fn ask(
    g: &Graph,
    d: &[i32; MAX_VERTICES],
    settings: Settings,
    hint: &[u8],
    lists: &mut PassLists,
) -> Result<Option<Found>, Refusal>
    ensures tree { TreeIs (taken g.now d.now settings) result lists.new.least.tree (ruling_bytes lists.new.rulings) }
    ensures lists { OnErr result (lists.new ≡ lists.old) }
{
    let multipliers = &d[..usize::from(g.n).min(MAX_VERTICES)];
    if let Err(late) = settings_fault(settings) {
        input_fault(g, multipliers, usize::from(g.m))?;
        ceiling_fault(settings.ceiling)?;
        return Err(late);
    }
    onetree::pass(
        g,
        multipliers,
        settings.ceiling,
        settings.denominator,
        settings.lifting != 0,
        hint,
        lists,
    )
}

// What a pass makes of a node: it is shut; a tour is found; or the rulings are applied, a hint for the next pass is so long, and the tree has
// these degrees.
#[derive(Clone, Copy)]
pub(crate) enum Verdict {
    Shut,
    Found,
    Ruled {
        live: usize,
        degrees: [u8; VERTEX_PLACES],
    },
}

// One pass on the graph's marks, which then are the tour or the marks after the rulings. Graph, multipliers and settings are no struct: the marks
// are written, the multipliers read, the settings copied, and a contract about a struct of them would have to say of each what it keeps.
fn judge(
    g: &mut Graph,
    d: &[i32; MAX_VERTICES],
    settings: Settings,
    hint: &[u8],
    lists: &mut PassLists,
) -> Result<Verdict, Refusal>
    requires { Padded g.old.m g.old.mark }
    ensures verdict { VerdictIs (taken g.old d.now settings) result g.new.mark }
    ensures marks_alone { g.new ≡ with_bytes g.old g.new.mark }
    ensures lists { OnErr result (lists.new ≡ lists.old) }
{
    let Some(found) = ask(g, d, settings, hint, lists)? else {
        return Ok(Verdict::Shut);
    };
    let degrees = count_degrees(&ValidGraph { graph: g }, &lists.least.tree);
    if two_each(&degrees[1..=usize::from(g.n)]) {
        g.mark = lists.least.tree;
        return Ok(Verdict::Found);
    }
    apply(&lists.rulings, g);
    Ok(Verdict::Ruled {
        live: found.live,
        degrees,
    })
}

// What the passes of a node come to: it is shut; a tour is found; or it is unclosed after the last of them. One enum for how a pass and all of them
// end was proved, with the tour read where the lists have it: with these and two smaller changes a node of 20 vertices takes 218 instructions more, of 44,772.
#[derive(Clone, Copy)]
pub(crate) enum Ending {
    Shut,
    Found,
    Unclosed,
}

// The passes of the node with the graph's marks, on all edges given: 0 to `sweeps`, from the node's multipliers on. Then the graph's marks are
// the tour that is found, or the marks after the last pass, of which `last` gets the multipliers. The hint is the tree part's order, and
// `live`, how much of it counts: as an `ArrayVec` it takes 165 instructions more, of 43,400, a node of 8 vertices and 5 sweeps, in zeroing alone.
pub(crate) fn open_left(
    g: &mut Graph,
    multipliers: &[i32; MAX_VERTICES],
    settings: Settings,
    last: &mut [i32; MAX_VERTICES],
    lists: &mut PassLists,
) -> Result<Ending, Refusal>
    requires { Padded g.old.m g.old.mark }
    ensures ending { EndsAs (taken g.old multipliers.now settings) result g.new.mark last.old last.new }
    ensures marks_alone { g.new ≡ with_bytes g.old g.new.mark }
    ensures lists { OnErr result (lists.new ≡ lists.old) }
{
    let n = usize::from(g.n).min(MAX_VERTICES);
    let mut d = *multipliers;
    let mut hint = [0u8; MAX_EDGES];
    let mut live = 0;
    for left in (0..=settings.sweeps).rev() {
        match judge(g, &d, settings, &hint[..live], lists)? {
            Verdict::Shut => return Ok(Ending::Shut),
            Verdict::Found => return Ok(Ending::Found),
            Verdict::Ruled {
                live: next,
                degrees,
            } => {
                if left > 0 {
                    gains(&degrees, n, settings.step, &mut d);
                    hint = lists.least.order;
                    live = next;
                }
            }
        }
    }
    *last = padded(&d[..n]);
    Ok(Ending::Unclosed)
}
