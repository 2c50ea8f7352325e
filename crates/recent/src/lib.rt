// Document 02's C-22: costs from the last times of a log. (Its words: leg for edge, chart for graph, the season's log.)
#![tactic(auto)]

ghost use Rattle.std.specs.Prelude.{◌≡◌, ◌<◌, ◌≤◌, ◌≤ℤ◌, IfOk, length};
ghost use Rattle.std.specs.List.{All, Contains};
ghost use Rattle.graph.specs.Refusals.{fault_of};
ghost use Rattle.recent.specs.Costs.{log_of};
ghost use Rattle.recent.specs.Answers.{max_window, window_fault, meaning, first_fault, recent_reply, recent_leaves};
ghost use Rattle.recent.specs.Windows.{stored, held, unused, window_of, entry_of, entry_place, CanEnter, entered_at, Replayed};

use graph::{Graph, MAX_EDGES, Refusal, Refused, ValidGraph, cost_ok};

// As specs/Answers.antt has it.
pub const MAX_WINDOW: usize = 32;

// How many of an edge's last times count, w.
#[derive(Clone, Copy)]
struct Width {
    places: usize,
    ghost fits: { (1 ≤ places) × (places ≤ max_window) },
}

impl Width {
    // Refusal 38 where it is out of range.
    fn new(w: usize) -> Result<Width, Refusal>
        ensures fault { fault_of result ≡ window_fault w }
        ensures same { IfOk result (λ x. x.places ≡ w) }
    {
        Refusal::Window.unless((1..=MAX_WINDOW).contains(&w))?;
        Ok(Width { places: w })
    }
}

// The last times of one edge, of which the place of the oldest is `next`. No queue of the kit's: circular_buffer takes memory; an ArrayVec would be
// written in two ways, by `push` until w times are held and by `as_mut_slice` from then on, where this is one store.
#[derive(Clone, Copy)]
struct Ring {
    times: [i32; MAX_WINDOW],
    next: usize,
    held: usize,
}

impl Ring {
    // One time more, in the place of the oldest of w, which stands beside the ring, since all rings have one. The place is counted on: the remainder by w
    // of a count would be a division an entry.
    #[tactic(auto, unfolding(crate::specs::Windows::stored))]
    fn enter(&mut self, w: Width, time: i32)
        requires { (self.old.next < w.places) × (self.old.held ≤ w.places) }
        ensures { self.new ≡ stored w.places self.old time }
    {
        let place = self.next;
        self.next = if place + 1 < w.places { place + 1 } else { 0 };
        self.held = (self.held + 1).min(w.places);
        self.times[place] = time;
    }

    // The greatest of the times that it holds, of which there are some.
    #[tactic(auto, unfolding(crate::specs::Windows::held))]
    fn greatest(&self) -> i32
        requires { (1 ≤ self.now.held) × (self.now.held ≤ max_window) }
        ensures member { Contains (held self.now) result }
        ensures most { All (λ x. x ≤ℤ result) (held self.now) }
    {
        self.times[..self.held].iter().copied().max().unwrap()
    }
}

// The place of the edge that the entry names; none where it names no edge, 1 to m, or a time outside the cost range.
#[tactic(auto, unfolding(crate::specs::Answers::entry_ok, crate::specs::Windows::entry_place, graph::specs::Numbered::edge_place))]
fn entry_place(g: &Graph, edge: usize, time: i32) -> Option<usize>
    ensures { result ≡ entry_place g.now.m (entry_of edge time) }
{
    if !cost_ok(time) {
        return None;
    }
    g.place(edge)
}

// One entry, of the edge at place k: its time goes into the ring, and the cost is then the greatest in it.
fn enter(w: Width, k: usize, time: i32, rings: &mut [Ring; MAX_EDGES], costs: &mut [i32; MAX_EDGES])
    requires { CanEnter w.places k (window_of rings.old costs.old) }
    ensures { window_of rings.new costs.new ≡ entered_at w.places (window_of rings.old costs.old) k time }
{
    rings[k].enter(w, time);
    costs[k] = rings[k].greatest();
}

// The log, entry by entry; after each the costs are those of the log so far. It stops at an entry that is refused, with its place from 1. The costs
// are an array of their own: the graph takes it whole. No struct of both, which is copied once it is made: ten entries take 60,022 instructions for 32,608.
fn replay(
    w: Width,
    g: &ValidGraph,
    edges: &[usize],
    times: &[i32],
    rings: &mut [Ring; MAX_EDGES],
    costs: &mut [i32; MAX_EDGES],
) -> Result<(), Refused>
    requires { (length edges.now ≡ length times.now) × (window_of rings.old costs.old ≡ unused costs.old) }
    ensures { Replayed w.places g.now.graph.now.m costs.old (log_of edges.now times.now) (meaning result) costs.new }
{
    for (i, (&edge, &time)) in edges.iter().zip(times).enumerate() {
        let Some(place) = entry_place(g.graph, edge, time) else {
            return Err(Refusal::LogEntry.at(i as u64 + 1));
        };
        enter(w, place, time, rings, costs);
    }
    Ok(())
}

// The graph as a valid one and the width, of a log of so many edges and so many times; or what is refused before the log is read.
#[tactic(auto, unfolding(crate::specs::Answers::first_fault))]
fn asked(
    g: &Graph,
    w: usize,
    edge_count: usize,
    time_count: usize,
) -> Result<(ValidGraph<'_>, Width), Refusal>
    ensures fault { fault_of result ≡ first_fault g.now w edge_count time_count }
    ensures same { IfOk result (λ x. (x.0.graph.now ≡ g.now) × (x.1.places ≡ w)) }
{
    let valid = g.valid()?;
    Refusal::Length.unless(edge_count == time_count)?;
    Ok((valid, Width::new(w)?))
}

// The graph with each edge's cost the greatest of its last w times in the log, or its own cost where it has none; refused, it is as it was.
// The log is two lists, since C lends it so.
// Ruled out: a window that begins with 0 or with the graph's cost; a cost changed by a log that is refused; a place counted from 0.
pub fn update(g: &mut Graph, w: usize, edges: &[usize], times: &[i32]) -> Result<(), Refused>
    ensures { (meaning result ≡ recent_reply g.old w edges.now times.now)
        × (g.new ≡ recent_leaves g.old w edges.now times.now) }
{
    let (valid, w) = asked(g, w, edges.len(), times.len())?;
    let mut rings = [Ring {
        times: [0; MAX_WINDOW],
        next: 0,
        held: 0,
    }; MAX_EDGES];
    let mut costs = g.cost;
    replay(w, &valid, edges, times, &mut rings, &mut costs)?;
    g.cost = costs;
    Ok(())
}
