// An opening: its fault, and the record that it leaves where it has none.
ghost use Rattle.std.specs.Prelude.{◌≡◌, ◌≤◌, true, length, pos};
ghost use Rattle.lists.specs.Fill.{fit};
ghost use Rattle.graph.specs.Limits.{max_vertices, max_edges};
ghost use Rattle.graph.specs.Network.{network};
ghost use Rattle.graph.specs.Refusals.{fault_of};
ghost use Rattle.graph.specs.Valid.{Valid};
ghost use Rattle.afloat.specs.Lists.{reduced_list};
ghost use Rattle.afloat.specs.Over.{ashore, ashore_fits, marks_over};
ghost use Rattle.machine.specs.Machine.{trimmed};
ghost use Rattle.machine.specs.Machine as Machine;
ghost use Rattle.machine.specs.Calls as Calls;
ghost use Rattle.search.specs.Record.{record_of};
ghost use Rattle.mark_rows.specs.MarkRows.{rows_of};
ghost use Rattle.search.specs.Begun.{asked, given_fault};

use crate::vertices::struck_rows;
use crate::{CARRIED_SIZE, STACK_SIZE, Search, stack};
use graph::{Graph, MAX_EDGES, MAX_VERTICES, Refusal, ValidGraph};
use machine::Settings;
use node::NODE_WORDS;
use reduction::Afloat;

// The graph with zero at every place past its edges. Asked of m, and no type: `begin` alone calls it, and knows it of an opening without a fault.
fn trim(g: &mut Graph)
    requires { g.old.m ≤ max_edges }
    ensures { g.new ≡ trimmed g.old }
{
    let m = usize::from(g.m);
    g.a[m..].fill(0);
    g.b[m..].fill(0);
    g.cost[m..].fill(0);
    g.mark[m..].fill(0);
}

// A list of bytes for the vertices in an array's places, zero past them. Asked of its length, as `trim` of m.
fn listed(ashore: &[u8]) -> [u8; MAX_VERTICES]
    requires { length ashore.now ≤ max_vertices }
    ensures { result ≡ fit max_vertices 0 ashore.now }
{
    let mut r = [0; MAX_VERTICES];
    r[..ashore.len()].copy_from_slice(ashore);
    r
}

// The arguments of an opening. The calls `open` here and `add` of the dispatcher take them one by one, as the exported calls do.
#[derive(Clone, Copy)]
pub(crate) struct Opening<'a> {
    pub(crate) g: &'a Graph,
    pub(crate) multipliers: &'a [i32],
    pub(crate) ashore: &'a [u8],
    pub(crate) settings: Settings,
}

impl<'a> Opening<'a> {
    // The first of 15, 11, 12, 13, 14, 32 that applies. No list for an answer is lent: m stands for the length of one.
    pub(crate) fn given_fault(&self) -> Result<(), Refusal>
        ensures { fault_of result ≡ given_fault (asked self.now) }
    {
        reduction::input_fault(self.g, self.multipliers, self.ashore, usize::from(self.g.m))?;
        onetree::ceiling_fault(self.settings.ceiling)?;
        node::settings_fault(self.settings)?;
        onetree::denominator_fault(self.settings.denominator)
    }

    // The first of these and 35 that applies.
    pub(crate) fn fault(&self) -> Result<(), Refusal>
        ensures { fault_of result ≡ Calls.fault (asked self.now) }
    {
        self.given_fault()?;
        reduction::ashore_fault(self.ashore, usize::from(self.g.n))
    }

    // The rows and the multipliers of the first node where some vertex is ashore, of the graph as it is stored. Not inlined: it makes graphs, and their
    // room would stand in the frame of every opening.
    #[inline(never)]
    fn struck_node(&self, graph: &Graph) -> ([u64; NODE_WORDS], [i32; MAX_VERTICES])
        requires valid { Valid graph.now }
        requires fits { ashore_fits self.now.ashore.now graph.now.n ≡ true }
        requires long { length self.now.ashore.now ≡ graph.now.n }
        ensures rows { result.0 ≡ rows_of (marks_over (ashore self.now.ashore.now) (network graph.now)) }
        ensures multipliers { result.1 ≡ fit max_vertices (pos 0) (reduced_list (ashore self.now.ashore.now) graph.now.n self.now.multipliers.now) }
    {
        let afloat = Afloat {
            graph,
            ashore: self.ashore,
        };
        (
            struck_rows(&afloat),
            afloat.active_multipliers(self.multipliers),
        )
    }

    // The record that an accepted one leaves, made where it lies: as a value it took some 800 instructions more, most of them copies of its arrays.
    pub(crate) fn begin(&self, s: &mut Search)
        requires { Calls.fault (asked self.now) ≡ 0 }
        ensures { s.new ≡ record_of (Machine.begin (Machine.held (asked self.now))) }
    {
        *s = Search {
            settings: Settings {
                lifting: u64::from(self.settings.lifting != 0),
                ..self.settings
            },
            upper: self.settings.ceiling,
            count: 0,
            stack: [0; STACK_SIZE],
            depth: 1,
            graph: *self.g,
            multipliers: node::padded(self.multipliers),
            carried: [0; CARRIED_SIZE],
            best: [0; MAX_EDGES],
            ashore: listed(self.ashore),
            open: 1,
            has_best: 0,
        };
        trim(&mut s.graph);
        let first = if s.none_ashore() {
            (node::rows_of(ValidGraph { graph: &s.graph }), s.multipliers)
        } else {
            self.struck_node(&s.graph)
        };
        stack::put(&mut s.stack, 0, &first.0);
        stack::put(&mut s.carried, 0, &first.1);
    }
}
