// The vertices that are active: how many, the graph of those alone, and a node that excludes what touches the others.
ghost use Rattle.std.specs.Prelude.{◌≡◌};
ghost use Rattle.lists.specs.Bools.{Says};
ghost use Rattle.graph.specs.Network.{network};
ghost use Rattle.afloat.specs.Over.{ashore, marks_over};
ghost use Rattle.machine.specs.Calls.{fault};
ghost use Rattle.mark_rows.specs.MarkRows.{rows_of};
ghost use Rattle.search.specs.Record.{opening_in, active_in};
ghost use Rattle.search.specs.Canonical.{NoneAshore};
ghost use Rattle.search.specs.Runs.ActiveGraph.{GraphIs};

use crate::Search;
use crate::record::zero_from;
use graph::{Graph, ValidGraph};
use node::NODE_WORDS;
use reduction::Afloat;

// The words of the graph's marks, where an edge that touches a vertex ashore counts as excluded.
pub(crate) fn struck_rows(afloat: &Afloat) -> [u64; NODE_WORDS]
    ensures { result ≡ rows_of (marks_over (ashore afloat.now.ashore.now) (network afloat.now.graph.now)) }
{
    let moved = afloat.reduced();
    let mark = moved.mark;
    let struck = Graph {
        mark,
        ..*afloat.graph
    };
    node::rows_of(ValidGraph { graph: &struck })
}

impl Search {
    // Is no vertex inactive, as mostly? A record's check asks this once, and hands the answer on.
    pub(crate) fn none_ashore(&self) -> bool
        ensures { Says result (NoneAshore self.now) }
    {
        zero_from(&self.ashore, 0)
    }

    // How many vertices are active.
    pub(crate) fn active(&self, none: bool) -> usize
        requires { Says none (NoneAshore self.now) }
        ensures { result ≡ active_in self.now }
    {
        let n = usize::from(self.graph.n);
        if none {
            return n;
        }
        reduction::active(&self.ashore, n)
    }

    // The graph of the active vertices, on which nodes are opened; none where no vertex is inactive, and the record's own serves.
    pub(crate) fn active_graph(&self) -> Option<Graph>
        requires { fault (opening_in self.now) ≡ 0 }
        ensures { GraphIs (opening_in self.now) result }
    {
        if self.none_ashore() {
            return None;
        }
        let n = usize::from(self.graph.n);
        let afloat = Afloat {
            graph: &self.graph,
            ashore: &self.ashore[..n],
        };
        Some(afloat.reduced())
    }
}
