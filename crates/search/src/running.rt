// A node of a run: the top one is opened, and what it comes to stands in its place.
ghost use Rattle.std.specs.Prelude.{◌≡◌};
ghost use Rattle.machine.specs.Machine.{Progress, open_top, ran};
ghost use Rattle.search.specs.Record.{progress_of, record_of};
ghost use Rattle.search.specs.ReplyCases.{IsOpen};
ghost use Rattle.search.specs.Runs.ActiveGraph.{GraphIs};
ghost use Rattle.search.specs.Runs.TopNode.{Holds, Top};

use crate::stack::{get, put};
use crate::{MAX_COUNT, Search};
use graph::Graph;
use machine::Settings;
use node::{Fate, Workspace};
use onetree::PassLists;

impl Search {
    // The top node is opened, and what it comes to stands in its place. `afloat` is the graph of the active vertices, or none where the record's own is. The
    // graph's own marks count for nothing here: a node has its own.
    pub(crate) fn open_top(
        &mut self,
        afloat: &Option<Graph>,
        node: &mut Workspace,
        lists: &mut PassLists,
    )
        requires { (s : Progress) × Holds self.old s × Top s × GraphIs s.opening afloat.now }
        ensures { (s : Progress) → Holds self.old s → Top s → GraphIs s.opening afloat.now → self.new ≡ record_of (open_top s s.stack) }
    {
        let p = self.depth as usize - 1;
        let multipliers = get(&self.carried, p);
        let settings = Settings {
            ceiling: self.upper,
            ..self.settings
        };
        node.rows = get(&self.stack, p);
        // No fault comes here: what a search holds fits an opening.
        let g = afloat.as_ref().unwrap_or(&self.graph);
        let fate = node::open(g, &multipliers, settings, node, lists).unwrap();
        put(&mut self.stack, p, &node.rows);
        put(&mut self.carried, p, &node.last);
        self.depth -= 1;
        self.count += 1;
        match fate {
            Fate::Closes => {}
            Fate::Finds => self.keep(&node.tour),
            Fate::Splits => {
                put(&mut self.stack, p + 1, &node.top);
                put(&mut self.carried, p + 1, &node.last);
                self.depth += 2;
            }
        }
    }

    // Nodes are opened while one waits, the count allows it and the budget lasts. Not inlined: a call of run that opens none would blank these arrays too,
    // and have them in its frame. The graph of the active vertices is made once for all nodes, and only where some are inactive.
    #[inline(never)]
    pub(crate) fn advance(&mut self, budget: u64)
        requires { IsOpen self.old }
        ensures { Holds self.new (ran budget (progress_of self.old)) }
    {
        // once for all nodes: each overwrites what the one before left
        let mut node = Workspace::blank();
        let mut lists = PassLists::blank();
        let afloat = self.active_graph();
        for _ in 0..budget {
            if self.depth == 0 || self.count >= MAX_COUNT {
                break;
            }
            self.open_top(&afloat, &mut node, &mut lists);
        }
    }
}
