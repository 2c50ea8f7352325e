// A call's graph and multipliers, tested once: what every step of a pass may rely on.
ghost use Rattle.std.specs.Prelude.{◌≡◌, length, IfOk};
ghost use Rattle.graph.specs.Refusals.{fault_of};
ghost use Rattle.graph.specs.Valid.{Valid};
ghost use Rattle.tree_theory.specs.Inputs.{input_fault};
ghost use Rattle.tree_theory.specs.Multipliers.{Ranged};

use crate::charges::ChargedGraph;
use crate::order::{self, Meeting};
use crate::refusals::input_fault;
use crate::{Denominator, Found, Lists, Outcome};
use graph::{Graph, Refusal};

// A graph and its multipliers, lent, which the refusals 15, 11 and 12 do not meet. No `ValidGraph`, here nor in `ChargedGraph` or onetree's `LeastTree`: each
// contract would say `graph.graph.now` for `graph.now`. Calls are lent the graph, the multipliers and the denominator one by one, as C has them.
#[derive(Clone, Copy)]
pub struct Checked<'a> {
    pub graph: &'a Graph,
    pub multipliers: &'a [i32],
    pub ghost valid: { Valid graph.now },
    pub ghost ranged: { Ranged multipliers.now },
    pub ghost size: { length multipliers.now ≡ graph.now.n },
}

impl<'a> Checked<'a> {
    // Of a graph, its multipliers and a list lent for an answer, of length lent: what can be relied on, or their first fault.
    // Ruled out: another graph or other multipliers than those given; 12 where a list is of wrong length.
    #[tactic(auto, using(tree_theory::specs::Accepted::no_fault))]
    pub fn new(
        graph: &'a Graph,
        multipliers: &'a [i32],
        lent: usize,
    ) -> Result<Checked<'a>, Refusal>
        ensures fault { fault_of result ≡ input_fault graph.now multipliers.now lent 0 }
        ensures same { IfOk result (λ c. (c.graph.now ≡ graph.now) × (c.multipliers.now ≡ multipliers.now)) }
    {
        input_fault(graph, multipliers, lent)?;
        Ok(Checked { graph, multipliers })
    }

    ghost use Rattle.graph.specs.Network.{network};
    ghost use Rattle.tree_theory.specs.Inputs.{multiplier};
    ghost use Rattle.tree_theory.specs.Looked.{Looked};
    ghost use Rattle.tree_theory.specs.Scaled.{scaled_by};
    ghost use Rattle.greedy.specs.Least.{blank_lists, Finds, Searched};

    // The least 1-tree, one byte an edge, the order in which edges were looked at, the charges, and the labels that required edges give the vertices, into
    // lists that are zero before.
    fn find(&self, q: Denominator, hint: &[u8], lists: &mut Lists) -> Outcome
        requires { lists.old ≡ blank_lists }
        ensures { Searched q.q self.now.graph.now self.now.multipliers.now result.found lists.new
            × Looked (scaled_by q.q (network self.now.graph.now)) (multiplier self.now.multipliers.now) result.looked }
    {
        // before all else: behind a loop the compiler writes its zeros twice
        let mut meeting = Meeting::none();
        self.charge(q, &mut lists.charges);
        let charged = ChargedGraph {
            graph: self.graph,
            charges: &lists.charges,
        };
        let front = charged.order(hint, &mut meeting);
        let chosen = charged.choose(
            meeting.keys.as_mut_slice(),
            front,
            &mut lists.tree,
            &mut lists.labels,
        );
        let keys = meeting.keys.as_slice();
        order::places(keys, &mut lists.order);
        let looked = chosen.looked;
        // no `map`: the contract that is inferred for its closure tells nothing of the bound (tried), and clauses of its own are longer than this `else`
        let Some(sum) = chosen.sum else {
            return Outcome {
                found: None,
                looked,
            };
        };
        let found = Found {
            bound: self.bound(sum),
            live: keys.len(),
        };
        Outcome {
            found: Some(found),
            looked,
        }
    }

    // The least 1-tree by the greedy choice, from any hint, or that there is none. All lists are blanked before all else: the compiler then sees that a
    // caller need not have done it. What was written of a tree that is none is wiped out.
    // Ruled out: of two 1-trees of equal bound the one with the higher-numbered edge; a byte of a tree that is none left standing; a hint that says how
    // many it lists and is wiped out.
    #[inline(always)]
    pub fn least(&self, q: Denominator, hint: &[u8], lists: &mut Lists) -> Option<Found>
        ensures { Finds q.q self.now.graph.now self.now.multipliers.now result lists.new }
    {
        *lists = Lists::blank();
        let found = self.find(q, hint, lists).found;
        if found.is_none() {
            lists.forget_tree();
        }
        found
    }
}
