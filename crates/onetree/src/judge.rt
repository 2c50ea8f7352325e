// The least 1-tree against a ceiling: whether any is within it, and then the rulings.
ghost use Rattle.std.specs.Prelude.{◌≡◌, ◌≤◌, false, IfOk};
ghost use Rattle.std.specs.Int.Signed.{lt_z};
ghost use Rattle.integers.specs.Range.{InRange};
ghost use Rattle.integers.specs.Multiples.{◌times◌};
ghost use Rattle.graph.specs.Limits.{max_ceiling};
ghost use Rattle.graph.specs.Refusals.{fault_of};
ghost use Rattle.swaps.specs.Slack.{SlackIs};
ghost use Rattle.greedy.specs.Charged.{max_scaled_ceiling, max_slack};
ghost use Rattle.onetree.specs.Answers.{rule_fault};
ghost use Rattle.onetree.specs.Ceiling.{BoundFits, AgainstCeiling};

use crate::PassLists;
use crate::rulings::{Ruling, rulings};
use graph::{Graph, MAX_EDGES, Refusal};
use greedy::{Checked, Denominator, Found, ceiling_fault};

// How far a bound lies below a ceiling, both in units of the multipliers.
fn slack_of(ceiling: i64, bound: i64) -> u64
    requires { InRange max_scaled_ceiling ceiling × BoundFits bound × (lt_z ceiling bound ≡ false) }
    ensures { SlackIs ceiling bound result × (result ≤ max_slack) }
{
    ceiling.abs_diff(bound)
}

// A graph and its multipliers with a denominator and a ceiling, which none of the refusals 15, 11, 12, 13 and 32 meets.
#[derive(Clone, Copy)]
pub(crate) struct Capped<'a> {
    checked: Checked<'a>,
    q: Denominator,
    ceiling: i64,
    ghost range: { InRange max_ceiling ceiling },
}

impl<'a> Capped<'a> {
    // Of a call's input and a list lent for an answer, of length lent: what can be relied on, or the first fault.
    pub(crate) fn new(
        graph: &'a Graph,
        multipliers: &'a [i32],
        ceiling: i64,
        denominator: u64,
        lent: usize,
    ) -> Result<Capped<'a>, Refusal>
        ensures fault { fault_of result ≡ rule_fault graph.now multipliers.now ceiling denominator lent }
        ensures same { IfOk result (λ c. (c.checked.graph.now ≡ graph.now) × (c.checked.multipliers.now ≡ multipliers.now)
            × (c.q.q ≡ denominator) × (c.ceiling ≡ ceiling)) }
    {
        let checked = Checked::new(graph, multipliers, lent)?;
        ceiling_fault(ceiling)?;
        let q = Denominator::new(denominator)?;
        Ok(Capped {
            checked,
            q,
            ceiling,
        })
    }

    // The ceiling in units of the multipliers: q times it (document 02, C-17).
    fn top(&self) -> i64
        ensures { result ≡ self.now.q.q times self.now.ceiling }
    {
        (self.q.q as i64) * self.ceiling
    }

    // One tree, and from it everything: a ruling for each edge and 'keep' past them, 'keep' at every place where no 1-tree is within the ceiling. The rulings
    // are blanked before all else, as `least` does the other lists: the compiler then sees that a caller need not have done it.
    #[inline(always)]
    pub(crate) fn judge(&self, lifting: bool, hint: &[u8], lists: &mut PassLists) -> Option<Found>
        ensures { AgainstCeiling lifting self.now.q.q self.now.checked.graph.now self.now.checked.multipliers.now (self.now.q.q times self.now.ceiling)
            result lists.new }
    {
        lists.rulings = [Ruling::Keep; MAX_EDGES];
        let found = self.checked.least(self.q, hint, &mut lists.least)?;
        let top = self.top();
        if top < found.bound {
            lists.least.forget_tree();
            return None;
        }
        let slack = slack_of(top, found.bound);
        let Checked {
            graph,
            multipliers,
            ..
        } = self.checked;
        rulings(
            graph,
            multipliers,
            &lists.least,
            slack,
            lifting,
            &mut lists.rulings,
        );
        Some(found)
    }
}
