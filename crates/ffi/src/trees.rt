// The tree call, the preview and the rule call: 0 and the bound as the value, in parts of a minute by the denominator; or 1,000, 'no tree' or 'dead'; or a
// refusal.
ghost use Rattle.std.specs.Prelude.{◌≡◌, length};
ghost use Rattle.reduction.specs.Answers.{tree_reply_over, tree_leaves_over, rule_reply_over, rule_leaves_over};
ghost use Rattle.preview.specs.Preview.{preview_reply, preview_leaves};
ghost use Rattle.ffi.specs.Answers.{said_reply};

use crate::{Outcome, Reply};
use graph::Graph;

// Ruled out: a bound beside the number of 'no tree'; that number beside a bound of 0.
impl From<Option<i64>> for Reply {
    ghost use Rattle.std.specs.Prelude.{◌≡◌};
    ghost use Rattle.ffi.specs.Answers.{said_bound};

    ghost from_gives = { λ bound said. said ≡ said_bound bound };

    fn from(bound: Option<i64>) -> Reply {
        match bound {
            Some(value) => Reply {
                value,
                ..Reply::default()
            },
            None => Outcome::Nothing.into(),
        }
    }
}

// Ruled out: a bound with 'no tree'; 0 for another 1-tree than the least.
#[unsafe(no_mangle)]
pub extern "C" fn planner_tree(
    g: Graph,
    multipliers: &[i32],
    ashore: &[u8],
    denominator: u64,
    out: &mut [u8],
) -> Reply
    ensures { (result ≡ said_reply (tree_reply_over g multipliers.now ashore.now denominator (length out.old)))
        × (out.new ≡ tree_leaves_over g multipliers.now ashore.now denominator out.old) }
{
    Reply::from(reduction::tree(&g, multipliers, ashore, denominator, out))
}

// Ruled out: the edge's mark left as it is; an answer for an edge that is not free.
#[unsafe(no_mangle)]
pub extern "C" fn planner_preview(
    g: Graph,
    multipliers: &[i32],
    ashore: &[u8],
    denominator: u64,
    edge: usize,
    mark: u32,
    out: &mut [u8],
) -> Reply
    ensures { (result ≡ said_reply (preview_reply g multipliers.now ashore.now denominator edge mark (length out.old)))
        × (out.new ≡ preview_leaves g multipliers.now ashore.now denominator edge mark out.old) }
{
    Reply::from(preview::preview(&g, multipliers, ashore, denominator, edge, mark, out))
}

// Ruled out: a ruling written where no 1-tree is within the ceiling; 0 for a ceiling out of range.
#[unsafe(no_mangle)]
pub extern "C" fn planner_rule(
    g: Graph,
    multipliers: &[i32],
    ashore: &[u8],
    ceiling: i64,
    denominator: u64,
    out: &mut [u8],
) -> Reply
    ensures { (result ≡ said_reply (rule_reply_over g multipliers.now ashore.now ceiling denominator (length out.old)))
        × (out.new ≡ rule_leaves_over g multipliers.now ashore.now ceiling denominator out.old) }
{
    Reply::from(reduction::rule(&g, multipliers, ashore, ceiling, denominator, out))
}
