// Recent costs: a lent graph gets the costs that a log makes (document 02, C-22).
ghost use Rattle.ffi.specs.Answers.{RecentFills};

use crate::Reply;
use graph::Graph;

// Ruled out: a cost changed by a refusal; a place counted from 0; a mark, or a place past m, changed.
#[tactic(auto, unfolding(recent::specs::Answers::meaning))]
#[unsafe(no_mangle)]
pub extern "C" fn planner_recent(g: &mut Graph, w: usize, edges: &[usize], times: &[i32]) -> Reply
    ensures { RecentFills g.old w edges.now times.now result g.new }
{
    Reply::from(recent::update(g, w, edges, times))
}
