// Document 01's 'The 1-tree' and 'Rulings'. Our words: multipliers for dues, infeasible for dead. Multipliers and bounds count in parts of a minute, as
// many as the denominator says; ceilings are in minutes (document 02, C-17).
#![tactic(auto)]

ghost use Rattle.std.specs.Prelude.{◌≡◌, false, length};
ghost use Rattle.graph.specs.Valid.{graph_of};
ghost use Rattle.greedy.specs.Least.{blank_lists};
ghost use Rattle.onetree.specs.Answers.{all_keep, ruling_bytes, meaning, pass_meaning, HintAfter, WeighedAfter, tree_reply, tree_leaves};
ghost use Rattle.onetree.specs.Answers.{rule_reply, rule_leaves, pass_tree, pass_rulings};

mod climb;
mod degrees;
mod judge;
mod lifts;
mod picks;
mod rooted;
mod rulings;
mod sides;

pub use degrees::count_degrees;
use graph::{Graph, GraphParts, MAX_EDGES, Refusal};
pub use greedy::{
    Found, Lists, MAX_CEILING, MAX_DENOMINATOR, MAX_MULTIPLIER, ceiling_fault, ceiling_fits,
    denominator_fault, denominator_fits, input_fault, multipliers_fault, multipliers_fit,
};
use judge::Capped;
pub use rulings::{NoRuling, Ruling};

// What a pass is lent: the lists of the least 1-tree, and each edge's ruling.
#[derive(Clone, Copy, Debug, PartialEq, Eq)]
pub struct PassLists {
    pub least: Lists,
    pub rulings: [Ruling; MAX_EDGES],
}

impl PassLists {
    // Ruled out: a byte that is not 0; a ruling that is not 'keep'.
    pub fn blank() -> PassLists
        ensures { result ≡ record { least = blank_lists; rulings = all_keep } }
    {
        PassLists {
            least: Lists::blank(),
            rulings: [Ruling::Keep; MAX_EDGES],
        }
    }
}

// The 1-tree of least bound, or that there is none.
// Ruled out: of two 1-trees of equal bound the one with the higher-numbered edge; 'no tree' with a byte of `out` changed; the bound in minutes.
#[tactic(auto, using(tree_theory::specs::Accepted::no_fault))]
pub fn tree(
    g: &Graph,
    multipliers: &[i32],
    denominator: u64,
    out: &mut [u8],
) -> Result<Option<i64>, Refusal>
    ensures reply { meaning result ≡ tree_reply g.now multipliers.now denominator (length out.old) }
    ensures left { out.new ≡ tree_leaves g.now multipliers.now denominator out.old }
{
    // the refusals' order: 15 before 11, which `least` tells of the multipliers
    if out.len() != usize::from(g.m) {
        g.fault()?;
        return Err(Refusal::Length);
    }
    let mut lists = Lists::blank();
    let Some(found) = greedy::least(g, multipliers, denominator, &[], &mut lists)? else {
        return Ok(None);
    };
    out.copy_from_slice(&lists.tree[..out.len()]);
    Ok(Some(found.bound))
}

// The bound of the least 1-tree, and for each edge whether it can be in or out of a 1-tree within the ceiling; or that none is within it.
// Ruled out: a required edge swapped out on its circle; BAR at a bound equal to the ceiling; FORCE of a required edge; a bound in parts of a minute
// compared with a ceiling in minutes.
#[tactic(auto, using(crate::specs::RuleCall::rule_no_fault))]
pub fn rule(
    g: &Graph,
    multipliers: &[i32],
    ceiling: i64,
    denominator: u64,
    out: &mut [u8],
) -> Result<Option<i64>, Refusal>
    ensures reply { meaning result ≡ rule_reply g.now multipliers.now ceiling denominator (length out.old) }
    ensures left { out.new ≡ rule_leaves g.now multipliers.now ceiling denominator out.old }
{
    let capped = Capped::new(g, multipliers, ceiling, denominator, out.len())?;
    let mut lists = PassLists::blank();
    let Some(found) = capped.judge(false, &[], &mut lists) else {
        return Ok(None);
    };
    rulings::write(&lists.rulings, out);
    Ok(Some(found.bound))
}

// What the tree call and the rule call say, from one tree, for a search that lends the lists: a byte for each edge and 0 past them in the
// tree and the rulings, all 0 where no 1-tree is within the ceiling. lifting: what the ordinary rulings keep is tried under its lifted multipliers
// too (document 02, C-13). hint: an order to start sorting from; whatever it holds, the answers are the same. The order then has such a hint for the
// next pass, in as many bytes as are `live`. Charges and labels are those of the edges and the vertices, whether there is such a 1-tree or not.
// Ruled out: a byte of either list where no 1-tree is within the ceiling, or past the edges; a refusal that changes a byte; with lifting a kept edge
// that its lifted multipliers decide; without it an edge that they alone do.
pub fn pass(
    g: &Graph,
    multipliers: &[i32],
    ceiling: i64,
    denominator: u64,
    lifting: bool,
    hint: &[u8],
    lists: &mut PassLists,
) -> Result<Option<Found>, Refusal>
    ensures reply { pass_meaning result ≡ rule_reply g.now multipliers.now ceiling denominator g.now.m }
    ensures tree { lists.new.least.tree ≡ pass_tree g.now multipliers.now ceiling denominator lists.old.least.tree }
    ensures rulings { ruling_bytes lists.new.rulings ≡ pass_rulings g.now multipliers.now ceiling denominator lifting (ruling_bytes lists.old.rulings) }
    ensures hint { HintAfter result g.now.mark g.now.m lists.old.least.order lists.new.least.order }
    ensures weighed { WeighedAfter denominator g.now multipliers.now lists.old.least result lists.new.least }
{
    let capped = Capped::new(g, multipliers, ceiling, denominator, usize::from(g.m))?;
    Ok(capped.judge(lifting, hint, lists))
}

// What `pass` says without lifting, for code that keeps no `Graph` and no `PassLists`: of a graph's parts, with any n and m, into lists that are lent
// one by one, the rulings as bytes, whatever stood there.
// Ruled out: n or m cut to a byte; a byte of a list changed where there is a fault; rulings by lifting.
pub fn pass_parts(
    parts: &GraphParts<'_>,
    multipliers: &[i32],
    ceiling: i64,
    denominator: u64,
    hint: &[u8],
    tree: &mut [u8; MAX_EDGES],
    rulings: &mut [u8; MAX_EDGES],
    order: &mut [u8; MAX_EDGES],
) -> Result<Option<Found>, Refusal>
    ensures reply { pass_meaning result
        ≡ rule_reply (graph_of parts.now.n parts.now.m parts.now.a.now parts.now.b.now parts.now.cost.now parts.now.mark.now) multipliers.now ceiling
        denominator parts.now.m }
    ensures tree { tree.new
        ≡ pass_tree (graph_of parts.now.n parts.now.m parts.now.a.now parts.now.b.now parts.now.cost.now parts.now.mark.now) multipliers.now ceiling
        denominator tree.old }
    ensures rulings { rulings.new
        ≡ pass_rulings (graph_of parts.now.n parts.now.m parts.now.a.now parts.now.b.now parts.now.cost.now parts.now.mark.now) multipliers.now ceiling
        denominator false rulings.old }
    ensures hint { HintAfter result parts.now.mark.now parts.now.m order.old order.new }
{
    let g = parts.graph()?;
    let mut lists = PassLists::blank();
    let found = pass(
        &g,
        multipliers,
        ceiling,
        denominator,
        false,
        hint,
        &mut lists,
    )?;
    *tree = lists.least.tree;
    rulings::write(&lists.rulings, rulings);
    *order = lists.least.order;
    Ok(found)
}
