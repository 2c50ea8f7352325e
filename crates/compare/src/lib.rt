// Document 02's C-21: up to 16 pairs of sweeps and step, and the count of nodes with which a search with each finishes. (Its words: hunt for
// search, dues for multipliers, allowance for budget.)
#![tactic(auto)]

ghost use Rattle.std.specs.Prelude.{◌≡◌, leb, length};
ghost use Rattle.std.specs.List.{list_all};
ghost use Rattle.std.specs.Option.{unwrap_or};
ghost use Rattle.graph.specs.Refusals.{fault_of};
ghost use Rattle.machine.specs.Machine.{opening_of};
ghost use Rattle.search.specs.Replies.{means, run_means};
ghost use Rattle.compare.specs.Faults.{sizes_fit};
ghost use Rattle.compare.specs.Comparison.{settings_of, pairs_fit, settings_fit, finished_in, finishes, finishes_with};
ghost use Rattle.compare.specs.Comparison.{counts, compare_fault, compare_reply, compare_leaves};

use graph::{Graph, Refusal};
use machine::Settings;
use node::{MAX_STEP, MAX_SWEEPS};
use search::{Progress, Search};

// As specs/Comparison.antt has it.
pub const MAX_PAIRS: usize = 16;

// What all pairs have alike. The ceiling, the denominator and lifting stand in `Settings` too, since C has both structs.
#[repr(C)]
#[derive(Clone, Copy, Debug, PartialEq, Eq)]
pub struct Terms {
    pub ceiling: i64,
    pub budget: u64,
    pub denominator: u64,
    pub lifting: u64,
}

// Is every number of the list at most the limit?
fn all_at_most(list: &[u32], limit: u32) -> bool
    ensures { result ≡ list_all (λ x. leb x limit) list.now }
{
    list.iter().all(|x| *x <= limit)
}

// The count of a run that finished.
fn count_in(answer: Result<Progress, Refusal>) -> Option<u64>
    ensures { result ≡ finished_in (run_means answer) }
{
    match answer {
        Ok(Progress::Finished(k)) => Some(k),
        _ => None,
    }
}

// What is compared, and how many entries the report has. The pairs are two lists beside each other, and none of pairs, since C lends them so.
#[derive(Clone, Copy)]
struct Comparison<'a> {
    g: &'a Graph,
    multipliers: &'a [i32],
    ashore: &'a [u8],
    terms: Terms,
    sweeps: &'a [u32],
    steps: &'a [u32],
    entries: usize,
}

impl<'a> Comparison<'a> {
    // Are there 1 to 16 pairs, and an entry of the report for each?
    fn pairs_fit(&self) -> bool
        ensures { result ≡ pairs_fit (length self.now.sweeps.now) (length self.now.steps.now) self.now.entries }
    {
        let pairs = self.sweeps.len();
        (1..=MAX_PAIRS).contains(&pairs) && self.steps.len() == pairs && self.entries == pairs
    }

    // And a multiplier for each vertex, and whether it is ashore?
    fn sizes_fit(&self) -> bool
        ensures { result
            ≡ sizes_fit self.now.g.now self.now.multipliers.now self.now.ashore.now self.now.sweeps.now self.now.steps.now self.now.entries }
    {
        let n = usize::from(self.g.n);
        self.multipliers.len() == n && self.ashore.len() == n && self.pairs_fit()
    }

    // Every pair is looked at.
    #[tactic(auto, unfolding(crate::specs::Comparison::settings_fit))]
    fn settings_fit(&self) -> bool
        ensures { result ≡ settings_fit self.now.sweeps.now self.now.steps.now }
    {
        all_at_most(self.sweeps, MAX_SWEEPS) && all_at_most(self.steps, MAX_STEP)
    }

    // The first fault, in document 02's order.
    #[tactic(auto, using(graph::specs::Refusals::positive), unfolding(crate::specs::Comparison::compare_fault))]
    fn fault(&self) -> Result<(), Refusal>
        ensures { fault_of result
            ≡ compare_fault self.now.g.now self.now.multipliers.now self.now.ashore.now self.now.terms
            self.now.sweeps.now self.now.steps.now self.now.entries }
    {
        self.g.fault()?;
        Refusal::Length.unless(self.sizes_fit())?;
        onetree::multipliers_fault(self.multipliers)?;
        onetree::ceiling_fault(self.terms.ceiling)?;
        Refusal::Settings.unless(self.settings_fit())?;
        onetree::denominator_fault(self.terms.denominator)?;
        reduction::ashore_fault(self.ashore, usize::from(self.g.n))
    }

    // One pair: a fresh record, one opening and one run with the whole budget. None where the search is still going on.
    fn count(&self, sweeps: u32, step: u32) -> Option<u64>
        ensures finished { result
            ≡ finishes_with (opening_of self.now.g.now self.now.multipliers.now self.now.ashore.now (settings_of self.now.terms sweeps step))
            self.now.terms.budget }
        ensures reported { unwrap_or result 0
            ≡ finishes (opening_of self.now.g.now self.now.multipliers.now self.now.ashore.now (settings_of self.now.terms sweeps step))
            self.now.terms.budget }
    {
        let settings = Settings {
            ceiling: self.terms.ceiling,
            sweeps,
            step,
            denominator: self.terms.denominator,
            lifting: self.terms.lifting,
        };
        let mut s = Search::fresh();
        // where the opening is refused no search is open, and the run says so
        let _opened = s.open(self.g, self.multipliers, self.ashore, settings);
        count_in(s.run(self.terms.budget))
    }

    // Each pair's count, in the report; 0 where there is none, since C's list has no `Option`. By places, since the library says nothing of what
    // `zip` over `iter_mut` leaves.
    fn count_all(&self, report: &mut [u64])
        requires { (length self.now.steps.now ≡ length self.now.sweeps.now) × (length report.old ≡ length self.now.sweeps.now) }
        ensures { report.new
            ≡ counts self.now.g.now self.now.multipliers.now self.now.ashore.now self.now.terms self.now.sweeps.now self.now.steps.now }
    {
        for (i, (&sweeps, &step)) in self.sweeps.iter().zip(self.steps).enumerate() {
            report[i] = self.count(sweeps, step).unwrap_or(0);
        }
    }
}

// A search for each pair of sweeps and step, each with the whole budget: the count with which it finishes, or 0 if it is still going on.
// Ruled out: a budget or an upper bound handed on from one pair to the next; a count written before a later pair is refused.
pub fn compare(
    g: &Graph,
    multipliers: &[i32],
    ashore: &[u8],
    terms: Terms,
    sweeps: &[u32],
    steps: &[u32],
    report: &mut [u64],
) -> Result<(), Refusal>
    ensures { (means result
        ≡ compare_reply g.now multipliers.now ashore.now terms sweeps.now steps.now (length report.old))
        × (report.new ≡ compare_leaves g.now multipliers.now ashore.now terms sweeps.now steps.now report.old) }
{
    let comparison = Comparison {
        g,
        multipliers,
        ashore,
        terms,
        sweeps,
        steps,
        entries: report.len(),
    };
    comparison.fault()?;
    comparison.count_all(report);
    Ok(())
}
