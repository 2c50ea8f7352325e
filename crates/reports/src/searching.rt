// What program 'hunt' prints.
ghost use Rattle.std.specs.Prelude.{◌≡◌};
ghost use Rattle.search.specs.Replies.{tell_means};
ghost use Rattle.reports.specs.Searching.{plain_opening, last_answer};

use crate::input::Input;
use crate::program::{Program, Text};
use crate::{PLAIN_DENOMINATOR, lines};
use graph::{Refusal, Refused};
use machine::Settings;
use search::{Search, Verdict};

// The budget of the one run.
const BUDGET: u64 = 1_000_000;

// The answer to print, with zero multipliers and none ashore: a refused opening's, or what tell gives after one run.
fn last_answer(input: &Input) -> Result<Verdict, Refusal>
    ensures { tell_means result ≡ last_answer (plain_opening input.now.ceiling input.now.graph) }
{
    let settings = Settings {
        ceiling: input.ceiling,
        sweeps: 0,
        step: 0,
        denominator: PLAIN_DENOMINATOR,
        lifting: 0,
    };
    let mut search = Search::fresh();
    search.open(&input.graph, input.multipliers(), input.ashore(), settings)?;
    // what the run answers, telling says too
    let _ran = search.run(BUDGET);
    search.tell()
}

// Program 'hunt'.
pub struct Hunt;

impl Program for Hunt {
    ghost use Rattle.reports.specs.Searching.{search_text};

    ghost says = { search_text };

    // The line or lines of that answer.
    fn text(input: &Input) -> Result<Text, Refused> {
        let mut text = Text::new();
        match last_answer(input)? {
            Verdict::Searching(count) => {
                text.push_str("going on\n");
                text.push_str(lines::nodes(count).as_str());
            }
            Verdict::NoTour(count) => {
                text.push_str("none\n");
                text.push_str(lines::nodes(count).as_str());
            }
            Verdict::Best { cost, count } => {
                text.push_str(lines::cost(cost).as_str());
                text.push_str(lines::nodes(count).as_str());
            }
        }
        Ok(text)
    }
}
