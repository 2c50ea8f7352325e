// What program 'rulings' prints.
ghost use Rattle.std.specs.Prelude.{◌≡◌, ◌++◌, ◌+◌, ◌*◌, ◌≤◌, length};
ghost use Rattle.arrayvec.specs.ArrayString.{array_string_len};
ghost use Rattle.onetree.specs.Answers.{byte_of};
ghost use Rattle.reports.specs.Rulings.{edge_lines};
ghost use Rattle.reports.specs.Text.{ruling_word};

use crate::input::Input;
use crate::lines::LINE_SIZE;
use crate::program::{Program, Text};
use crate::{PLAIN_DENOMINATOR, lines};
use graph::{MAX_EDGES, Refused};
use onetree::Ruling;

// The ruling of a byte of the list that the rule call is lent: bytes, since the program prints what the rule call says. It leaves none above 4; of
// such a byte the text would say what it says of 4, as `ruling_word` has it.
#[tactic(auto, unfolding(crate::specs::Text::ruling_word))]
fn ruling_of(byte: u8) -> Ruling
    ensures { ruling_word (byte_of result) ≡ ruling_word byte }
{
    Ruling::try_from(byte).unwrap_or(Ruling::WasExcluded)
}

// One line an edge.
fn push_edges(text: &mut Text, input: &Input, rulings: &[u8])
    requires { (array_string_len text.old ≤ LINE_SIZE) × (length rulings.now ≡ input.now.graph.m) }
    ensures { text.new.bytes ≡ text.old.bytes ++ edge_lines input.now.graph rulings.now input.now.graph.m }
{
    let g = &input.graph;
    // By place: k is printed too, as a byte; three lists zipped, numbered, and the number made a byte again would be no plainer.
    for k in 0..g.m {
        let at = usize::from(k);
        text.push_str(lines::edge(k + 1, g.a[at], g.b[at], ruling_of(rulings[at])).as_str());
    }
}

// Program 'rulings'.
pub struct Rulings;

impl Program for Rulings {
    ghost use Rattle.reports.specs.Rulings.{rules_text};

    ghost says = { rules_text };

    // The rule call with zero multipliers and none ashore, and the rulings that it leaves.
    fn text(input: &Input) -> Result<Text, Refused> {
        let g = &input.graph;
        let mut rulings = [0u8; MAX_EDGES];
        let rulings = &mut rulings[..usize::from(g.m)];
        let mut text = Text::new();
        match reduction::rule(
            g,
            input.multipliers(),
            input.ashore(),
            input.ceiling,
            PLAIN_DENOMINATOR,
            rulings,
        )? {
            Some(bound) => {
                text.push_str(lines::bound(bound, input.ceiling).as_str());
                push_edges(&mut text, input, rulings);
            }
            None => text.push_str("dead\n"),
        }
        Ok(text)
    }
}
