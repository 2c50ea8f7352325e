// What the two programs share: what is read, what is printed of a refusal, and how bytes come in and go out.
ghost use Rattle.std.specs.Prelude.{◌≡◌, ◌≤◌, IfOk, IfSome, MatchResult, OnOk, length};
ghost use Rattle.std.specs.Option.{unwrap_or};
ghost use Rattle.std.specs.Io.KnownBytes.{Appends};
ghost use Rattle.graph.specs.Refusals.{number};
ghost use Rattle.reports.specs.Input.{printed};
ghost use Rattle.reports.specs.Longest.{enough};
ghost use Rattle.reports.specs.Text.{refused_line};

use crate::input::{INPUT_SIZE, Input};
use crate::lines;
use arrayvec::ArrayString;
use graph::Refused;
use std::io;
use std::io::{Read, Write};

// The longest text.
pub const BUFFER_SIZE: usize = 4096;

// All that a program prints, in fixed memory.
pub type Text = ArrayString<BUFFER_SIZE>;

// What a program has of its own: what it prints of a ceiling and a graph. Each is a type, so that what they share is one function.
pub trait Program {
    ghost use Rattle.std.specs.Prelude.{ℤ, List, ℕ};
    ghost use Rattle.graph.specs.declared.Graph.{Graph};

    ghost says: { ℤ → Graph → List ℕ };

    // The text of an input, or a refusal, whose line is then all that is printed.
    // Ruled out: a byte beside the text that `says` names; a line of another input.
    fn text(input: &Input) -> Result<Text, Refused>
        ensures { MatchResult result (λ t. t.bytes ≡ says input.now.ceiling input.now.graph)
            (λ r. refused_line (number r.refusal) (unwrap_or r.place 0) ≡ says input.now.ceiling input.now.graph) };
}

// The text of an input, or the refusal of it.
fn text_of<P: Program>(input: &[u8]) -> Result<Text, Refused>
    ensures { MatchResult result (λ t. t.bytes ≡ printed P.says input.now)
        (λ r. refused_line (number r.refusal) (unwrap_or r.place 0) ≡ printed P.says input.now) }
{
    P::text(&Input::read(input)?)
}

// All that a program prints of an input.
// Ruled out: a refusal of the ceiling beside a fault of the chart; a byte after the line of a refusal.
pub fn printed<P: Program>(input: &[u8]) -> Text
    ensures { result.bytes ≡ printed P.says input.now }
{
    match text_of::<P>(input) {
        Ok(text) => text,
        Err(refused) => {
            let mut text = Text::new();
            text.push_str(lines::refused(refused).as_str());
            text
        }
    }
}

// All that it prints of what a reader has, which is read into the room that is lent: with room for the longest input and a byte more, of a
// longer one the same is printed (`enough` and `first-bytes` in specs/Longest.antt).
// Ruled out: an input cut short; a byte that lay in the room before.
pub fn report<P: Program, R: Read>(from: &mut R, room: &mut [u8]) -> io::Result<Text>
    ensures { enough ≤ length room.old
        → IfOk result (λ t. IfSome (R.remaining from.old) (λ all. t.bytes ≡ printed P.says all)) }
{
    let n = intake::read_full(from, room)?;
    Ok(printed::<P>(&room[..n]))
}

// The whole of a program: reads all, with room for the longest input and a byte more, and writes all that it prints of it.
// Ruled out: room for less than the longest input; a text written in part, or with a byte more.
pub fn run<P: Program, R: Read, W: Write>(from: &mut R, to: &mut W) -> io::Result<()>
    ensures { OnOk result (IfSome (R.remaining from.old)
        (λ all. Appends (W.contents to.old) (W.contents to.new) (printed P.says all))) }
{
    let text = report::<P, R>(from, &mut [0; INPUT_SIZE])?;
    to.write_all(text.as_str().as_bytes())
}
