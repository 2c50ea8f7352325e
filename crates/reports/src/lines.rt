// The lines that the programs print, each in a string of fixed capacity, so that its size is its type's. std's `write!` is not used: its contract
// says what was written where it answers Ok, and never that it does.
ghost use Rattle.std.specs.Prelude.{◌≡◌, ◌++◌, ◌+◌, ◌<◌, ◌≤◌, length};
ghost use Rattle.std.specs.Option.{unwrap_or};
ghost use Rattle.arrayvec.specs.ArrayString.{array_string_len};
ghost use Rattle.graph.specs.Refusals.{number};
ghost use Rattle.machine.specs.Calls.{best};
ghost use Rattle.onetree.specs.Answers.{byte_of};
ghost use Rattle.reports.specs.Text.{ascii, refused_line, bound_line, ruling_word, edge_line, verdict_line, nodes_line};

use arrayvec::ArrayString;
use graph::Refused;
use itoa::{Buffer, Integer};
use onetree::Ruling;

// Two numbers of 64 bits, and the words about them: the longest line.
pub(crate) const LINE_SIZE: usize = 56;

// Three numbers of a byte, and a ruling's word.
const EDGE_LINE_SIZE: usize = 21;

pub(crate) type Line = ArrayString<LINE_SIZE>;

pub(crate) type EdgeLine = ArrayString<EDGE_LINE_SIZE>;

// The word of a ruling.
#[tactic(auto, unfolding(crate::specs::Text::ruling_word))]
fn word_of(ruling: Ruling) -> &'static str
    ensures word { result.now ≡ ruling_word (byte_of ruling) }
    ensures len { length result.now ≤ 8 }
{
    match ruling {
        Ruling::Keep => "keep",
        Ruling::Force => "force",
        Ruling::Bar => "bar",
        Ruling::WasRequired => "required",
        Ruling::WasExcluded => "struck",
    }
}

// The digits of a number, with '-' before a negative one and no zero in front.
fn push_number<const N: usize, I: Integer>(line: &mut ArrayString<N>, n: I)
    requires { array_string_len line.old + I.MAX_STR_LEN ≤ N }
    ensures text { line.new.bytes ≡ line.old.bytes ++ I.text n }
    ensures len { array_string_len line.new ≤ array_string_len line.old + I.MAX_STR_LEN }
{
    line.push_str(Buffer::new().format(n));
}

// Two words, each with a number.
fn labelled_two<I: Integer, J: Integer>(word: &str, n: I, next: &str, k: J) -> Line
    requires { length word.now + I.MAX_STR_LEN + length next.now + J.MAX_STR_LEN < LINE_SIZE }
    ensures { result.bytes ≡ word.now ++ I.text n ++ next.now ++ J.text k ++ ascii "\n" }
{
    let mut line = Line::new();
    line.push_str(word);
    push_number(&mut line, n);
    line.push_str(next);
    push_number(&mut line, k);
    line.push_str("\n");
    line
}

// 'refused N at P'
pub(crate) fn refused(refused: Refused) -> Line
    ensures { result.bytes ≡ refused_line (number refused.refusal) (unwrap_or refused.place 0) }
{
    labelled_two(
        "refused ",
        u32::from(refused.refusal),
        " at ",
        refused.place.unwrap_or(0),
    )
}

// The first line: the bound and the ceiling.
pub(crate) fn bound(bound: i64, ceiling: i64) -> Line
    ensures { result.bytes ≡ bound_line bound ceiling }
{
    labelled_two("bound ", bound, " ceiling ", ceiling)
}

// The line of edge k, which joins a and b.
pub(crate) fn edge(k: u8, a: u8, b: u8, ruling: Ruling) -> EdgeLine
    ensures { result.bytes ≡ edge_line k a b (byte_of ruling) }
{
    let mut line = EdgeLine::new();
    push_number(&mut line, k);
    line.push_str(" ");
    push_number(&mut line, a);
    line.push_str("-");
    push_number(&mut line, b);
    line.push_str(" ");
    line.push_str(word_of(ruling));
    line.push_str("\n");
    line
}

// A word and a number.
fn labelled<I: Integer>(word: &str, n: I) -> Line
    requires { length word.now + I.MAX_STR_LEN < LINE_SIZE }
    ensures { result.bytes ≡ word.now ++ I.text n ++ ascii "\n" }
{
    let mut line = Line::new();
    line.push_str(word);
    push_number(&mut line, n);
    line.push_str("\n");
    line
}

// 'cost C'
#[tactic(auto, using(crate::proofs::Pieces::cost_pieces))]
pub(crate) fn cost(cost: i64) -> Line
    ensures { result.bytes ≡ verdict_line (best cost) }
{
    labelled("cost ", cost)
}

// 'nodes K'
#[tactic(auto, using(crate::proofs::Pieces::nodes_pieces))]
pub(crate) fn nodes(count: u64) -> Line
    ensures { result.bytes ≡ nodes_line count }
{
    labelled("nodes ", count)
}
