// A buffer lent to a call: the line that shows it after.
ghost use Rattle.std.specs.Prelude.{◌≡◌, ◌≤◌, length};
ghost use Rattle.answers.specs.Lent.{shown_line};

use crate::reply::{Words, numbered};
use crate::written::Line;
use answer::Refusal;

// The number and the words of an answer, zero's beside a refusal, the bytes and a line end.
pub(crate) fn shown<T: Words + Copy>(
    answer: Result<T, Refusal>,
    zero: T,
    bytes: &[u8],
    line: &mut Line,
)
    requires { length bytes.now ≤ 400 }
    ensures { line.new ≡ shown_line T.words answer zero bytes.now }
{
    numbered(answer::number(answer), answer.unwrap_or(zero), line);
    line.push_spaced(bytes);
    line.push(b'\n');
}
