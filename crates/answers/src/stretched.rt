// The longest clean stretch of a trace: 63.
ghost use Rattle.std.specs.Prelude.{◌≡◌};
ghost use Rattle.stretch.specs.Answers.{stretch_of, no_stretch};
ghost use Rattle.answers.specs.Reply.{reply_or, reply_line, stretch_words};
ghost use Rattle.answers.specs.Request.{samples_at, rect_at};
ghost use Rattle.answers.specs.Table.{stretch_op};

use crate::reply::{ended, only};
use crate::request::{floats_at, rect_at, word_up_to};
use crate::written::Line;
use plane::Rect;
use stretch::Stretch;

#[tactic(auto, unfolding(crate::specs::Table::stretch_op), using(crate::proofs::Listed::listed))]
pub fn stretch_op(op: u64, s: &[u8], line: &mut Line)
    ensures { line.new ≡ reply_line (stretch_op op s.now) }
{
    match op {
        63 => stretch_line(s, line),
        _ => only(255, line),
    }
}

// Of as many floats as asked, 16 at the most.
fn stretch_line(s: &[u8], line: &mut Line)
    ensures { line.new ≡ reply_line (reply_or stretch_words (stretch_of (samples_at s.now 6) (rect_at s.now 2)) no_stretch) }
{
    let floats = floats_at(s, 6);
    let n = word_up_to(s, 1, 16);
    told(&floats[..n], rect_at(s, 2), line);
}

// By all three entries, whatever the number: that of the second, the run's first sample, and the count of samples in the part
// that is handed back.
fn told(samples: &[f64], window: Rect, line: &mut Line)
    ensures { line.new ≡ reply_line (reply_or stretch_words (stretch_of samples.now window) no_stretch) }
{
    let part = stretch::longest_clean(samples, window);
    let refusal = stretch::longest_clean_refusal(samples, window);
    let run = stretch::longest_clean_run(samples, window);
    let first = run.unwrap_or(Stretch { first: 0, count: 0 }).first;
    let shown = Stretch {
        first,
        count: part.len() / 2,
    };
    ended(answer::number(refusal), shown, line);
}
