// Operations 61 and 62: the line of a trace on a lent buffer, without touches and with them.
ghost use Rattle.std.specs.Prelude.{◌≡◌, ◌≤◌, length};
ghost use Rattle.trace.specs.Answers.{answer_of, buffer_after};
ghost use Rattle.answers.specs.Traced.{trace_line_on, trace_line};

use crate::lent::shown;
use crate::request::{floats_at, rect_at, whose_at, word_up_to};
use crate::written::Line;
use answer::Refusal;
use plane::Rect;
use trace::Counts;

// The line of a trace on a buffer of the length asked, every byte a5.
#[tactic(auto, unfolding(crate::specs::Traced::trace_line))]
pub(crate) fn trace_line(touches: bool, s: &[u8], line: &mut Line)
    ensures { line.new ≡ trace_line touches s.now }
{
    let mut lent = [0xa5u8; 400];
    let n = word_up_to(s, 2, 400);
    trace_line_on(touches, s, &mut lent[..n], line);
}

#[tactic(auto, unfolding(crate::specs::Traced::trace_line_on))]
fn trace_line_on(touches: bool, s: &[u8], lent: &mut [u8], line: &mut Line)
    requires { length lent.old ≤ 400 }
    ensures { line.new ≡ trace_line_on touches lent.old s.now }
{
    let floats = floats_at(s, 7);
    let n = word_up_to(s, 1, 16);
    let counts = cut(touches, &floats[..n], rect_at(s, 3), whose_at(s, 23), lent);
    shown(counts, Counts::default(), lent, line);
}

// By the two entries themselves, which is what is asked here: `Chart` has the flag.
fn cut(
    touches: bool,
    samples: &[f64],
    window: Rect,
    whose: u32,
    out: &mut [u8],
) -> Result<Counts, Refusal>
    ensures answer { result ≡ answer_of touches samples.now window (length out.old) }
    ensures bytes { out.new ≡ buffer_after touches out.old samples.now window whose }
{
    if touches {
        trace::cut_trace_with_touches(samples, window, whose, out)
    } else {
        trace::cut_trace(samples, window, whose, out)
    }
}
