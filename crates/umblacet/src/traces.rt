// A whole trace in one call, without the edges that only touch the window, and with them.
ghost use Rattle.std.specs.Prelude.{◌≡◌, true, false, length};
ghost use Rattle.trace.specs.Answers.{answer_of, buffer_after};
ghost use Rattle.umblacet.specs.Answers.{trace_answer};

use crate::answers::TraceAnswer;
use plane::Rect;

#[unsafe(no_mangle)]
pub extern "C" fn umb_cut_trace(
    samples: &[f64],
    window: Rect,
    whose: u32,
    out: &mut [u8],
) -> TraceAnswer
    ensures answer { result ≡ trace_answer (answer_of false samples.now window (length out.old)) }
    ensures bytes { out.new ≡ buffer_after false out.old samples.now window whose }
{
    trace::cut_trace(samples, window, whose, out).into()
}

#[unsafe(no_mangle)]
pub extern "C" fn umb_cut_trace_with_touches(
    samples: &[f64],
    window: Rect,
    whose: u32,
    out: &mut [u8],
) -> TraceAnswer
    ensures answer { result ≡ trace_answer (answer_of true samples.now window (length out.old)) }
    ensures bytes { out.new ≡ buffer_after true out.old samples.now window whose }
{
    trace::cut_trace_with_touches(samples, window, whose, out).into()
}
