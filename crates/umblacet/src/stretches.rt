// The longest clean stretch of a trace: its number, its first sample and its count of samples.
ghost use Rattle.std.specs.Prelude.{◌≡◌};
ghost use Rattle.stretch.specs.Answers.{stretch_of};
ghost use Rattle.umblacet.specs.Answers.{stretch_answer};

use crate::answers::StretchAnswer;
use plane::Rect;

#[unsafe(no_mangle)]
pub extern "C" fn umb_longest_clean(samples: &[f64], window: Rect) -> StretchAnswer
    ensures { result ≡ stretch_answer (stretch_of samples.now window) }
{
    stretch::longest_clean_run(samples, window).into()
}
