// The longest clean stretch of the samples in bytes.
ghost use Rattle.std.specs.Prelude.{◌≤◌, ◌≡◌, length};
ghost use Rattle.reading.specs.Samples.{floats_of};
ghost use Rattle.stretch.specs.Answers.{stretch_of};

use answer::Refusal;
use plane::Rect;
use stretch::Stretch;

// Of the whole samples in bytes, up to 4,097: one more than a trace may have.
pub(crate) fn answer_of(bytes: &[u8], window: Rect) -> Result<Stretch, Refusal>
    requires { length bytes.now ≤ 65552 }
    ensures { result ≡ stretch_of (floats_of bytes.now) window }
{
    let mut floats = [0.0f64; 8194];
    let n = reading::put_samples(bytes, &mut floats, 0);
    stretch::longest_clean_run(&floats[..n], window)
}
