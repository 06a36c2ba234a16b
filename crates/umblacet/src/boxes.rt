// The boxes of a trace's edges and of halves of them, and the first edge that is kept in a window.
ghost use Rattle.std.specs.Prelude.{◌≡◌, length};
ghost use Rattle.pages.specs.Answers as pages;
ghost use Rattle.umblacet.specs.Answers.{kept_answer, pages_answer};

use crate::answers::{KeptAnswer, PagesAnswer};
use plane::Rect;

#[unsafe(no_mangle)]
pub extern "C" fn umb_build_pages(samples: &[f64], boxes: &mut [f64]) -> PagesAnswer
    ensures answer { result ≡ pages_answer (pages.pages_answer (length samples.now) (length boxes.old)) }
    ensures floats { boxes.new ≡ pages.buffer_after boxes.old samples.now }
{
    pages::build_pages(samples, boxes).into()
}

#[unsafe(no_mangle)]
pub extern "C" fn umb_first_kept(samples: &[f64], window: Rect, boxes: &[f64]) -> KeptAnswer
    ensures { result ≡ kept_answer (pages.kept_answer samples.now window boxes.now) }
{
    pages::first_kept(samples, window, boxes).into()
}
