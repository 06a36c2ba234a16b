// The longest clean stretch of a trace: of the runs of consecutive samples that are all admitted and all
// in the window the longest, and the earliest if several are as long.
//
// `longest_clean` hands back that part of the caller's own samples, and `longest_clean_refusal` says what is
// refused (10, then 3); `longest_clean_run` says the same in figures, for callers that want no slice.
#![tactic(auto, using(float::proofs::Choice::branches))]

ghost use Rattle.std.specs.Prelude.{◌≡◌, length};
ghost use Rattle.plane.specs.Point.{at};
ghost use Rattle.stretch.specs.Longest.{clean};
ghost use Rattle.stretch.specs.Answers.{stretch_refusal, stretch_of, stretch_or_none, part_of, place_of};
ghost use Rattle.stretch.specs.Inner.{longer, Admitted, From, Until, IsLongest};

use answer::Refusal;
use clip::window::Window;
use plane::Rect;

// So many samples from a sample on, the first being 0.
#[derive(Clone, Copy)]
pub struct Stretch {
    pub first: usize,
    pub count: usize,
}

// The part of the samples, x and y in turn, that is the longest clean stretch. Its address says that it is
// the caller's own and no copy. Empty, at the start, where no sample is clean or something is refused.
#[tactic(auto, using(crate::proofs::Answered::handed_back))]
pub fn longest_clean(samples: &[f64], window: Rect) -> &[f64]
    ensures floats { result.now ≡ part_of samples.now (stretch_or_none samples.now window) }
    ensures place { result.ref_ptr ≡ place_of samples.entry.ref_ptr (stretch_or_none samples.now window) }
{
    let none = Stretch { first: 0, count: 0 };
    let run = longest_clean_run(samples, window).unwrap_or(none);
    let from = 2 * run.first;
    let to = from + 2 * run.count;
    &samples[from..to]
}

// 10 for an odd count of floats or more than 4,096 samples, 3 for a window side beyond 2^500 or not finite,
// or lo > hi.
pub fn longest_clean_refusal(samples: &[f64], window: Rect) -> Result<(), Refusal>
    ensures { result ≡ stretch_refusal (length samples.now) window }
{
    trace::refuse::samples(samples.len(), window)
}

// The stretch, where nothing is refused.
#[tactic(auto, using(crate::proofs::Answered::fine_window, crate::proofs::Answered::not_refused, crate::proofs::Answered::found))]
pub fn longest_clean_run(samples: &[f64], window: Rect) -> Result<Stretch, Refusal>
    ensures { result ≡ stretch_of samples.now window }
{
    longest_clean_refusal(samples, window)?;
    let part = longest_part(samples, Window { rect: window });
    Ok(Stretch {
        first: part.from / 2,
        count: part.length / 2,
    })
}

// ---- one pass over the samples

// So many floats from a place on. With a `Range`, which keeps no length, or with samples counted, a sample took up to two
// instructions more in a trial, past the bar of `bench/run stretches`.
#[derive(Clone, Copy)]
struct Part {
    from: usize,
    length: usize,
}

impl Part {
    // The longer of two, the first if they are as long.
    fn longer(self, other: Part) -> Self
        ensures { result ≡ longer self other }
    {
        if self.length < other.length {
            return other;
        }
        self
    }
}

// Over the samples that are not clean to one that is, and from there over those that are to one that is not:
// each is looked at once, and one comparison is made for each run.
#[tactic(auto, using(crate::proofs::Whole::steps))]
fn longest_part(samples: &[f64], window: Window) -> Part
    requires { Admitted samples.now }
    ensures { IsLongest samples.now window.rect result }
{
    let mut best = Part { from: 0, length: 0 };
    let mut k: usize = 0;
    while k < samples.len() {
        let from = until(true, samples, window, k);
        if samples.len() <= from {
            return best;
        }
        let end = until(false, samples, window, from + 2);
        best = best.longer(Part {
            from,
            length: end - from,
        });
        k = end + 2;
    }
    best
}

// From a place on that of the first sample which is clean, or which is not, as wanted; the end where there is none. By index:
// over pairs (`as_chunks`) a step took an instruction more in a trial, and by `position` seven, past the same bar. The wish is a
// constant of each call, so that one text serves both and no test of it is left.
#[tactic(auto, using(crate::proofs::Skipping::steps))]
fn until(wanted: bool, samples: &[f64], window: Window, from: usize) -> usize
    requires { From samples.now from }
    ensures { Until wanted samples.now window.rect from result }
{
    let mut at = from;
    while at < samples.len() {
        if is_clean(samples[at], samples[at + 1], window) == wanted {
            return at;
        }
        at += 2;
    }
    at
}

// In a window that is not refused no sample is refused either. What ends most stretches is asked first: a value above the
// window, then a time before it. The compiler asks in this order where the two sides of x stand together; in one `&&`, or with
// y's low side between them, it does not.
#[tactic(auto, using(crate::proofs::Clean::sides))]
fn is_clean(x: f64, y: f64, window: Window) -> bool
    ensures { result ≡ clean window.rect (at x y) }
{
    let w = window.rect;
    if !(y <= w.y.hi) {
        return false;
    }
    if !(w.x.lo <= x) {
        return false;
    }
    if !(x <= w.x.hi) {
        return false;
    }
    w.y.lo <= y
}
