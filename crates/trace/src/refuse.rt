// What is refused of a trace, in its order: 10, then 3, then 8.
ghost use Rattle.std.specs.Prelude.{◌-◌, ◌/◌, ◌≡◌, true};
ghost use Rattle.clip.specs.Refuse.{window_fine};
ghost use Rattle.trace.specs.Refuse.{trace_fine, room_for, in_order};

use answer::{Refusal, need};
use plane::Rect;

// The most samples of a trace.
const MOST: usize = 4096;

// Of so many floats, a window and so many bytes lent.
pub fn trace(floats: usize, window: Rect, bytes: usize) -> Result<(), Refusal>
    ensures { result ≡ in_order (trace_fine floats) (window_fine window) (room_for (floats / 2 - 1) bytes) }
{
    in_order(
        trace_fine(floats),
        clip::refuse::window_fine(window),
        edge_count(floats) <= bytes / record::LENGTH,
    )
}

// The same where no bytes are lent: 10, then 3.
pub fn samples(floats: usize, window: Rect) -> Result<(), Refusal>
    ensures { result ≡ in_order (trace_fine floats) (window_fine window) true }
{
    in_order(trace_fine(floats), clip::refuse::window_fine(window), true)
}

// An even count of floats, and at most 4,096 samples.
pub fn trace_fine(floats: usize) -> bool
    ensures { result ≡ trace_fine floats }
{
    floats % 2 == 0 && floats / 2 <= MOST
}

// As many edges as samples but one; none of no sample.
pub fn edge_count(floats: usize) -> usize
    ensures { result ≡ floats / 2 - 1 }
{
    (floats / 2).saturating_sub(1)
}

// The first of the three that does not hold is refused. `clip` and `cube` have orders of their own, of other refusals.
#[tactic(auto, unfolding(crate::specs::Refuse::in_order))]
pub fn in_order(trace: bool, window: bool, room: bool) -> Result<(), Refusal>
    ensures { result ≡ in_order trace window room }
{
    need(trace, Refusal::BadTrace)?;
    need(window, Refusal::BadWindow)?;
    need(room, Refusal::ShortBuffer)
}
