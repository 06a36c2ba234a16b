// Cutting an edge of the plane to a window.
ghost use Rattle.std.specs.Prelude.{◌≡◌};
ghost use Rattle.clip.specs.Answers.{clipped, bound_or_refusal, axis_or_refusal, end_or_refusal, meets_or_refusal, value_or_refusal};
ghost use Rattle.umblacet.specs.Cut.{cut_of};
ghost use Rattle.umblacet.specs.Answers.{axes_answer, interval_answer, real, rect_answer, yes_no};

use crate::answers::{AxesAnswer, Cut, IntervalAnswer, Real, RectAnswer, YesNo};
use plane::{Interval, Point, Rect};

#[unsafe(no_mangle)]
pub extern "C" fn umb_clip_edge(a: Point, b: Point, window: Rect) -> Cut
    ensures { result ≡ cut_of (clipped a b window) }
{
    clip::clip_edge(a, b, window).into()
}

#[unsafe(no_mangle)]
pub extern "C" fn umb_edge_intersects_rect(a: Point, b: Point, window: Rect) -> YesNo
    ensures { result ≡ yes_no (meets_or_refusal a b window) }
{
    clip::edge_intersects_rect(a, b, window).into()
}

#[unsafe(no_mangle)]
pub extern "C" fn umb_clip_edge_bound(a: Point, b: Point, window: Rect, bound: Rect) -> RectAnswer
    ensures { result ≡ rect_answer (bound_or_refusal a b window bound) }
{
    clip::clip_edge_bound(a, b, window, bound).into()
}

#[unsafe(no_mangle)]
pub extern "C" fn umb_clip_bound_axis(
    a0: f64,
    b0: f64,
    bound0: Interval,
    a1: f64,
    b1: f64,
    bound1: Interval,
    neg_slope: bool,
    window: Interval,
) -> AxesAnswer
    ensures { result ≡ axes_answer (axis_or_refusal a0 b0 bound0 a1 b1 bound1 neg_slope window) }
{
    clip::clip_bound_axis(a0, b0, bound0, a1, b1, bound1, neg_slope, window).into()
}

#[unsafe(no_mangle)]
pub extern "C" fn umb_update_endpoint(
    bound: Interval,
    high_endpoint: bool,
    value: f64,
) -> IntervalAnswer
    ensures { result ≡ interval_answer (end_or_refusal bound high_endpoint value) }
{
    clip::update_endpoint(bound, high_endpoint, value).into()
}

#[unsafe(no_mangle)]
pub extern "C" fn umb_interpolate(x: f64, a: f64, b: f64, a1: f64, b1: f64) -> Real
    ensures { result ≡ real (value_or_refusal x a b a1 b1) }
{
    clip::interpolate(x, a, b, a1, b1).into()
}
