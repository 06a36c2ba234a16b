// What is refused, in document 01's order for the plane: 2 for a float beyond 2^500 or not finite, then
// 3 for a window with such a side or lo > hi.
#![tactic(auto, using(float::proofs::Choice::branches, float::proofs::Choice::asks), unfolding(crate::specs::Refuse::plane_refusal, crate::specs::Refuse::sides_fine, crate::specs::Refuse::window_fine))]

ghost use Rattle.std.specs.Prelude.{◌≡◌, true};
ghost use Rattle.float.specs.Choice.{◌and◌};
ghost use Rattle.float.specs.Float.{◌⊕◌, magnitude_of};
ghost use Rattle.answer.specs.Refusal.{done};
ghost use Rattle.clip.specs.Refuse.{coordinate, side, coordinates, point_fine, bound_fine, box_fine, sides_fine, window_fine, plane_refusal, value_refusal, end_refusal, axis_refusal, bound_refusal, edge_refusal};

use answer::{Refusal, need};
use plane::{Interval, Point, Rect};

// Of an edge and a window. Most have nothing to refuse, which one sum tells for less than the tests in order.
pub fn edge(a: Point, b: Point, window: Rect) -> Result<(), Refusal>
    ensures { result ≡ edge_refusal a b window }
{
    if surely_fine(a, b, window) {
        return Ok(());
    }
    in_order(points_fine(a, b), window_fine(window))
}

// Of an edge, a bound and a window.
pub fn bound(a: Point, b: Point, window: Rect, bound: Rect) -> Result<(), Refusal>
    ensures { result ≡ bound_refusal a b window bound }
{
    in_order(points_fine(a, b) && box_fine(bound), window_fine(window))
}

// Of an axis, by the parameters of `clip_bound_axis`.
pub fn axis(
    a0: f64,
    b0: f64,
    bound0: Interval,
    a1: f64,
    b1: f64,
    bound1: Interval,
    window: Interval,
) -> Result<(), Refusal>
    ensures { result ≡ axis_refusal a0 b0 bound0 a1 b1 bound1 window }
{
    let ends = coordinates(a0, b0) && coordinates(a1, b1);
    let bounds = bound_fine(bound0) && bound_fine(bound1);
    in_order(ends && bounds, sides_fine(window))
}

// Of an interval and a value.
pub fn end(bound: Interval, value: f64) -> Result<(), Refusal>
    ensures { result ≡ end_refusal bound value }
{
    need(bound_fine(bound) && is_admitted(value), Refusal::NotFinite)
}

// Of a line's two ends and a place on it.
pub fn value(x: f64, a: f64, b: f64, a1: f64, b1: f64) -> Result<(), Refusal>
    ensures { result ≡ value_refusal x a b a1 b1 }
{
    let ends = coordinates(a, b) && coordinates(a1, b1);
    need(is_admitted(x) && ends, Refusal::NotFinite)
}

// ---- all at once: where a sum of magnitudes is admitted each of them is

fn surely_fine(a: Point, b: Point, window: Rect) -> bool
    ensures { result ≡ true → edge_refusal a b window ≡ done }
{
    let low = sizes(a.x, b.x) + sizes(window.x.lo, window.y.lo);
    let high = sizes(a.y, b.y) + sizes(window.x.hi, window.y.hi);
    (low + high <= LIMIT) & (window.x.lo <= window.x.hi) & (window.y.lo <= window.y.hi)
}

fn sizes(x: f64, y: f64) -> f64
    ensures { result ≡ (magnitude_of x ⊕ magnitude_of y) }
{
    float::magnitude(x) + float::magnitude(y)
}

// ---- the order, and the two predicates that it asks

// `cube` and `trace` have orders of their own, of other refusals.
fn in_order(points: bool, window: bool) -> Result<(), Refusal>
    ensures { result ≡ plane_refusal points window }
{
    need(points, Refusal::NotFinite)?;
    need(window, Refusal::BadWindow)
}

// 2^500, the greatest magnitude that is admitted; none of a NaN or of an infinity is as small.
const LIMIT: f64 = 3.273390607896142e150;

// As a point's coordinate, and as a window's side.
fn is_admitted(x: f64) -> bool
    ensures as_coordinate { result ≡ coordinate x }
    ensures as_side { result ≡ side x }
{
    float::magnitude(x) <= LIMIT
}

// As a coordinate of a point that is asked alone, as a sample is, by two comparisons: by the magnitude, which an edge's test
// has from its sum, an edge of a trace takes three or four instructions more (`bench/run traces`).
fn is_within(x: f64) -> bool
    ensures { result ≡ coordinate x }
{
    -LIMIT <= x && x <= LIMIT
}

fn coordinates(x: f64, y: f64) -> bool
    ensures { result ≡ coordinates x y }
{
    is_admitted(x) && is_admitted(y)
}

fn points_fine(a: Point, b: Point) -> bool
    ensures { result ≡ (point_fine a and point_fine b) }
{
    coordinates(a.x, a.y) && coordinates(b.x, b.y)
}

pub fn point_fine(p: Point) -> bool
    ensures { result ≡ point_fine p }
{
    is_within(p.x) && is_within(p.y)
}

fn bound_fine(i: Interval) -> bool
    ensures { result ≡ bound_fine i }
{
    coordinates(i.lo, i.hi)
}

fn box_fine(r: Rect) -> bool
    ensures { result ≡ box_fine r }
{
    bound_fine(r.x) && bound_fine(r.y)
}

fn sides_fine(i: Interval) -> bool
    ensures { result ≡ sides_fine i }
{
    is_admitted(i.lo) && is_admitted(i.hi) && i.lo <= i.hi
}

pub fn window_fine(r: Rect) -> bool
    ensures { result ≡ window_fine r }
{
    sides_fine(r.x) && sides_fine(r.y)
}
