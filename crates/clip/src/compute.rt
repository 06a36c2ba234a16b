// What the entries compute: any float goes in, NaN and infinities too, and nothing is refused. None is where nothing is left.
#![tactic(auto, using(float::proofs::Choice::branches, float::proofs::Choice::asks), unfolding(crate::specs::Cut::negative_slope, crate::specs::Cut::inward, crate::specs::Cut::with_end, crate::specs::Cut::held_in, crate::specs::Cut::on_line, crate::specs::Cut::value_at, crate::specs::Cut::moved_end, crate::specs::Cut::other_moved, crate::specs::Cut::crossed, crate::specs::Cut::edge_meets, crate::specs::Turns::a_nearer, crate::specs::Turns::own_line, crate::specs::Turns::own_end, crate::specs::Turns::stayed, crate::specs::Turns::own_moved, crate::specs::Turns::line_moved, crate::specs::Turns::turn_cut))]

ghost use Rattle.std.specs.Prelude.{◌≡◌, false};
ghost use Rattle.clip.specs.Cut.{from_end, on_line, held_in, value_at, inward, with_end, moved_end, axis_cut, negative_slope, off_line, crossed, edge_meets};
ghost use Rattle.clip.specs.Turns.{axis_with, axis_x, axis_y, a_nearer, own_line, own_end, stayed, own_moved, line_moved, turn_cut, sides_cut};

use plane::{Interval, Point, Rect};

// The bounds of an axis and of the other.
#[repr(C)]
#[derive(Clone, Copy, Debug, Default, PartialEq)]
pub struct Both {
    pub this: Interval,
    pub other: Interval,
}

// How many sides of the window there are to cut at.
pub const BOTH_AXES: u8 = 4;

const ONE_AXIS: u8 = 2;

// An axis as the cut sees it: the ends of the line along it, what is left of the bound, and the window.
#[derive(Clone, Copy)]
pub struct Axis {
    pub a: f64,
    pub b: f64,
    pub bound: Interval,
    pub clip: Interval,
}

// The sides of the window in turn, as many as asked for: low and high on axis x, then on axis y. Of the bound of the line
// from a to b, what is left; the axes change places after each high side. The bound may be any, or the edge's own box: then
// each side that is cut at lies between the edge's ends.
//
// It has this shape for the compiler. With the number unknown the loop is small enough to be taken into every caller, and
// there, where the number is a constant, it is unrolled, axes and sides are constants too, and no interval goes through
// memory. A function between that fixes the number would be unrolled itself, grow past what is taken in, and stay a call,
// which costs a random edge a third more. The axes change places in one branch, which adds nothing to the loop's size
// where a choice for each float would (docs/DECISIONS.md).
pub fn cut_sides(
    sides: u8,
    own: bool,
    a: Point,
    b: Point,
    neg_slope: bool,
    clip: Rect,
    bound: Rect,
) -> Option<Rect>
    ensures { result ≡ sides_cut «own» sides false (axis_x a b clip bound) (axis_y a b clip bound) neg_slope }
{
    let mut this = Axis::of(a.x, b.x, bound.x, clip.x);
    let mut other = Axis::of(a.y, b.y, bound.y, clip.y);
    let mut high = false;
    for _done in 0..sides {
        let s = clip_side(own, high, this, other, neg_slope)?;
        let t = Axis::of(this.a, this.b, s.this, this.clip);
        let u = Axis::of(other.a, other.b, s.other, other.clip);
        if high {
            this = u;
            other = t;
        } else {
            this = t;
            other = u;
        }
        high = !high;
    }
    let x = this.bound;
    let y = other.bound;
    Some(Rect { x, y })
}

impl Axis {
    fn of(a: f64, b: f64, bound: Interval, clip: Interval) -> Self
        ensures { result ≡ axis_with a b bound clip }
    {
        Axis { a, b, bound, clip }
    }
}

pub fn slope_is_negative(a: Point, b: Point) -> bool
    ensures { result ≡ negative_slope a b }
{
    (b.x < a.x) != (b.y < a.y)
}

// One axis of the line from (a0, a1) to (b0, b1): the low side of the window, then the high side of
// what it left. The parameters are those that C hands to the entry, as the original has them.
pub fn clip_bound_axis(
    a0: f64,
    b0: f64,
    bound0: Interval,
    a1: f64,
    b1: f64,
    bound1: Interval,
    neg_slope: bool,
    clip: Interval,
) -> Option<Both>
    ensures { result ≡ axis_cut a0 b0 bound0 a1 b1 bound1 neg_slope clip }
{
    let a = Point { x: a0, y: a1 };
    let b = Point { x: b0, y: b1 };
    let window = Rect { x: clip, y: clip };
    let bound = Rect {
        x: bound0,
        y: bound1,
    };
    let r = cut_sides(ONE_AXIS, false, a, b, neg_slope, window, bound)?;
    let this = r.y;
    let other = r.x;
    Some(Both { this, other })
}

// One side of the window, where the bound reaches past it.
fn clip_side(own: bool, high: bool, this: Axis, other: Axis, neg_slope: bool) -> Option<Both>
    ensures { result ≡ turn_cut «own» «high» this other neg_slope }
{
    let side = this.clip.at_end(high);
    if is_inward(high, side, this.bound.at_end(high)) {
        if is_inward(high, side, this.bound.at_end(!high)) {
            return None;
        }
        let other = move_to_line(own, high, this, other, high != neg_slope)?;
        let this = with_end(this.bound, high, side);
        return Some(Both { this, other });
    }
    let this = this.bound;
    let other = other.bound;
    Some(Both { this, other })
}

// An end of the other axis, moved to the line's value at the side. In the edge's own box that value need not be held: past
// the end that it moves it moves nothing, and past the end that stays `update_own` asks.
fn move_to_line(
    own: bool,
    high: bool,
    this: Axis,
    other: Axis,
    high_endpoint: bool,
) -> Option<Interval>
    ensures { result ≡ line_moved «own» «high» this other high_endpoint }
{
    let side = this.clip.at_end(high);
    if own {
        let value = on_own_line(side, this.a, this.b, other.a, other.b);
        return update_own(
            other.bound,
            high_endpoint,
            value,
            own_end(high, this, other),
        );
    }
    let value = interpolate(side, this.a, this.b, other.a, other.b);
    update_endpoint(other.bound, high_endpoint, value)
}

// Where a side cuts this axis, an end of the other moves and the opposite one stays. That one is the edge's own at first:
// the coordinate of the point at this axis' other end.
fn own_end(high: bool, this: Axis, other: Axis) -> f64
    ensures { result ≡ own_end «high» this other }
{
    if high != (this.b < this.a) {
        other.a
    } else {
        other.b
    }
}

// The interval with an end moved to the value: never wider, and lost where the value lies past the
// other end.
pub fn update_endpoint(bound: Interval, high_endpoint: bool, value: f64) -> Option<Interval>
    ensures { result ≡ moved_end bound high_endpoint value }
{
    if high_endpoint {
        move_end(bound, true, value)
    } else {
        move_end(bound, false, value)
    }
}

// The same for an end that its caller names, so that the compiler makes the tests of each.
fn move_end(bound: Interval, high: bool, value: f64) -> Option<Interval>
    ensures { result ≡ moved_end bound high value }
{
    if is_inward(high, value, bound.at_end(!high)) {
        return None;
    }
    if is_inward(high, value, bound.at_end(high)) {
        return Some(with_end(bound, high, value));
    }
    Some(bound)
}

// `update_endpoint` in the edge's own box, whose end that stays was `own` at first, with a value that is not held.
fn update_own(bound: Interval, high_endpoint: bool, value: f64, own: f64) -> Option<Interval>
    ensures { result ≡ own_moved bound high_endpoint value own }
{
    if high_endpoint {
        move_own(bound, true, value, own)
    } else {
        move_own(bound, false, value, own)
    }
}

// The same for an end that its caller names.
fn move_own(bound: Interval, high: bool, value: f64, own: f64) -> Option<Interval>
    ensures { result ≡ own_moved bound «high» value own }
{
    if is_inward(high, value, bound.at_end(high)) {
        if is_inward(high, value, bound.at_end(!high)) {
            return stay_at(bound, high, own);
        }
        return Some(with_end(bound, high, value));
    }
    if is_inward(high, value, bound.at_end(!high)) {
        return None;
    }
    Some(bound)
}

// A value past the end that stays: the edge is lost, unless that end is still its own. There the value is held.
fn stay_at(bound: Interval, high: bool, own: f64) -> Option<Interval>
    ensures { result ≡ stayed bound «high» own }
{
    if bound.at_end(!high) == own {
        if is_inward(high, own, bound.at_end(high)) {
            return Some(with_end(bound, high, own));
        }
        return Some(bound);
    }
    None
}

// Whether x lies inward of y as seen from the high end, or from the low.
fn is_inward(high: bool, x: f64, y: f64) -> bool
    ensures { result ≡ inward high x y }
{
    if high { x < y } else { y < x }
}

fn with_end(i: Interval, high: bool, value: f64) -> Interval
    ensures { result ≡ with_end i high value }
{
    if high {
        Interval { hi: value, ..i }
    } else {
        Interval { lo: value, ..i }
    }
}

// The value at x on the line through (a, a1) and (b, b1): for x from a to b, in either order, it is
// held between a1 and b1.
pub fn interpolate(x: f64, a: f64, b: f64, a1: f64, b1: f64) -> f64
    ensures { result ≡ value_at x a b a1 b1 }
{
    if a == b {
        return a1;
    }
    let value = on_line(x, a, b, a1, b1);
    if Interval::from_point_pair(a, b).contains(x) {
        return held_in(Interval::from_point_pair(a1, b1), value);
    }
    value
}

// The line's own value, worked out from the nearer end: rounding can leave it past a1 or b1.
fn on_line(x: f64, a: f64, b: f64, a1: f64, b1: f64) -> f64
    ensures { result ≡ on_line x a b a1 b1 }
{
    if float::magnitude(a - x) <= float::magnitude(b - x) {
        return from_end(x, a, b, a1, b1);
    }
    from_end(x, b, a, b1, a1)
}

// The same for x from a to b, in either order.
fn on_own_line(x: f64, a: f64, b: f64, a1: f64, b1: f64) -> f64
    ensures { result ≡ own_line x a b a1 b1 }
{
    if a_is_nearer(x, a, b) {
        return from_end(x, a, b, a1, b1);
    }
    from_end(x, b, a, b1, a1)
}

// Whether a is the nearer end, for x from a to b, in either order: the way from the lower end and the way to the higher are
// no less than 0, so that no magnitude is to be taken.
fn a_is_nearer(x: f64, a: f64, b: f64) -> bool
    ensures { result ≡ a_nearer x a b }
{
    if b < a {
        return a - x <= x - b;
    }
    x - a <= b - x
}

fn from_end(x: f64, a: f64, b: f64, a1: f64, b1: f64) -> f64
    ensures { result ≡ from_end x a b a1 b1 }
{
    a1 + (b1 - a1) * (x - a) / (b - a)
}

// The value, or the end of i that it passed.
fn held_in(i: Interval, value: f64) -> f64
    ensures { result ≡ held_in i value }
{
    if value < i.lo {
        return i.lo;
    }
    if i.hi < value {
        return i.hi;
    }
    value
}

// Whether the boxes share a point, and the rectangle's corners lie on both sides of the line, or on
// it.
pub fn edge_intersects_rect(a: Point, b: Point, r: Rect) -> bool
    ensures { result ≡ edge_meets a b r }
{
    if r.intersects(Rect::from_points(a, b)) {
        return corners_cross((b - a).ortho(), a, r);
    }
    false
}

// Whether, along n from a, the farthest corner is not below 0 and the one opposite not above it.
fn corners_cross(n: Point, a: Point, r: Rect) -> bool
    ensures { result ≡ crossed n a r }
{
    let i = n.x >= 0.0;
    let j = n.y >= 0.0;
    if off_line(n, a, r, i, j) >= 0.0 {
        return off_line(n, a, r, !i, !j) <= 0.0;
    }
    false
}

// How far a corner lies from the line through a, along its normal n.
fn off_line(n: Point, a: Point, r: Rect, i: bool, j: bool) -> f64
    ensures { result ≡ off_line n a r i j }
{
    n.dot(r.vertex(i, j) - a)
}
