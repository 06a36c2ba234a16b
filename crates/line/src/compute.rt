// What the entries compute: any float goes in, NaN and infinities too, and nothing is refused.
// A normal n stands in a face's u, v, w: x is its u, y its v, z its w.
#![tactic(auto, using(float::proofs::Choice::branches, float::proofs::Choice::numbers), unfolding(crate::specs::Line::meets_face, crate::specs::Line::passes_opposite_edges, crate::specs::Line::sum_equal, crate::specs::Line::by_axis, crate::specs::Line::axis_of, crate::specs::Line::exit_axis, crate::specs::Line::one_if, crate::specs::Line::exit_point, crate::specs::Line::direction_of, crate::specs::Line::at_corner, crate::specs::Line::next_face))]

ghost use Rattle.std.specs.Prelude.{◌≡◌, not, eqb};
ghost use Rattle.line.specs.Line.{sum_equal, meets_face, passes_opposite_edges, axis_of, even_signs, exit_axis, one_if, other_at, exit_point, divisor, other_axis, coordinate, axis_number, direction_of, neighbour_over, is_one, at_corner, next_face};

use cube::Vector;
use cube::compute::Uv;

// The axis over which a line leaves a face.
#[derive(Clone, Copy, Debug, PartialEq, Eq, Hash)]
pub enum Axis {
    U,
    V,
}

impl Axis {
    fn other(self) -> Self
        ensures { result ≡ other_axis self }
    {
        match self {
            Axis::U => Axis::V,
            Axis::V => Axis::U,
        }
    }

    fn coordinate(self, p: Uv) -> f64
        ensures { result ≡ coordinate self p }
    {
        match self {
            Axis::U => p.u,
            Axis::V => p.v,
        }
    }

    // What the exit point over the axis is divided by.
    pub fn divisor(self, n: Vector) -> f64
        ensures { result ≡ divisor self n }
    {
        match self {
            Axis::U => n.y,
            Axis::V => n.x,
        }
    }
}

// As the cube numbers it.
impl From<Axis> for u8 {
    ghost from_gives = { λ a n. n ≡ axis_number a };

    fn from(axis: Axis) -> u8 {
        match axis {
            Axis::U => 0,
            Axis::V => 1,
        }
    }
}

// U of 0, V of any other number.
impl From<u8> for Axis {
    ghost from_gives = { λ n a. a ≡ axis_of (not (eqb n 0)) };

    fn from(number: u8) -> Axis {
        if number == 0 { Axis::U } else { Axis::V }
    }
}

// Whether u + v = w.
pub fn sum_equal(u: f64, v: f64, w: f64) -> bool
    ensures { result ≡ sum_equal u v w }
{
    u + v == w && u == w - v && v == w - u
}

// Whether the line meets the face: |nu| + |nv| >= |nw|.
pub fn intersects_face(n: Vector) -> bool
    ensures { result ≡ meets_face n }
{
    let u = float::magnitude(n.x);
    let v = float::magnitude(n.y);
    let w = float::magnitude(n.z);
    v >= w - u && u >= w - v
}

// Whether the line passes opposite edges of the face: ||nu| - |nv|| >= |nw|.
pub fn intersects_opposite_edges(n: Vector) -> bool
    ensures { result ≡ passes_opposite_edges n }
{
    let u = float::magnitude(n.x);
    let v = float::magnitude(n.y);
    let w = float::magnitude(n.z);
    let d = float::magnitude(u - v);
    if d == w {
        if u >= v { u - w >= v } else { v - w >= u }
    } else {
        d >= w
    }
}

// The axis over which the line leaves the face.
pub fn exit_axis(n: Vector) -> Axis
    ensures { result ≡ exit_axis n }
{
    let v = if intersects_opposite_edges(n) {
        float::magnitude(n.x) >= float::magnitude(n.y)
    } else {
        even_signs(n)
    };
    if v { Axis::V } else { Axis::U }
}

// Whether an even number of sign bits is set.
fn even_signs(n: Vector) -> bool
    ensures { result ≡ even_signs n }
{
    !((float::sign_bit(n.x) != float::sign_bit(n.y)) != float::sign_bit(n.z))
}

// Where the line leaves the face over an axis.
pub fn exit_point(n: Vector, axis: Axis) -> Uv
    ensures { result ≡ exit_point n axis }
{
    match axis {
        Axis::U => {
            let u = one_if(n.y > 0.0);
            Uv::new(u, other_at(u, n.x, n.z, n.y))
        }
        Axis::V => {
            let v = one_if(n.x < 0.0);
            Uv::new(other_at(v, n.y, n.z, n.x), v)
        }
    }
}

// 1 if it holds, else -1. A choice of two values here and below, for which the library has no conversion.
fn one_if(plus: bool) -> f64
    ensures { result ≡ one_if plus }
{
    if plus { 1.0 } else { -1.0 }
}

// The other coordinate at a side of the exit axis, for the normal's part along that axis, its w and
// its part along the other.
fn other_at(side: f64, along: f64, w: f64, across: f64) -> f64
    ensures { result ≡ other_at side along w across }
{
    (-side * along - w) / across
}

// The face that the line enters where it leaves one at the exit point.
pub fn next_face(face: u8, exit: Uv, axis: Axis, n: Vector, target: u8) -> u8
    ensures { result ≡ next_face face exit axis n target }
{
    if at_corner(face, exit, axis, n, target) {
        target
    } else {
        neighbour_over(face, axis, exit)
    }
}

// Whether the line leaves exactly at a corner, and the target is the face over the other axis there.
fn at_corner(face: u8, exit: Uv, axis: Axis, n: Vector, target: u8) -> bool
    ensures { result ≡ at_corner face exit axis n target }
{
    let other = axis.other();
    is_one(other.coordinate(exit))
        && neighbour_over(face, other, exit) == target
        && sum_equal(exit.u * n.x, exit.v * n.y, -n.z)
}

// The neighbour over an axis, on the side of the point.
fn neighbour_over(face: u8, axis: Axis, p: Uv) -> u8
    ensures { result ≡ neighbour_over face axis p }
{
    cube::compute::uvw_face(face, axis.into(), direction_of(axis.coordinate(p)))
}

fn direction_of(c: f64) -> u8
    ensures { result ≡ direction_of c }
{
    if c > 0.0 { 1 } else { 0 }
}

fn is_one(c: f64) -> bool
    ensures { result ≡ is_one c }
{
    float::magnitude(c) == 1.0
}
