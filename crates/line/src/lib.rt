// The line tests, and the step from face to face.
//
// A line is given by its normal in a face's u, v, w: x is its u, y its v, z its w. The functions here
// are the entries: each refuses in document 01's order (4, 2, 5), and else gives what `compute` gives,
// which takes any float and refuses nothing.
#![tactic(auto, using(float::proofs::Choice::branches, float::proofs::Choice::numbers, float::proofs::Choice::asks))]

pub mod compute;
pub mod refuse;

ghost use Rattle.std.specs.Prelude.{◌≡◌};
ghost use Rattle.line.specs.Entries.{sum_equal_or_refusal, meets_face_or_refusal, opposite_edges_or_refusal, exit_axis_or_refusal, exit_point_or_refusal, next_face_or_refusal};

use answer::Refusal;
pub use compute::Axis;
use cube::Vector;
use cube::compute::Uv;

// Whether u + v = w, exactly. 2 where one is not finite.
pub fn sum_equal(u: f64, v: f64, w: f64) -> Result<bool, Refusal>
    ensures { result ≡ sum_equal_or_refusal u v w }
{
    refuse::line(Vector::new(u, v, w))?;
    Ok(compute::sum_equal(u, v, w))
}

// Whether the line meets the face: exactly when |nu| + |nv| >= |nw|, so yes for the zero normal. 2
// where n is not finite.
pub fn intersects_face(n: Vector) -> Result<bool, Refusal>
    ensures { result ≡ meets_face_or_refusal n }
{
    refuse::line(n)?;
    Ok(compute::intersects_face(n))
}

// Whether the line passes opposite edges of the face: exactly when ||nu| - |nv|| >= |nw|, so yes for
// the zero normal. 2 where n is not finite.
pub fn intersects_opposite_edges(n: Vector) -> Result<bool, Refusal>
    ensures { result ≡ opposite_edges_or_refusal n }
{
    refuse::line(n)?;
    Ok(compute::intersects_opposite_edges(n))
}

// The axis over which the line leaves the face. 2 where n is not finite, 5 where it is all zero.
pub fn exit_axis(n: Vector) -> Result<Axis, Refusal>
    ensures { result ≡ exit_axis_or_refusal n }
{
    cube::refuse::vector(n)?;
    Ok(compute::exit_axis(n))
}

// Where the line leaves the face over an axis: on the exit axis of a line that meets the face, a
// point of an edge. 2 where n is not finite, 5 where it is divided by zero.
pub fn exit_point(n: Vector, axis: Axis) -> Result<Uv, Refusal>
    ensures { result ≡ exit_point_or_refusal n axis }
{
    refuse::exit(n, axis)?;
    Ok(compute::exit_point(n, axis))
}

// The face that the line enters where it leaves one over an axis: the neighbour there, or the target
// where the line passes exactly through a corner that it shares. 4 for a face or target above 5, 2
// where the exit point or n is not finite, 5 where n is all zero.
pub fn next_face(face: u8, exit: Uv, axis: Axis, n: Vector, target: u8) -> Result<u8, Refusal>
    ensures { result ≡ next_face_or_refusal face exit axis n target }
{
    refuse::next(face, exit, n, target)?;
    Ok(compute::next_face(face, exit, axis, n, target))
}
