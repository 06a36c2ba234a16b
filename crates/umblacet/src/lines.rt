// A line, by its normal in a face's u, v, w.
ghost use Rattle.std.specs.Prelude.{◌≡◌, not, eqb};
ghost use Rattle.line.specs.Entries.{sum_equal_or_refusal, meets_face_or_refusal, opposite_edges_or_refusal, exit_axis_or_refusal, exit_point_or_refusal, next_face_or_refusal};
ghost use Rattle.line.specs.Line.{axis_of};
ghost use Rattle.umblacet.specs.Axis.{numbered_axis};
ghost use Rattle.umblacet.specs.Answers.{face_answer, uv_answer, yes_no};

use crate::answers::{FaceAnswer, NumberedAxis, UvAnswer, YesNo};
use cube::Vector;
use cube::compute::Uv;
use line::Axis;

#[unsafe(no_mangle)]
pub extern "C" fn umb_sum_equal(u: f64, v: f64, w: f64) -> YesNo
    ensures { result ≡ yes_no (sum_equal_or_refusal u v w) }
{
    line::sum_equal(u, v, w).into()
}

#[unsafe(no_mangle)]
pub extern "C" fn umb_intersects_face(n: Vector) -> YesNo
    ensures { result ≡ yes_no (meets_face_or_refusal n) }
{
    line::intersects_face(n).into()
}

#[unsafe(no_mangle)]
pub extern "C" fn umb_intersects_opposite_edges(n: Vector) -> YesNo
    ensures { result ≡ yes_no (opposite_edges_or_refusal n) }
{
    line::intersects_opposite_edges(n).into()
}

#[unsafe(no_mangle)]
pub extern "C" fn umb_exit_axis(n: Vector) -> NumberedAxis
    ensures { result ≡ numbered_axis (exit_axis_or_refusal n) }
{
    line::exit_axis(n).into()
}

// The axis is U for 0, V for any other number, here and in `umb_next_face`.
#[unsafe(no_mangle)]
pub extern "C" fn umb_exit_point(n: Vector, axis: u8) -> UvAnswer
    ensures { result ≡ uv_answer (exit_point_or_refusal n (axis_of (not (eqb axis 0)))) }
{
    line::exit_point(n, Axis::from(axis)).into()
}

#[unsafe(no_mangle)]
pub extern "C" fn umb_next_face(face: u8, exit: Uv, axis: u8, n: Vector, target: u8) -> FaceAnswer
    ensures { result ≡ face_answer (next_face_or_refusal face exit (axis_of (not (eqb axis 0))) n target) }
{
    line::next_face(face, exit, Axis::from(axis), n, target).into()
}
