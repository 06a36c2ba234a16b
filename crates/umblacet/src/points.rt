// Points of the plane.
ghost use Rattle.std.specs.Prelude.{◌≡◌};
ghost use Rattle.plane.specs.Entries.{new_or_refusal, sum_or_refusal, difference_or_refusal, scaled_or_refusal, ortho_or_refusal, dot_or_refusal, cross_or_refusal};
ghost use Rattle.umblacet.specs.Answers.{point_answer, real};

use crate::answers::{PointAnswer, Real};
use plane::{Point, point};

#[unsafe(no_mangle)]
pub extern "C" fn umb_point_new(x: f64, y: f64) -> PointAnswer
    ensures { result ≡ point_answer (new_or_refusal x y) }
{
    point::new(x, y).into()
}

#[unsafe(no_mangle)]
pub extern "C" fn umb_point_add(p: Point, q: Point) -> PointAnswer
    ensures { result ≡ point_answer (sum_or_refusal p q) }
{
    point::sum(p, q).into()
}

#[unsafe(no_mangle)]
pub extern "C" fn umb_point_sub(p: Point, q: Point) -> PointAnswer
    ensures { result ≡ point_answer (difference_or_refusal p q) }
{
    point::difference(p, q).into()
}

#[unsafe(no_mangle)]
pub extern "C" fn umb_point_mul(p: Point, m: f64) -> PointAnswer
    ensures { result ≡ point_answer (scaled_or_refusal p m) }
{
    point::scaling(p, m).into()
}

#[unsafe(no_mangle)]
pub extern "C" fn umb_point_ortho(p: Point) -> PointAnswer
    ensures { result ≡ point_answer (ortho_or_refusal p) }
{
    point::ortho(p).into()
}

#[unsafe(no_mangle)]
pub extern "C" fn umb_point_dot(p: Point, q: Point) -> Real
    ensures { result ≡ real (dot_or_refusal p q) }
{
    point::dot(p, q).into()
}

#[unsafe(no_mangle)]
pub extern "C" fn umb_point_cross(p: Point, q: Point) -> Real
    ensures { result ≡ real (cross_or_refusal p q) }
{
    point::cross(p, q).into()
}
