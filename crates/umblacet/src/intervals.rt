// Closed intervals of the line.
ghost use Rattle.std.specs.Prelude.{◌≡◌};
ghost use Rattle.plane.specs.Entries.{is_empty_or_refusal, holds_or_refusal, contains_or_refusal, intersects_or_refusal, union_or_refusal, intersection_or_refusal, between_or_refusal};
ghost use Rattle.umblacet.specs.Answers.{interval_answer, yes_no};

use crate::answers::{IntervalAnswer, YesNo};
use plane::{Interval, interval};

#[unsafe(no_mangle)]
pub extern "C" fn umb_interval_is_empty(i: Interval) -> YesNo
    ensures { result ≡ yes_no (is_empty_or_refusal i) }
{
    interval::is_empty(i).into()
}

#[unsafe(no_mangle)]
pub extern "C" fn umb_interval_contains(i: Interval, x: f64) -> YesNo
    ensures { result ≡ yes_no (holds_or_refusal i x) }
{
    interval::contains(i, x).into()
}

#[unsafe(no_mangle)]
pub extern "C" fn umb_interval_contains_interval(i: Interval, j: Interval) -> YesNo
    ensures { result ≡ yes_no (contains_or_refusal i j) }
{
    interval::contains_interval(i, j).into()
}

#[unsafe(no_mangle)]
pub extern "C" fn umb_interval_intersects(i: Interval, j: Interval) -> YesNo
    ensures { result ≡ yes_no (intersects_or_refusal i j) }
{
    interval::intersects(i, j).into()
}

#[unsafe(no_mangle)]
pub extern "C" fn umb_interval_union(i: Interval, j: Interval) -> IntervalAnswer
    ensures { result ≡ interval_answer (union_or_refusal i j) }
{
    interval::union(i, j).into()
}

#[unsafe(no_mangle)]
pub extern "C" fn umb_interval_intersection(i: Interval, j: Interval) -> IntervalAnswer
    ensures { result ≡ interval_answer (intersection_or_refusal i j) }
{
    interval::intersection(i, j).into()
}

#[unsafe(no_mangle)]
pub extern "C" fn umb_interval_from_point_pair(a: f64, b: f64) -> IntervalAnswer
    ensures { result ≡ interval_answer (between_or_refusal a b) }
{
    interval::from_point_pair(a, b).into()
}
