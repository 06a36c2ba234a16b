// Closed intervals of the line.
#![tactic(auto, using(float::proofs::Choice::branches, float::proofs::Choice::asks), unfolding(crate::specs::Interval::is_empty, crate::specs::Interval::holds, crate::specs::Interval::contains, crate::specs::Interval::intersects, crate::specs::Interval::lesser, crate::specs::Interval::greater, crate::specs::Interval::union_of, crate::specs::Interval::intersection_of, crate::specs::Interval::between, crate::specs::Interval::end_of, crate::specs::Interval::finite_interval))]

ghost use Rattle.std.specs.Prelude.{◌≡◌};
ghost use Rattle.plane.specs.Interval.{is_empty, holds, contains, intersects, lesser, greater, union_of, intersection_of, between, end_of, finite_interval};
ghost use Rattle.plane.specs.Entries.{is_empty_or_refusal, holds_or_refusal, contains_or_refusal, intersects_or_refusal, union_or_refusal, intersection_or_refusal, between_or_refusal};

use answer::{Refusal, need};

#[repr(C)]
#[derive(Clone, Copy, Debug, Default, PartialEq)]
pub struct Interval {
    pub lo: f64,
    pub hi: f64,
}

// Whether lo > hi.
pub fn is_empty(i: Interval) -> Result<bool, Refusal>
    ensures { result ≡ is_empty_or_refusal i }
{
    need(i.is_finite(), Refusal::NotFinite)?;
    Ok(i.is_empty())
}

// Whether i holds the number x.
pub fn contains(i: Interval, x: f64) -> Result<bool, Refusal>
    ensures { result ≡ holds_or_refusal i x }
{
    need(i.is_finite() && x.is_finite(), Refusal::NotFinite)?;
    Ok(i.contains(x))
}

// Whether j lies in i; an empty one lies in every interval.
pub fn contains_interval(i: Interval, j: Interval) -> Result<bool, Refusal>
    ensures { result ≡ contains_or_refusal i j }
{
    need(i.is_finite() && j.is_finite(), Refusal::NotFinite)?;
    Ok(i.contains_interval(j))
}

// Whether i and j share a point.
pub fn intersects(i: Interval, j: Interval) -> Result<bool, Refusal>
    ensures { result ≡ intersects_or_refusal i j }
{
    need(i.is_finite() && j.is_finite(), Refusal::NotFinite)?;
    Ok(i.intersects(j))
}

// The least interval with all of i and j; i's end where two compare equal.
pub fn union(i: Interval, j: Interval) -> Result<Interval, Refusal>
    ensures { result ≡ union_or_refusal i j }
{
    need(i.is_finite() && j.is_finite(), Refusal::NotFinite)?;
    Ok(i.union(j))
}

// What i and j share; i's end where two compare equal.
pub fn intersection(i: Interval, j: Interval) -> Result<Interval, Refusal>
    ensures { result ≡ intersection_or_refusal i j }
{
    need(i.is_finite() && j.is_finite(), Refusal::NotFinite)?;
    Ok(i.intersection(j))
}

// The interval of two numbers; a..a where they compare equal.
pub fn from_point_pair(a: f64, b: f64) -> Result<Interval, Refusal>
    ensures { result ≡ between_or_refusal a b }
{
    need(a.is_finite() && b.is_finite(), Refusal::NotFinite)?;
    Ok(Interval::from_point_pair(a, b))
}

// ---- what computes

impl Interval {
    pub const EMPTY: Interval = Interval { lo: 1.0, hi: 0.0 };

    pub fn from_point_pair(a: f64, b: f64) -> Self
        ensures { result ≡ between a b }
    {
        Interval {
            lo: min(a, b),
            hi: max(a, b),
        }
    }

    pub fn is_empty(self) -> bool
        ensures { result ≡ is_empty self }
    {
        self.hi < self.lo
    }

    pub fn contains(self, x: f64) -> bool
        ensures { result ≡ holds self x }
    {
        self.lo <= x && x <= self.hi
    }

    pub fn contains_interval(self, other: Interval) -> bool
        ensures { result ≡ contains self other }
    {
        if other.is_empty() {
            return true;
        }
        self.lo <= other.lo && other.hi <= self.hi
    }

    pub fn intersects(self, other: Interval) -> bool
        ensures { result ≡ intersects self other }
    {
        if self.lo <= other.lo {
            return other.lo <= self.hi && other.lo <= other.hi;
        }
        self.lo <= other.hi && self.lo <= self.hi
    }

    pub fn union(self, other: Interval) -> Interval
        ensures { result ≡ union_of self other }
    {
        if self.is_empty() {
            return other;
        }
        if other.is_empty() {
            return self;
        }
        Interval {
            lo: min(self.lo, other.lo),
            hi: max(self.hi, other.hi),
        }
    }

    pub fn intersection(self, other: Interval) -> Interval
        ensures { result ≡ intersection_of self other }
    {
        Interval {
            lo: max(self.lo, other.lo),
            hi: min(self.hi, other.hi),
        }
    }

    // The high end or the low.
    pub fn at_end(self, high: bool) -> f64
        ensures { result ≡ end_of self high }
    {
        if high { self.hi } else { self.lo }
    }

    pub fn is_finite(self) -> bool
        ensures { result ≡ finite_interval self }
    {
        self.lo.is_finite() && self.hi.is_finite()
    }
}

// `f64::min` and `f64::max` leave open which of two equal zeros they give.

// The lesser of the two; x where they compare equal.
fn min(x: f64, y: f64) -> f64
    ensures { result ≡ lesser x y }
{
    if y < x { y } else { x }
}

// The greater of the two; x where they compare equal.
fn max(x: f64, y: f64) -> f64
    ensures { result ≡ greater x y }
{
    if x < y { y } else { x }
}
