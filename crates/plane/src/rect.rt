// Rectangles: a closed interval on each axis.
#![tactic(auto, using(float::proofs::Choice::branches, float::proofs::Choice::asks), unfolding(crate::specs::Rect::contains_point, crate::specs::Rect::contains_rect, crate::specs::Rect::intersects_rect, crate::specs::Rect::or_empty, crate::specs::Rect::finite_rect))]

ghost use Rattle.std.specs.Prelude.{◌≡◌};
ghost use Rattle.plane.specs.Rect.{box_of, corner_of, vertices_of, is_empty_rect, contains_point, contains_rect, intersects_rect, union_rect, intersection_rect, finite_rect};
ghost use Rattle.plane.specs.Entries.{box_or_refusal, vertices_or_refusal, vertex_or_refusal, lo_or_refusal, hi_or_refusal, is_empty_rect_or_refusal, contains_point_or_refusal, contains_rect_or_refusal, intersects_rect_or_refusal, union_rect_or_refusal, intersection_rect_or_refusal};

use crate::interval::Interval;
use crate::point::Point;
use answer::{Refusal, need};

#[repr(C)]
#[derive(Clone, Copy, Debug, Default, PartialEq)]
pub struct Rect {
    pub x: Interval,
    pub y: Interval,
}

// The box of two points; a's coordinate where two compare equal.
pub fn from_points(a: Point, b: Point) -> Result<Rect, Refusal>
    ensures { result ≡ box_or_refusal a b }
{
    need(a.is_finite() && b.is_finite(), Refusal::NotFinite)?;
    Ok(Rect::from_points(a, b))
}

// The four corners, from the low one against the clock.
pub fn vertices(r: Rect) -> Result<[Point; 4], Refusal>
    ensures { result ≡ vertices_or_refusal r }
{
    need(r.is_finite(), Refusal::NotFinite)?;
    Ok(r.vertices())
}

// The corner at i along x and j along y: 0 is low, any other number high.
pub fn vertex_ij(r: Rect, i: u64, j: u64) -> Result<Point, Refusal>
    ensures { result ≡ vertex_or_refusal r i j }
{
    need(r.is_finite(), Refusal::NotFinite)?;
    Ok(r.vertex(i != 0, j != 0))
}

pub fn lo(r: Rect) -> Result<Point, Refusal>
    ensures { result ≡ lo_or_refusal r }
{
    need(r.is_finite(), Refusal::NotFinite)?;
    Ok(r.vertex(false, false))
}

pub fn hi(r: Rect) -> Result<Point, Refusal>
    ensures { result ≡ hi_or_refusal r }
{
    need(r.is_finite(), Refusal::NotFinite)?;
    Ok(r.vertex(true, true))
}

// Whether x is empty; y is not asked.
pub fn is_empty(r: Rect) -> Result<bool, Refusal>
    ensures { result ≡ is_empty_rect_or_refusal r }
{
    need(r.is_finite(), Refusal::NotFinite)?;
    Ok(r.is_empty())
}

pub fn contains_point(r: Rect, p: Point) -> Result<bool, Refusal>
    ensures { result ≡ contains_point_or_refusal r p }
{
    need(r.is_finite() && p.is_finite(), Refusal::NotFinite)?;
    Ok(r.contains_point(p))
}

pub fn contains(r: Rect, q: Rect) -> Result<bool, Refusal>
    ensures { result ≡ contains_rect_or_refusal r q }
{
    need(r.is_finite() && q.is_finite(), Refusal::NotFinite)?;
    Ok(r.contains(q))
}

pub fn intersects(r: Rect, q: Rect) -> Result<bool, Refusal>
    ensures { result ≡ intersects_rect_or_refusal r q }
{
    need(r.is_finite() && q.is_finite(), Refusal::NotFinite)?;
    Ok(r.intersects(q))
}

pub fn union(r: Rect, q: Rect) -> Result<Rect, Refusal>
    ensures { result ≡ union_rect_or_refusal r q }
{
    need(r.is_finite() && q.is_finite(), Refusal::NotFinite)?;
    Ok(r.union(q))
}

// What both share; `Rect::EMPTY` where either axis comes out empty.
pub fn intersection(r: Rect, q: Rect) -> Result<Rect, Refusal>
    ensures { result ≡ intersection_rect_or_refusal r q }
{
    need(r.is_finite() && q.is_finite(), Refusal::NotFinite)?;
    Ok(r.intersection(q))
}

// ---- what computes

impl Rect {
    pub const EMPTY: Rect = Rect {
        x: Interval::EMPTY,
        y: Interval::EMPTY,
    };

    pub fn from_points(a: Point, b: Point) -> Self
        ensures { result ≡ box_of a b }
    {
        Rect {
            x: Interval::from_point_pair(a.x, b.x),
            y: Interval::from_point_pair(a.y, b.y),
        }
    }

    // The corner on the high side of x where i, on the high side of y where j.
    pub fn vertex(self, i: bool, j: bool) -> Point
        ensures { result ≡ corner_of self i j }
    {
        Point {
            x: self.x.at_end(i),
            y: self.y.at_end(j),
        }
    }

    pub fn vertices(self) -> [Point; 4]
        ensures { result ≡ vertices_of self }
    {
        [
            self.vertex(false, false),
            self.vertex(true, false),
            self.vertex(true, true),
            self.vertex(false, true),
        ]
    }

    pub fn is_empty(self) -> bool
        ensures { result ≡ is_empty_rect self }
    {
        self.x.is_empty()
    }

    pub fn contains_point(self, p: Point) -> bool
        ensures { result ≡ contains_point self p }
    {
        self.x.contains(p.x) && self.y.contains(p.y)
    }

    pub fn contains(self, other: Rect) -> bool
        ensures { result ≡ contains_rect self other }
    {
        self.x.contains_interval(other.x) && self.y.contains_interval(other.y)
    }

    pub fn intersects(self, other: Rect) -> bool
        ensures { result ≡ intersects_rect self other }
    {
        self.x.intersects(other.x) && self.y.intersects(other.y)
    }

    pub fn union(self, other: Rect) -> Rect
        ensures { result ≡ union_rect self other }
    {
        Rect {
            x: self.x.union(other.x),
            y: self.y.union(other.y),
        }
    }

    pub fn intersection(self, other: Rect) -> Rect
        ensures { result ≡ intersection_rect self other }
    {
        let x = self.x.intersection(other.x);
        let y = self.y.intersection(other.y);
        if x.is_empty() || y.is_empty() {
            return Rect::EMPTY;
        }
        Rect { x, y }
    }

    pub fn is_finite(self) -> bool
        ensures { result ≡ finite_rect self }
    {
        self.x.is_finite() && self.y.is_finite()
    }
}
