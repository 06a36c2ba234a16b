// Points of the plane.
#![tactic(auto, using(float::proofs::Choice::branches, float::proofs::Choice::asks), unfolding(crate::specs::Point::finite_point))]

ghost use Rattle.std.specs.Prelude.{◌≡◌};
ghost use Rattle.plane.specs.Point.{sum_of, difference_of, scaled_by, ortho_of, dot_of, cross_of, finite_point};
ghost use Rattle.plane.specs.Entries.{new_or_refusal, ortho_or_refusal, dot_or_refusal, cross_or_refusal, sum_or_refusal, difference_or_refusal, scaled_or_refusal};

use answer::{Refusal, need};
use std::ops::{Add, Mul, Sub};

#[repr(C)]
#[derive(Clone, Copy, Debug, Default, PartialEq)]
pub struct Point {
    pub x: f64,
    pub y: f64,
}

// The point at x, y.
pub fn new(x: f64, y: f64) -> Result<Point, Refusal>
    ensures { result ≡ new_or_refusal x y }
{
    let p = Point { x, y };
    need(p.is_finite(), Refusal::NotFinite)?;
    Ok(p)
}

// The point a quarter turn against the clock from p.
pub fn ortho(p: Point) -> Result<Point, Refusal>
    ensures { result ≡ ortho_or_refusal p }
{
    need(p.is_finite(), Refusal::NotFinite)?;
    Ok(p.ortho())
}

pub fn dot(p: Point, q: Point) -> Result<f64, Refusal>
    ensures { result ≡ dot_or_refusal p q }
{
    need(p.is_finite() && q.is_finite(), Refusal::NotFinite)?;
    Ok(p.dot(q))
}

pub fn cross(p: Point, q: Point) -> Result<f64, Refusal>
    ensures { result ≡ cross_or_refusal p q }
{
    need(p.is_finite() && q.is_finite(), Refusal::NotFinite)?;
    Ok(p.cross(q))
}

pub fn sum(p: Point, q: Point) -> Result<Point, Refusal>
    ensures { result ≡ sum_or_refusal p q }
{
    need(p.is_finite() && q.is_finite(), Refusal::NotFinite)?;
    Ok(p + q)
}

pub fn difference(p: Point, q: Point) -> Result<Point, Refusal>
    ensures { result ≡ difference_or_refusal p q }
{
    need(p.is_finite() && q.is_finite(), Refusal::NotFinite)?;
    Ok(p - q)
}

pub fn scaling(p: Point, factor: f64) -> Result<Point, Refusal>
    ensures { result ≡ scaled_or_refusal p factor }
{
    need(p.is_finite() && factor.is_finite(), Refusal::NotFinite)?;
    Ok(p * factor)
}

// ---- what computes

impl Point {
    pub fn ortho(self) -> Point
        ensures { result ≡ ortho_of self }
    {
        Point {
            x: -self.y,
            y: self.x,
        }
    }

    pub fn dot(self, other: Point) -> f64
        ensures { result ≡ dot_of self other }
    {
        self.x * other.x + self.y * other.y
    }

    pub fn cross(self, other: Point) -> f64
        ensures { result ≡ cross_of self other }
    {
        self.x * other.y - self.y * other.x
    }

    pub fn is_finite(self) -> bool
        ensures { result ≡ finite_point self }
    {
        self.x.is_finite() && self.y.is_finite()
    }
}

impl Add for Point {
    type Output = Point;

    ghost add_gives = { λ p q r. r ≡ sum_of p q };

    fn add(self, rhs: Point) -> Point {
        Point {
            x: self.x + rhs.x,
            y: self.y + rhs.y,
        }
    }
}

impl Sub for Point {
    type Output = Point;

    ghost sub_gives = { λ p q r. r ≡ difference_of p q };

    fn sub(self, rhs: Point) -> Point {
        Point {
            x: self.x - rhs.x,
            y: self.y - rhs.y,
        }
    }
}

impl Mul<f64> for Point {
    type Output = Point;

    ghost mul_gives = { λ p factor r. r ≡ scaled_by p factor };

    fn mul(self, rhs: f64) -> Point {
        Point {
            x: self.x * rhs,
            y: self.y * rhs,
        }
    }
}
