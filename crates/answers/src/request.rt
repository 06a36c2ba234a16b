// The arguments of a request, by the place of their first word: 0 is the operation. Each call names its place, and the check
// bounds it; a type for a place would be tested where there is nothing to test. `reading` has these by bytes, and no words.
#![tactic(auto, unfolding(crate::specs::Request::float_at, crate::specs::Request::point_at, crate::specs::Request::interval_at, crate::specs::Request::rect_at, crate::specs::Request::uv_at, crate::specs::Request::vector_at, crate::specs::Request::floats_at, crate::specs::Request::whose_at))]

ghost use Rattle.std.specs.Prelude.{◌≡◌, ◌+◌, ◌≤◌, ◌<◌};
ghost use Rattle.answers.specs.Request.{word_of, word_up_to, float_at, point_at, interval_at, rect_at, uv_at, vector_at, floats_at, number_at, whose_at, yes_at, axis_at};

use cube::Vector;
use cube::compute::Uv;
use line::Axis;
use plane::{Interval, Point, Rect};

pub(crate) fn word(s: &[u8], k: usize) -> u64
    requires { k < 24 }
    ensures { result ≡ word_of s.now k }
{
    buffer::word_at(s, 8 * k)
}

pub(crate) fn float_at(s: &[u8], k: usize) -> f64
    requires { k < 24 }
    ensures { result ≡ float_at s.now k }
{
    reading::float_at(s, 8 * k)
}

pub(crate) fn point_at(s: &[u8], k: usize) -> Point
    requires { k < 23 }
    ensures { result ≡ point_at s.now k }
{
    Point {
        x: float_at(s, k),
        y: float_at(s, k + 1),
    }
}

pub(crate) fn interval_at(s: &[u8], k: usize) -> Interval
    requires { k < 23 }
    ensures { result ≡ interval_at s.now k }
{
    Interval {
        lo: float_at(s, k),
        hi: float_at(s, k + 1),
    }
}

// The low corner, then the high one.
pub(crate) fn rect_at(s: &[u8], k: usize) -> Rect
    requires { k < 21 }
    ensures { result ≡ rect_at s.now k }
{
    let lo = point_at(s, k);
    let hi = point_at(s, k + 2);
    Rect {
        x: Interval { lo: lo.x, hi: hi.x },
        y: Interval { lo: lo.y, hi: hi.y },
    }
}

pub(crate) fn uv_at(s: &[u8], k: usize) -> Uv
    requires { k < 23 }
    ensures { result ≡ uv_at s.now k }
{
    Uv {
        u: float_at(s, k),
        v: float_at(s, k + 1),
    }
}

pub(crate) fn vector_at(s: &[u8], k: usize) -> Vector
    requires { k < 22 }
    ensures { result ≡ vector_at s.now k }
{
    Vector {
        x: float_at(s, k),
        y: float_at(s, k + 1),
        z: float_at(s, k + 2),
    }
}

// The sixteen from a place on.
pub(crate) fn floats_at(s: &[u8], k: usize) -> [f64; 16]
    requires { k < 9 }
    ensures { result ≡ floats_at s.now k }
{
    let mut floats = [0.0; 16];
    for i in 0..16 {
        floats[i] = float_at(s, k + i);
    }
    floats
}

// The word, or the most where it is larger.
pub(crate) fn word_up_to(s: &[u8], k: usize, most: u64) -> usize
    requires { k < 24 }
    ensures { (result ≡ word_up_to s.now k most) × (result ≤ most) }
{
    word(s, k).min(most) as usize
}

// A face, axis or direction: 255, above every limit, for a word above it.
pub(crate) fn number_at(s: &[u8], k: usize) -> u8
    requires { k < 24 }
    ensures { result ≡ number_at s.now k }
{
    word(s, k).min(255) as u8
}

// A trace number: the word modulo 2^32.
pub(crate) fn whose_at(s: &[u8], k: usize) -> u32
    requires { k < 24 }
    ensures { result ≡ whose_at s.now k }
{
    (word(s, k) % 0x1_0000_0000) as u32
}

pub(crate) fn yes_at(s: &[u8], k: usize) -> bool
    requires { k < 24 }
    ensures { result ≡ yes_at s.now k }
{
    word(s, k) != 0
}

// U for 0, V for any other word.
pub(crate) fn axis_at(s: &[u8], k: usize) -> Axis
    requires { k < 24 }
    ensures { result ≡ axis_at s.now k }
{
    Axis::from(number_at(s, k))
}
