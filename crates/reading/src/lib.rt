// The window and the samples out of bytes: floats as their bits, little-endian.
#![tactic(auto)]

ghost use Rattle.std.specs.Prelude.{◌≡◌, ◌+◌, ◌^◌, ◌<◌, ◌≤◌, leb, length};
ghost use Rattle.float.specs.Choice.{when◌then◌else◌};
ghost use Rattle.reading.specs.Samples.{float_at, point_at, window_at, window_of, floats_in, floats_from, floats_into};

use plane::{Interval, Point, Rect};

// The floats of the whole samples in s, from the place `from` of out on. Gives how many places are taken
// with those before, or 0 with out as it was where there is no room; no Option, since every caller has the
// room and takes so many places.
pub fn put_samples(s: &[u8], out: &mut [f64], from: usize) -> usize
    ensures count { result ≡ (when leb (from + floats_in s.now) (length out.old) then from + floats_in s.now else 0) }
    ensures floats { out.new ≡ (when leb (from + floats_in s.now) (length out.old) then floats_into out.old from (floats_from s.now 0 (floats_in s.now)) else out.old) }
    ensures within { result ≤ length out.new }
{
    let n = s.len() / 16 * 2;
    if out.len() < from || out.len() - from < n {
        return 0;
    }
    for i in 0..n {
        out[from + i] = float_at(s, 8 * i);
    }
    from + n
}

// The window that the bytes begin with.
pub fn window_of(s: &[u8]) -> Rect
    ensures { result ≡ window_of s.now }
{
    window_at(s, 0)
}

// The window at a place: the low corner, then the high one. With a place below 2^32 each that follows is one too.
pub fn window_at(s: &[u8], at: u32) -> Rect
    ensures { result ≡ window_at s.now at }
{
    let at = at as usize;
    Rect {
        x: Interval {
            lo: float_at(s, at),
            hi: float_at(s, at + 16),
        },
        y: Interval {
            lo: float_at(s, at + 8),
            hi: float_at(s, at + 24),
        },
    }
}

// The point at a place: x, then y.
pub fn point_at(s: &[u8], at: u32) -> Point
    ensures { result ≡ point_at s.now at }
{
    let at = at as usize;
    Point {
        x: float_at(s, at),
        y: float_at(s, at + 8),
    }
}

// The float at a place; 0 where its 8 bytes are not all there.
pub fn float_at(s: &[u8], at: usize) -> f64
    ensures { result ≡ float_at s.now at }
{
    float::from_bits(buffer::word_at(s, at))
}
