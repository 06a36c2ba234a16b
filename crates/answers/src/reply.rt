// The line of a reply: the number of an answer and, beside 0, the words of its value. It is written into a lent line,
// whatever stood there.
ghost use Rattle.std.specs.Prelude.{◌≡◌, ◌+◌, ◌*◌, ◌≤◌, ℕ, List, [], ◌++◌, length};
ghost use Rattle.std.proofs.Common.{rules};
ghost use Rattle.answers.specs.Number.{groups, numbered};
ghost use Rattle.answers.specs.Reply.{reply, only_reply, reply_line, yes_words, face_words, axis_words, float_words, point_words, points_words, corners_words, segment_words, interval_words, both_words, rect_words, uv_words, face_uv_words, vector_words, stretch_words, count_words, pair_words, counts_words};

use crate::written::Line;
use answer::Refusal;
use clip::Segment;
use clip::compute::Both;
use cube::compute::Uv;
use cube::{FaceUv, Vector};
use line::Axis;
use plane::{Interval, Point, Rect};
use stretch::Stretch;
use trace::Counts;

// A value that a line shows, in eight words at the most.
pub(crate) trait Words {
    ghost words: { Self → List ℕ };

    fn put(self, line: &mut Line)
        requires { length line.old + 17 * length (words self) ≤ 1334 }
        ensures text { line.new ≡ line.old ++ groups (words self) }
        ensures long { length line.new ≡ length line.old + 17 * length (words self) };

    ghost few: { (x : Self) → length (words x) ≤ 8 };
}

// The line of an answer: its value's words beside 0, or the refusal's number alone.
pub(crate) fn reply<T: Words + Copy>(answer: Result<T, Refusal>, line: &mut Line)
    ensures { line.new ≡ reply_line (reply T.words answer) }
{
    match answer {
        Ok(value) => ended(0, value, line),
        Err(refusal) => only(refusal.number(), line),
    }
}

// The line of a number alone.
pub(crate) fn only(number: u8, line: &mut Line)
    ensures { line.new ≡ reply_line (only_reply number) }
{
    ended(number, (), line);
}

// The line of a number and a value's words.
#[tactic(auto, unfolding(crate::specs::Reply::reply_line))]
pub(crate) fn ended<T: Words>(number: u8, value: T, line: &mut Line)
    ensures { line.new ≡ reply_line (record { number = number; words = T.words value }) }
{
    numbered(number, value, line);
    line.push(b'\n');
}

// A number and a value's words.
pub(crate) fn numbered<T: Words>(number: u8, value: T, line: &mut Line)
    ensures text { line.new ≡ numbered number (T.words value) }
    ensures long { length line.new ≤ 3 + 17 * length (T.words value) }
    ensures most { length line.new ≤ 139 }
{
    line.clear();
    line.push_number(number);
    value.put(line);
}

impl Words for () {
    ghost words = { λ _. [] };

    ghost few = { Prim.search rules };

    fn put(self, _line: &mut Line) {}
}

impl Words for bool {
    ghost words = { yes_words };

    ghost few = { Prim.search rules };

    fn put(self, line: &mut Line) {
        line.push_word(u64::from(self));
    }
}

// A face.
impl Words for u8 {
    ghost words = { face_words };

    ghost few = { Prim.search rules };

    fn put(self, line: &mut Line) {
        line.push_word(u64::from(self));
    }
}

impl Words for Axis {
    ghost words = { axis_words };

    ghost few = { Prim.search rules };

    fn put(self, line: &mut Line) {
        line.push_word(u64::from(u8::from(self)));
    }
}

impl Words for f64 {
    ghost words = { float_words };

    ghost few = { Prim.search rules };

    fn put(self, line: &mut Line) {
        line.push_float(self);
    }
}

impl Words for Point {
    ghost words = { point_words };

    ghost few = { Prim.search rules };

    fn put(self, line: &mut Line) {
        line.push_float(self.x);
        line.push_float(self.y);
    }
}

// Two corners.
impl Words for (Point, Point) {
    ghost words = { points_words };

    ghost few = { Prim.search rules };

    fn put(self, line: &mut Line) {
        self.0.put(line);
        self.1.put(line);
    }
}

// Four corners.
impl Words for [Point; 4] {
    ghost words = { corners_words };

    ghost few = { Prim.search rules };

    fn put(self, line: &mut Line) {
        let [a, b, c, d] = self;
        (a, b).put(line);
        (c, d).put(line);
    }
}

impl Words for Segment {
    ghost words = { segment_words };

    ghost few = { Prim.search rules };

    fn put(self, line: &mut Line) {
        line.push_float(self.ax);
        line.push_float(self.ay);
        line.push_float(self.bx);
        line.push_float(self.by);
    }
}

impl Words for Interval {
    ghost words = { interval_words };

    ghost few = { Prim.search rules };

    fn put(self, line: &mut Line) {
        line.push_float(self.lo);
        line.push_float(self.hi);
    }
}

impl Words for Both {
    ghost words = { both_words };

    ghost few = { Prim.search rules };

    fn put(self, line: &mut Line) {
        self.this.put(line);
        self.other.put(line);
    }
}

impl Words for Rect {
    ghost words = { rect_words };

    ghost few = { Prim.search rules };

    fn put(self, line: &mut Line) {
        line.push_float(self.x.lo);
        line.push_float(self.y.lo);
        line.push_float(self.x.hi);
        line.push_float(self.y.hi);
    }
}

impl Words for Uv {
    ghost words = { uv_words };

    ghost few = { Prim.search rules };

    fn put(self, line: &mut Line) {
        line.push_float(self.u);
        line.push_float(self.v);
    }
}

impl Words for FaceUv {
    ghost words = { face_uv_words };

    ghost few = { Prim.search rules };

    fn put(self, line: &mut Line) {
        line.push_word(u64::from(self.face));
        self.at.put(line);
    }
}

impl Words for Vector {
    ghost words = { vector_words };

    ghost few = { Prim.search rules };

    fn put(self, line: &mut Line) {
        line.push_float(self.x);
        line.push_float(self.y);
        line.push_float(self.z);
    }
}

// A count.
impl Words for usize {
    ghost words = { count_words };

    ghost few = { Prim.search rules };

    fn put(self, line: &mut Line) {
        line.push_word(self as u64);
    }
}

impl Words for (usize, usize) {
    ghost words = { pair_words };

    ghost few = { Prim.search rules };

    fn put(self, line: &mut Line) {
        line.push_word(self.0 as u64);
        line.push_word(self.1 as u64);
    }
}

impl Words for Counts {
    ghost words = { counts_words };

    ghost few = { Prim.search rules };

    fn put(self, line: &mut Line) {
        line.push_word(self.kept as u64);
        line.push_word(self.missed as u64);
        line.push_word(self.refused as u64);
        line.push_word(self.edges as u64);
    }
}

impl Words for Stretch {
    ghost words = { stretch_words };

    ghost few = { Prim.search rules };

    fn put(self, line: &mut Line) {
        line.push_word(self.first as u64);
        line.push_word(self.count as u64);
    }
}
