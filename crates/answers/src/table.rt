// The reply to a request, by its operation: document 01's numbers, each of which an enum would only name a second time.
ghost use Rattle.std.specs.Prelude.{◌≡◌};
ghost use Rattle.answers.specs.Reply.{reply_line};
ghost use Rattle.answers.specs.Table.{reply_of};

use crate::axes::axis_op;
use crate::cuts::cut_op;
use crate::faces::face_op;
use crate::intervals::interval_op;
use crate::lines::line_op;
use crate::pairs::pair_op;
use crate::points::point_op;
use crate::rects::rect_op;
use crate::reply::only;
use crate::request::word;
use crate::stretched::stretch_op;
use crate::written::Line;

#[tactic(auto, unfolding(crate::specs::Table::reply_of), using(crate::proofs::Listed::listed))]
pub fn reply_of(s: &[u8], line: &mut Line)
    ensures { line.new ≡ reply_line (reply_of s.now) }
{
    let op = word(s, 0);
    match op {
        0..=9 => point_op(op, s, line),
        10..=18 => interval_op(op, s, line),
        19..=25 => rect_op(op, s, line),
        26..=29 => pair_op(op, s, line),
        30..=39 => cut_op(op, s, line),
        40..=44 => face_op(op, s, line),
        45..=49 => axis_op(op, s, line),
        50..=59 => line_op(op, s, line),
        60..=63 => stretch_op(op, s, line),
        _ => only(255, line),
    }
}
