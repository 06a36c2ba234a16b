// Operations on a rectangle: 19 to 25.
ghost use Rattle.std.specs.Prelude.{◌≡◌};
ghost use Rattle.answers.specs.Reply.{reply_line};
ghost use Rattle.answers.specs.Table.{rect_op, two_corners};

use crate::reply::{only, reply};
use crate::request::{point_at, rect_at, word};
use crate::written::Line;
use answer::Refusal;
use plane::{Point, Rect, rect};

#[tactic(auto, unfolding(crate::specs::Table::rect_op), using(crate::proofs::Listed::listed))]
pub fn rect_op(op: u64, s: &[u8], line: &mut Line)
    ensures { line.new ≡ reply_line (rect_op op s.now) }
{
    match op {
        19 => reply(Ok(Rect::EMPTY), line),
        20 => reply(rect::from_points(point_at(s, 1), point_at(s, 3)), line),
        21 => reply(rect::vertices(rect_at(s, 1)), line),
        22 => reply(rect::vertex_ij(rect_at(s, 1), word(s, 5), word(s, 6)), line),
        23 => reply(two_corners(rect_at(s, 1)), line),
        24 => reply(rect::is_empty(rect_at(s, 1)), line),
        25 => reply(rect::contains_point(rect_at(s, 1), point_at(s, 5)), line),
        _ => only(255, line),
    }
}

// The low corner and the high one.
fn two_corners(r: Rect) -> Result<(Point, Point), Refusal>
    ensures { result ≡ two_corners r }
{
    Ok((rect::lo(r)?, rect::hi(r)?))
}
