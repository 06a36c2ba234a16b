// Operations on two rectangles: 26 to 29.
ghost use Rattle.std.specs.Prelude.{◌≡◌};
ghost use Rattle.answers.specs.Reply.{reply_line};
ghost use Rattle.answers.specs.Table.{pair_op};

use crate::reply::{only, reply};
use crate::request::rect_at;
use crate::written::Line;
use plane::rect;

#[tactic(auto, unfolding(crate::specs::Table::pair_op), using(crate::proofs::Listed::listed))]
pub fn pair_op(op: u64, s: &[u8], line: &mut Line)
    ensures { line.new ≡ reply_line (pair_op op s.now) }
{
    match op {
        26 => reply(rect::contains(rect_at(s, 1), rect_at(s, 5)), line),
        27 => reply(rect::intersects(rect_at(s, 1), rect_at(s, 5)), line),
        28 => reply(rect::union(rect_at(s, 1), rect_at(s, 5)), line),
        29 => reply(rect::intersection(rect_at(s, 1), rect_at(s, 5)), line),
        _ => only(255, line),
    }
}
