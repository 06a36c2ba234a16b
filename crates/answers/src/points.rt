// Operations on points: 1 to 7.
ghost use Rattle.std.specs.Prelude.{◌≡◌};
ghost use Rattle.answers.specs.Reply.{reply_line};
ghost use Rattle.answers.specs.Table.{point_op};

use crate::reply::{only, reply};
use crate::request::{float_at, point_at};
use crate::written::Line;
use plane::point;

#[tactic(auto, unfolding(crate::specs::Table::point_op), using(crate::proofs::Listed::listed))]
pub fn point_op(op: u64, s: &[u8], line: &mut Line)
    ensures { line.new ≡ reply_line (point_op op s.now) }
{
    match op {
        1 => reply(point::sum(point_at(s, 1), point_at(s, 3)), line),
        2 => reply(point::difference(point_at(s, 1), point_at(s, 3)), line),
        3 => reply(point::scaling(point_at(s, 1), float_at(s, 3)), line),
        4 => reply(point::ortho(point_at(s, 1)), line),
        5 => reply(point::dot(point_at(s, 1), point_at(s, 3)), line),
        6 => reply(point::cross(point_at(s, 1), point_at(s, 3)), line),
        7 => reply(point::new(float_at(s, 1), float_at(s, 2)), line),
        _ => only(255, line),
    }
}
