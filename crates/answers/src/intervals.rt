// Operations on intervals: 10 to 17.
ghost use Rattle.std.specs.Prelude.{◌≡◌};
ghost use Rattle.answers.specs.Reply.{reply_line};
ghost use Rattle.answers.specs.Table.{interval_op};

use crate::reply::{only, reply};
use crate::request::{float_at, interval_at};
use crate::written::Line;
use plane::interval;

#[tactic(auto, unfolding(crate::specs::Table::interval_op), using(crate::proofs::Listed::listed))]
pub fn interval_op(op: u64, s: &[u8], line: &mut Line)
    ensures { line.new ≡ reply_line (interval_op op s.now) }
{
    match op {
        10 => reply(interval::is_empty(interval_at(s, 1)), line),
        11 => reply(interval::contains(interval_at(s, 1), float_at(s, 3)), line),
        12 => reply(
            interval::contains_interval(interval_at(s, 1), interval_at(s, 3)),
            line,
        ),
        13 => reply(
            interval::intersects(interval_at(s, 1), interval_at(s, 3)),
            line,
        ),
        14 => reply(interval::union(interval_at(s, 1), interval_at(s, 3)), line),
        15 => reply(
            interval::intersection(interval_at(s, 1), interval_at(s, 3)),
            line,
        ),
        17 => reply(
            interval::from_point_pair(float_at(s, 1), float_at(s, 2)),
            line,
        ),
        _ => only(255, line),
    }
}
