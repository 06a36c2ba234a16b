// The line tests and the step: 50 to 55.
ghost use Rattle.std.specs.Prelude.{◌≡◌};
ghost use Rattle.answers.specs.Reply.{reply_line};
ghost use Rattle.answers.specs.Table.{line_op};

use crate::reply::{only, reply};
use crate::request::{axis_at, float_at, number_at, uv_at, vector_at};
use crate::written::Line;

#[tactic(auto, unfolding(crate::specs::Table::line_op), using(crate::proofs::Listed::listed))]
pub fn line_op(op: u64, s: &[u8], line: &mut Line)
    ensures { line.new ≡ reply_line (line_op op s.now) }
{
    match op {
        50 => reply(
            line::sum_equal(float_at(s, 1), float_at(s, 2), float_at(s, 3)),
            line,
        ),
        51 => reply(line::intersects_face(vector_at(s, 1)), line),
        52 => reply(line::intersects_opposite_edges(vector_at(s, 1)), line),
        53 => reply(line::exit_axis(vector_at(s, 1)), line),
        54 => reply(line::exit_point(vector_at(s, 1), axis_at(s, 4)), line),
        55 => reply(
            line::next_face(
                number_at(s, 1),
                uv_at(s, 2),
                axis_at(s, 4),
                vector_at(s, 5),
                number_at(s, 8),
            ),
            line,
        ),
        _ => only(255, line),
    }
}
