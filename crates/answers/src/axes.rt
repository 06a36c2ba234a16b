// The axes and neighbours of a face: 45 to 49.
ghost use Rattle.std.specs.Prelude.{◌≡◌};
ghost use Rattle.answers.specs.Reply.{reply_line};
ghost use Rattle.answers.specs.Table.{axis_op};

use crate::reply::{only, reply};
use crate::request::{float_at, number_at};
use crate::written::Line;

#[tactic(auto, unfolding(crate::specs::Table::axis_op), using(crate::proofs::Listed::listed))]
pub fn axis_op(op: u64, s: &[u8], line: &mut Line)
    ensures { line.new ≡ reply_line (axis_op op s.now) }
{
    match op {
        45 => reply(
            cube::uvw_face(number_at(s, 1), number_at(s, 2), number_at(s, 3)),
            line,
        ),
        46 => reply(cube::u_axis(number_at(s, 1)), line),
        47 => reply(cube::v_axis(number_at(s, 1)), line),
        48 => reply(cube::unorm(number_at(s, 1), float_at(s, 2)), line),
        49 => reply(cube::vnorm(number_at(s, 1), float_at(s, 2)), line),
        _ => only(255, line),
    }
}
