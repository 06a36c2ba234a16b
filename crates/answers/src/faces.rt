// Operations on the faces: 40 to 44.
ghost use Rattle.std.specs.Prelude.{◌≡◌};
ghost use Rattle.answers.specs.Reply.{reply_line};
ghost use Rattle.answers.specs.Table.{face_op};

use crate::reply::{only, reply};
use crate::request::{float_at, number_at, vector_at};
use crate::written::Line;

#[tactic(auto, unfolding(crate::specs::Table::face_op), using(crate::proofs::Listed::listed))]
pub fn face_op(op: u64, s: &[u8], line: &mut Line)
    ensures { line.new ≡ reply_line (face_op op s.now) }
{
    match op {
        40 => reply(cube::face(vector_at(s, 1)), line),
        41 => reply(cube::xyz_to_face_uv(vector_at(s, 1)), line),
        42 => reply(cube::face_xyz_to_uv(number_at(s, 1), vector_at(s, 2)), line),
        43 => reply(
            cube::face_uv_to_xyz(number_at(s, 1), float_at(s, 2), float_at(s, 3)),
            line,
        ),
        44 => reply(
            cube::face_xyz_to_uvw(number_at(s, 1), vector_at(s, 2)),
            line,
        ),
        _ => only(255, line),
    }
}
