// What is refused, in document 01's order for the cube: 4, 2, 5, then 1.
ghost use Rattle.std.specs.Prelude.{◌≡◌};
ghost use Rattle.answer.specs.Refusal.{done};
ghost use Rattle.cube.specs.Refuse.{cube_refusal, vector_refusal, neighbour_refusal};

use crate::vector::Vector;
use answer::{Refusal, need};

// Of a vector whose face is asked.
pub fn vector(r: Vector) -> Result<(), Refusal>
    ensures { result ≡ vector_refusal r }
{
    in_order(true, r.is_finite(), !r.is_zero())
}

// Of a face, an axis and a direction.
pub fn neighbour(face: u8, axis: u8, direction: u8) -> Result<(), Refusal>
    ensures { result ≡ neighbour_refusal face axis direction }
{
    need(face <= 5 && axis <= 2 && direction <= 1, Refusal::BadFace)
}

// 4, 2, then 5, in one place; `clip` and `trace` have orders of their own, of other refusals.
pub fn in_order(faces: bool, floats: bool, some: bool) -> Result<(), Refusal>
    ensures { result ≡ cube_refusal faces floats some done }
{
    need(faces, Refusal::BadFace)?;
    need(floats, Refusal::NotFinite)?;
    need(some, Refusal::Zero)
}
