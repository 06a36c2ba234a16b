// The walk along a line from face to face.
ghost use Rattle.std.specs.Prelude.{◌≡◌, length};
ghost use Rattle.walk.specs.Answers.{walk_or_refusal, buffer_after};
ghost use Rattle.umblacet.specs.Answers.{walk_answer};

use crate::answers::WalkAnswer;
use cube::Vector;
use cube::compute::Uv;

#[unsafe(no_mangle)]
pub extern "C" fn umb_walk(
    face: u8,
    a: Uv,
    target: u8,
    b: Uv,
    normal: Vector,
    whose: u32,
    out: &mut [u8],
) -> WalkAnswer
    ensures answer { result ≡ walk_answer (walk_or_refusal (length out.old) face a target b normal) }
    ensures bytes { out.new ≡ buffer_after out.old face a target b normal whose }
{
    walk::walk(face, a, target, b, normal, whose, out).into()
}
