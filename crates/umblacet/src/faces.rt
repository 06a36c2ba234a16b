// The six faces of the cube.
ghost use Rattle.std.specs.Prelude.{◌≡◌};
ghost use Rattle.cube.specs.Entries.{face_or_refusal, face_uv_or_refusal, uv_or_refusal, xyz_or_refusal, uvw_or_refusal, neighbour_or_refusal, u_axis_or_refusal, v_axis_or_refusal, u_norm_or_refusal, v_norm_or_refusal};
ghost use Rattle.umblacet.specs.Answers.{face_answer, face_uv, uv_answer, vector_answer};

use crate::answers::{FaceAnswer, FaceUv, UvAnswer, VectorAnswer};
use cube::Vector;

#[unsafe(no_mangle)]
pub extern "C" fn umb_face(r: Vector) -> FaceAnswer
    ensures { result ≡ face_answer (face_or_refusal r) }
{
    cube::face(r).into()
}

#[unsafe(no_mangle)]
pub extern "C" fn umb_xyz_to_face_uv(r: Vector) -> FaceUv
    ensures { result ≡ face_uv (face_uv_or_refusal r) }
{
    cube::xyz_to_face_uv(r).into()
}

#[unsafe(no_mangle)]
pub extern "C" fn umb_face_xyz_to_uv(face: u8, r: Vector) -> UvAnswer
    ensures { result ≡ uv_answer (uv_or_refusal face r) }
{
    cube::face_xyz_to_uv(face, r).into()
}

#[unsafe(no_mangle)]
pub extern "C" fn umb_face_uv_to_xyz(face: u8, u: f64, v: f64) -> VectorAnswer
    ensures { result ≡ vector_answer (xyz_or_refusal face u v) }
{
    cube::face_uv_to_xyz(face, u, v).into()
}

#[unsafe(no_mangle)]
pub extern "C" fn umb_face_xyz_to_uvw(face: u8, r: Vector) -> VectorAnswer
    ensures { result ≡ vector_answer (uvw_or_refusal face r) }
{
    cube::face_xyz_to_uvw(face, r).into()
}

#[unsafe(no_mangle)]
pub extern "C" fn umb_uvw_face(face: u8, axis: u8, direction: u8) -> FaceAnswer
    ensures { result ≡ face_answer (neighbour_or_refusal face axis direction) }
{
    cube::uvw_face(face, axis, direction).into()
}

#[unsafe(no_mangle)]
pub extern "C" fn umb_u_axis(face: u8) -> VectorAnswer
    ensures { result ≡ vector_answer (u_axis_or_refusal face) }
{
    cube::u_axis(face).into()
}

#[unsafe(no_mangle)]
pub extern "C" fn umb_v_axis(face: u8) -> VectorAnswer
    ensures { result ≡ vector_answer (v_axis_or_refusal face) }
{
    cube::v_axis(face).into()
}

#[unsafe(no_mangle)]
pub extern "C" fn umb_unorm(face: u8, u: f64) -> VectorAnswer
    ensures { result ≡ vector_answer (u_norm_or_refusal face u) }
{
    cube::unorm(face, u).into()
}

#[unsafe(no_mangle)]
pub extern "C" fn umb_vnorm(face: u8, v: f64) -> VectorAnswer
    ensures { result ≡ vector_answer (v_norm_or_refusal face v) }
{
    cube::vnorm(face, v).into()
}
