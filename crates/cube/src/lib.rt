// The cube: its six faces, and vectors in their coordinates.
//
// A face is a number up to 5: 0, 1, 2 lie where x, y, z are positive, and 3, 4, 5 opposite. The
// functions here are the entries: each refuses in document 01's order (4, 2, 5, then 1), and else gives
// what `compute` gives, which takes any float and refuses a number that is no face alone.
#![tactic(auto, using(float::proofs::Choice::branches))]

pub mod compute;
pub mod refuse;
pub mod vector;

ghost use Rattle.std.specs.Prelude.{◌≡◌};
ghost use Rattle.cube.specs.Entries.{face_or_refusal, face_uv_or_refusal, uv_or_refusal, xyz_or_refusal, uvw_or_refusal, neighbour_or_refusal, u_norm_or_refusal, v_norm_or_refusal};

use answer::{Refusal, need};
use compute::Uv;
pub use compute::{u_axis, v_axis};
pub use vector::Vector;

// A face, and a point of it.
#[derive(Clone, Copy, Debug, PartialEq)]
pub struct FaceUv {
    pub face: u8,
    pub at: Uv,
}

// The face that r points at: the axis of its greatest absolute coordinate, the lower where two tie,
// and 3 more when that coordinate is negative. 2 where r is not finite, 5 where it is all zero.
pub fn face(r: Vector) -> Result<u8, Refusal>
    ensures { result ≡ face_or_refusal r }
{
    refuse::vector(r)?;
    Ok(compute::face(r))
}

// The face that r points at, and its (u, v) there, both from -1 to 1. Refused as in `face`.
#[tactic(auto, using(crate::proofs::OnFace::none, crate::proofs::Greatest::face_le))]
pub fn xyz_to_face_uv(r: Vector) -> Result<FaceUv, Refusal>
    ensures { result ≡ face_uv_or_refusal r }
{
    let face = face(r)?;
    Ok(FaceUv {
        face,
        at: compute::valid_face_xyz_to_uv(face, r)?,
    })
}

// (u, v) of r on a face. 4 for a face above 5, 2 where r is not finite, 1 where r is not on the
// side of the face, also where it is all zero.
pub fn face_xyz_to_uv(face: u8, r: Vector) -> Result<Uv, Refusal>
    ensures { result ≡ uv_or_refusal face r }
{
    let at = compute::valid_face_xyz_to_uv(face, r)?;
    need(r.is_finite(), Refusal::NotFinite)?;
    need(0.0 < compute::along(face, r), Refusal::Missed)?;
    Ok(at)
}

// The point at (u, v) of a face. 4 for a face above 5, 2 where u or v is not finite.
pub fn face_uv_to_xyz(face: u8, u: f64, v: f64) -> Result<Vector, Refusal>
    ensures { result ≡ xyz_or_refusal face u v }
{
    let p = compute::face_uv_to_xyz(face, u, v)?;
    need(u.is_finite() && v.is_finite(), Refusal::NotFinite)?;
    Ok(p)
}

// r in the face's u, v and w, as x, y and z. 4 for a face above 5, 2 where r is not finite.
pub fn face_xyz_to_uvw(face: u8, r: Vector) -> Result<Vector, Refusal>
    ensures { result ≡ uvw_or_refusal face r }
{
    let p = compute::face_xyz_to_uvw(face, r)?;
    need(r.is_finite(), Refusal::NotFinite)?;
    Ok(p)
}

// The neighbour of a face over an axis, 0 for u, 1 for v, 2 for w, in a direction, 0 for minus, 1
// for plus: the face whose own w points there. 4 for a face above 5, an axis above 2 or a direction
// above 1.
pub fn uvw_face(face: u8, axis: u8, direction: u8) -> Result<u8, Refusal>
    ensures { result ≡ neighbour_or_refusal face axis direction }
{
    refuse::neighbour(face, axis, direction)?;
    Ok(compute::uvw_face(face, axis, direction))
}

// A normal of the plane through the cube's centre and the line of a face at this u. 4 for a face
// above 5, 2 where u is not finite.
pub fn unorm(face: u8, u: f64) -> Result<Vector, Refusal>
    ensures { result ≡ u_norm_or_refusal face u }
{
    let n = compute::unorm(face, u)?;
    need(u.is_finite(), Refusal::NotFinite)?;
    Ok(n)
}

// The same of the line at this v.
pub fn vnorm(face: u8, v: f64) -> Result<Vector, Refusal>
    ensures { result ≡ v_norm_or_refusal face v }
{
    let n = compute::vnorm(face, v)?;
    need(v.is_finite(), Refusal::NotFinite)?;
    Ok(n)
}
