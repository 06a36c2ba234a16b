// What the entries compute: any float goes in, NaN and infinities too, and none is refused. A `match`
// on a face has the six rules, and for the rest the refusal, 4: document 01 asks for this form.
#![tactic(auto, using(float::proofs::Choice::branches, float::proofs::Choice::numbers), unfolding(crate::specs::Faces::by_face, crate::specs::Faces::along, crate::specs::Faces::greater, crate::specs::Faces::face_of, crate::specs::Faces::uv_of, crate::specs::Faces::point_at, crate::specs::Faces::uvw_of, crate::specs::Faces::u_axis, crate::specs::Faces::v_axis, crate::specs::Faces::u_norm, crate::specs::Faces::v_norm, crate::specs::ByAxes::axis_of, crate::specs::ByAxes::facing,))]

ghost use Rattle.float.specs.Choice.{◌and◌};
ghost use Rattle.float.specs.Float.{finite};
ghost use Rattle.std.specs.Prelude.{◌≡◌};
ghost use Rattle.cube.specs.ByAxes.{axis_of, facing};
ghost use Rattle.cube.specs.Entries.{u_axis_or_refusal, v_axis_or_refusal};
ghost use Rattle.cube.specs.Inner.{on_face};
ghost use Rattle.cube.specs.Faces.{along, greater, face_of, uv, uv_of, point_at, uvw_of, neighbour, u_norm, v_norm};

use crate::vector::Vector;
use answer::Refusal;

// A point of a face.
#[repr(C)]
#[derive(Clone, Copy, Debug, PartialEq)]
pub struct Uv {
    pub u: f64,
    pub v: f64,
}

impl Uv {
    pub fn new(u: f64, v: f64) -> Self
        ensures { result ≡ uv u v }
    {
        Uv { u, v }
    }

    pub fn is_finite(self) -> bool
        ensures { result ≡ (finite self.u and finite self.v) }
    {
        self.u.is_finite() && self.v.is_finite()
    }
}

// How far r reaches along a direction, which is named by the face that it points at.
pub fn along(direction: u8, r: Vector) -> f64
    ensures { result ≡ along direction r }
{
    match direction {
        0 => r.x,
        1 => r.y,
        2 => r.z,
        3 => -r.x,
        4 => -r.y,
        5 => -r.z,
        _ => 0.0,
    }
}

// The axis of the greatest absolute coordinate, ties to the lower; 3 more when it is negative.
pub fn face(r: Vector) -> u8
    ensures { result ≡ face_of r }
{
    let axis = greater(r, greater(r, 0, 1), 2);
    if along(axis, r) < 0.0 { axis + 3 } else { axis }
}

// Of two axes the one with the greater absolute coordinate, the first where they tie.
fn greater(r: Vector, i: u8, j: u8) -> u8
    ensures { result ≡ greater r i j }
{
    if float::magnitude(along(i, r)) < float::magnitude(along(j, r)) {
        j
    } else {
        i
    }
}

// (u, v) of a vector on a face.
pub fn valid_face_xyz_to_uv(face: u8, r: Vector) -> Result<Uv, Refusal>
    ensures { result ≡ on_face face (uv_of face r) }
{
    let x = r.x;
    let y = r.y;
    let z = r.z;
    match face {
        0 => Ok(Uv::new(y / x, z / x)),
        1 => Ok(Uv::new(-x / y, z / y)),
        2 => Ok(Uv::new(-x / z, -y / z)),
        3 => Ok(Uv::new(z / x, y / x)),
        4 => Ok(Uv::new(z / y, -x / y)),
        5 => Ok(Uv::new(-y / z, -x / z)),
        _ => Err(Refusal::BadFace),
    }
}

// The point at (u, v) of a face.
pub fn face_uv_to_xyz(face: u8, u: f64, v: f64) -> Result<Vector, Refusal>
    ensures { result ≡ on_face face (point_at face u v) }
{
    match face {
        0 => Ok(Vector::new(1.0, u, v)),
        1 => Ok(Vector::new(-u, 1.0, v)),
        2 => Ok(Vector::new(-u, -v, 1.0)),
        3 => Ok(Vector::new(-1.0, -v, -u)),
        4 => Ok(Vector::new(v, -1.0, -u)),
        5 => Ok(Vector::new(v, u, -1.0)),
        _ => Err(Refusal::BadFace),
    }
}

// A vector in a face's u, v and w.
pub fn face_xyz_to_uvw(face: u8, r: Vector) -> Result<Vector, Refusal>
    ensures { result ≡ on_face face (uvw_of face r) }
{
    let x = r.x;
    let y = r.y;
    let z = r.z;
    match face {
        0 => Ok(Vector::new(y, z, x)),
        1 => Ok(Vector::new(-x, z, y)),
        2 => Ok(Vector::new(-x, -y, z)),
        3 => Ok(Vector::new(-z, -y, -x)),
        4 => Ok(Vector::new(-z, x, -y)),
        5 => Ok(Vector::new(y, x, -z)),
        _ => Err(Refusal::BadFace),
    }
}

// The neighbour of a face over an axis, u, v or w, in a direction, minus or plus: the face whose own
// axis points there. 0 where there is no face.
pub fn uvw_face(face: u8, axis: u8, direction: u8) -> u8
    ensures { result ≡ neighbour face axis direction }
{
    let Ok(plus) = uvw_axis(face, axis) else {
        return 0;
    };
    if direction == 0 {
        facing(-plus)
    } else {
        facing(plus)
    }
}

// The unit vector along u, v or w of a face: its own w ends in its middle.
fn uvw_axis(face: u8, axis: u8) -> Result<Vector, Refusal>
    ensures { result ≡ on_face face (axis_of face axis) }
{
    match axis {
        0 => u_axis(face),
        1 => v_axis(face),
        _ => face_uv_to_xyz(face, 0.0, 0.0),
    }
}

// The face whose own axis is this unit vector: the sign and the place of its one component that is
// not zero.
fn facing(r: Vector) -> u8
    ensures { result ≡ facing r }
{
    if r.x > 0.0 {
        0
    } else if r.y > 0.0 {
        1
    } else if r.z > 0.0 {
        2
    } else if r.x < 0.0 {
        3
    } else if r.y < 0.0 {
        4
    } else {
        5
    }
}

// The unit vector along a face's u. 4 for a face above 5, here and in `v_axis`.
pub fn u_axis(face: u8) -> Result<Vector, Refusal>
    ensures { result ≡ u_axis_or_refusal face }
{
    match face {
        0 => Ok(Vector::new(0.0, 1.0, 0.0)),
        1 => Ok(Vector::new(-1.0, 0.0, 0.0)),
        2 => Ok(Vector::new(-1.0, 0.0, 0.0)),
        3 => Ok(Vector::new(0.0, 0.0, -1.0)),
        4 => Ok(Vector::new(0.0, 0.0, -1.0)),
        5 => Ok(Vector::new(0.0, 1.0, 0.0)),
        _ => Err(Refusal::BadFace),
    }
}

// The unit vector along a face's v.
pub fn v_axis(face: u8) -> Result<Vector, Refusal>
    ensures { result ≡ v_axis_or_refusal face }
{
    match face {
        0 => Ok(Vector::new(0.0, 0.0, 1.0)),
        1 => Ok(Vector::new(0.0, 0.0, 1.0)),
        2 => Ok(Vector::new(0.0, -1.0, 0.0)),
        3 => Ok(Vector::new(0.0, -1.0, 0.0)),
        4 => Ok(Vector::new(1.0, 0.0, 0.0)),
        5 => Ok(Vector::new(1.0, 0.0, 0.0)),
        _ => Err(Refusal::BadFace),
    }
}

// A normal of the plane through the cube's centre and the line of a face at this u.
pub fn unorm(face: u8, u: f64) -> Result<Vector, Refusal>
    ensures { result ≡ on_face face (u_norm face u) }
{
    match face {
        0 => Ok(Vector::new(u, -1.0, 0.0)),
        1 => Ok(Vector::new(1.0, u, 0.0)),
        2 => Ok(Vector::new(1.0, 0.0, u)),
        3 => Ok(Vector::new(-u, 0.0, 1.0)),
        4 => Ok(Vector::new(0.0, -u, 1.0)),
        5 => Ok(Vector::new(0.0, -1.0, -u)),
        _ => Err(Refusal::BadFace),
    }
}

// The same of the line at this v.
pub fn vnorm(face: u8, v: f64) -> Result<Vector, Refusal>
    ensures { result ≡ on_face face (v_norm face v) }
{
    match face {
        0 => Ok(Vector::new(-v, 0.0, 1.0)),
        1 => Ok(Vector::new(0.0, -v, 1.0)),
        2 => Ok(Vector::new(0.0, -1.0, -v)),
        3 => Ok(Vector::new(v, -1.0, 0.0)),
        4 => Ok(Vector::new(1.0, v, 0.0)),
        5 => Ok(Vector::new(1.0, 0.0, v)),
        _ => Err(Refusal::BadFace),
    }
}
