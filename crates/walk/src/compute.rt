// A step of the walk: any normal and any points go in, and nothing is refused. A number that is no face has
// zeros for its rules.
ghost use Rattle.std.specs.Prelude.{◌≡◌};
ghost use Rattle.walk.specs.Walk.{moved_to};
ghost use Rattle.walk.specs.Inner.{crossing};

use cube::Vector;
use cube::compute::Uv;

// Where the line leaves a face, and the face where it goes on.
#[derive(Clone, Copy)]
pub struct Crossing {
    pub exit: Uv,
    pub next: u8,
}

// Out of a face, whose u, v and w the normal n stands in, toward the target.
pub fn step(face: u8, n: Vector, target: u8) -> Crossing
    ensures { result ≡ crossing face n target }
{
    let axis = line::compute::exit_axis(n);
    let exit = line::compute::exit_point(n, axis);
    let next = line::compute::next_face(face, exit, axis, n, target);
    Crossing { exit, next }
}

// A point of a face, in the coordinates of the next.
pub fn moved(face: u8, at: Uv, next: u8) -> Uv
    ensures { result ≡ moved_to face at next }
{
    let p = cube::compute::face_uv_to_xyz(face, at.u, at.v).unwrap_or(Vector::ZERO);
    let q = cube::compute::face_xyz_to_uvw(next, p).unwrap_or(Vector::ZERO);
    Uv::new(q.x, q.y)
}
