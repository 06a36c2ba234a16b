// What is refused, in document 01's order for the cube and the walk: 4, 2, 5.
ghost use Rattle.std.specs.Prelude.{◌≡◌};
ghost use Rattle.line.specs.Refuse.{line_refusal, exit_refusal, next_refusal};

use crate::compute::Axis;
use answer::{Refusal, need};
use cube::Vector;
use cube::compute::Uv;
use cube::refuse::in_order;

// Of a normal whose tests are asked.
pub fn line(n: Vector) -> Result<(), Refusal>
    ensures { result ≡ line_refusal n }
{
    need(n.is_finite(), Refusal::NotFinite)
}

// Of a normal and an axis. With `!=` the check did not find the proof.
pub fn exit(n: Vector, axis: Axis) -> Result<(), Refusal>
    ensures { result ≡ exit_refusal n axis }
{
    in_order(true, n.is_finite(), !(axis.divisor(n) == 0.0))
}

// Of two faces, an exit point and a normal.
pub fn next(face: u8, exit: Uv, n: Vector, target: u8) -> Result<(), Refusal>
    ensures { result ≡ next_refusal face exit n target }
{
    in_order(
        face <= 5 && target <= 5,
        exit.is_finite() && n.is_finite(),
        !n.is_zero(),
    )
}
