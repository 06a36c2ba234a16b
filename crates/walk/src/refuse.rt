// What is refused of the input, in document 01's order for the cube and the walk: 4, 2, 5.
ghost use Rattle.std.specs.Prelude.{◌≡◌};
ghost use Rattle.walk.specs.Refuse.{input_refusal};

use crate::Route;
use answer::Refusal;
use cube::refuse::in_order;

// Of two faces, a point of each and a normal.
pub fn input(r: Route) -> Result<(), Refusal>
    ensures { result ≡ input_refusal r.face r.a r.target r.b r.normal }
{
    let ends = r.a.is_finite() && r.b.is_finite();
    in_order(
        r.face <= 5 && r.target <= 5,
        ends && r.normal.is_finite(),
        !r.normal.is_zero(),
    )
}
