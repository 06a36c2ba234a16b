// Vectors of space.
#![tactic(auto, using(float::proofs::Choice::branches), unfolding(crate::specs::Vector::finite_vector, crate::specs::Vector::is_zero))]

ghost use Rattle.std.specs.Prelude.{◌≡◌};
ghost use Rattle.cube.specs.Vector.{vec, finite_vector, is_zero, opposite};

use std::ops::Neg;

#[repr(C)]
#[derive(Clone, Copy, Debug, PartialEq)]
pub struct Vector {
    pub x: f64,
    pub y: f64,
    pub z: f64,
}

impl Vector {
    pub const ZERO: Vector = Vector {
        x: 0.0,
        y: 0.0,
        z: 0.0,
    };

    pub fn new(x: f64, y: f64, z: f64) -> Self
        ensures { result ≡ vec x y z }
    {
        Vector { x, y, z }
    }

    pub fn is_finite(self) -> bool
        ensures { result ≡ finite_vector self }
    {
        self.x.is_finite() && self.y.is_finite() && self.z.is_finite()
    }

    // Whether each coordinate is a zero, of either sign.
    pub fn is_zero(self) -> bool
        ensures { result ≡ is_zero self }
    {
        self.x == 0.0 && self.y == 0.0 && self.z == 0.0
    }
}

impl Neg for Vector {
    type Output = Vector;

    fn neg(self) -> Vector
        ensures { result ≡ opposite self }
    {
        Vector::new(-self.x, -self.y, -self.z)
    }
}
