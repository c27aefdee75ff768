// The shape that an index holds, and a shape in the numbers that a caller keeps.
ghost use Rattle.std.specs.Prelude.{◌≡◌};
ghost use Rattle.indexed.specs.Admitting.{numbers_of};

use crate::HeldShape;
use layout::Shape;

impl From<Shape> for HeldShape {
    ghost from_gives = { λ g h. h ≡ numbers_of g };

    fn from(g: Shape) -> HeldShape {
        HeldShape {
            edition: g.edition as u64,
            p: g.p as u64,
            c: g.c as u64,
            m: g.m as u64,
            n: g.n as u64,
            r: g.r as u64,
        }
    }
}
