// Curves of degree 1, 2 and 3. The end fills the places that the degree leaves free.
ghost use Rattle.std.specs.Prelude.{◌≡◌};
ghost use Rattle.path.specs.Segments.{line_to, quad_to, cubic_to};

use crate::{Curve, Point};

impl Curve {
    pub fn line(end: Point) -> Curve
        ensures { result ≡ line_to end }
    {
        Curve {
            degree: 1,
            p1: end,
            p2: end,
            p3: end,
        }
    }

    pub fn quad(control: Point, end: Point) -> Curve
        ensures { result ≡ quad_to control end }
    {
        Curve {
            degree: 2,
            p1: control,
            p2: end,
            p3: end,
        }
    }

    pub fn cubic(first: Point, second: Point, end: Point) -> Curve
        ensures { result ≡ cubic_to first second end }
    {
        Curve {
            degree: 3,
            p1: first,
            p2: second,
            p3: end,
        }
    }
}
