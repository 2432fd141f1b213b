// The pen's moves, one for each segment: document 003, Table 6. Points are absolute.
ghost use Rattle.std.specs.Prelude.{◌≡◌, ◌≤◌, pos, nat_abs, ◌-ℤ◌, ◌*ℤ◌};
ghost use Rattle.path.specs.Segments.{point, pen_at, first_pen, reflected, base};
ghost use Rattle.path.specs.Limits.{Held};

use crate::commands::split;
use crate::{Pen, Point};

impl Pen {
    pub fn new() -> Pen
        ensures { result ≡ first_pen }
    {
        let origin = Point { x: 0, y: 0 };
        Pen {
            start: origin,
            current: origin,
            control: origin,
        }
    }

    // What the coordinates of a segment are added to.
    pub fn base(self, byte: u8) -> Point
        ensures { result ≡ base byte self }
    {
        let s = split(byte);
        if s.relative {
            self.current
        } else {
            Point { x: 0, y: 0 }
        }
    }

    // The first control of a smooth segment.
    pub fn reflected(self) -> Point
        requires { Held self }
        ensures { result ≡ reflected self }
    {
        let o = self.current;
        let p = self.control;
        Point {
            x: mirror(o.x, p.x),
            y: mirror(o.y, p.y),
        }
    }

    pub fn close(self) -> Pen
        ensures { result ≡ pen_at self.start self.start self.start }
    {
        let start = self.start;
        self.line_to(start)
    }

    pub fn move_to(self, end: Point) -> Pen
        ensures { result ≡ pen_at end end end }
    {
        Pen {
            start: end,
            current: end,
            control: end,
        }
    }

    pub fn line_to(self, end: Point) -> Pen
        ensures { result ≡ pen_at self.start end end }
    {
        let start = self.start;
        Pen {
            start,
            current: end,
            control: end,
        }
    }

    pub fn horizontal_to(self, x: i32) -> Pen
        ensures { result ≡ pen_at self.start (point x self.current.y) (point x self.current.y) }
    {
        let o = self.current;
        self.line_to(Point { x, y: o.y })
    }

    pub fn vertical_to(self, y: i32) -> Pen
        ensures { result ≡ pen_at self.start (point self.current.x y) (point self.current.x y) }
    {
        let o = self.current;
        self.line_to(Point { x: o.x, y })
    }

    pub fn quad_to(self, control: Point, end: Point) -> Pen
        ensures { result ≡ pen_at self.start end control }
    {
        let start = self.start;
        Pen {
            start,
            current: end,
            control,
        }
    }

    pub fn cubic_to(self, first: Point, second: Point, end: Point) -> Pen
        ensures { result ≡ pen_at self.start end second }
    {
        self.quad_to(second, end)
    }

    pub fn smooth_quad_to(self, end: Point) -> Pen
        requires { Held self }
        ensures { result ≡ pen_at self.start end (reflected self) }
    {
        self.quad_to(self.reflected(), end)
    }

    pub fn smooth_cubic_to(self, second: Point, end: Point) -> Pen
        ensures { result ≡ pen_at self.start end second }
    {
        self.quad_to(second, end)
    }
}

// 2o - p, on one axis.
fn mirror(o: i32, p: i32) -> i32
    requires { (nat_abs o ≤ 32768) × (nat_abs p ≤ 32768) }
    ensures { result ≡ pos 2 *ℤ o -ℤ p }
{
    2 * o - p
}
