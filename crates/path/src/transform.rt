// The matrix in whole numbers: how it comes from floats, and where it takes a point of a path on the surface.
ghost use Rattle.std.specs.Prelude.{◌≡◌, true, ◌^◌, ◌≤◌, nat_abs, leb};
ghost use Rattle.path.specs.Matrices.{entries_in, matrix_in_limits, is_flat, transform_axis, transform, surface_limit, on_surface_grid};
ghost use Rattle.path.specs.Segments.{point};
ghost use Rattle.path.specs.Answers.{converted};
ghost use Rattle.path.specs.Plain.{axis_small, is_small};
ghost use Rattle.path.specs.Limits.{Limited, Near};

use crate::{FixedMatrix, Matrix, Point};
use fixed::{at_most, to_whole};

impl Matrix {
    // Whether every entry is within its limit.
    fn in_limits(self) -> bool
        ensures { result ≡ matrix_in_limits self }
    {
        in_limit(self.sx, self.shy, FixedMatrix::LINEAR_LIMIT_LOG)
            && (in_limit(self.shx, self.sy, FixedMatrix::LINEAR_LIMIT_LOG)
                && in_limit(self.tx, self.ty, FixedMatrix::TRANSLATION_LIMIT_LOG))
    }
}

fn in_limit(v: f32, w: f32, log: u32) -> bool
    requires { log ≤ 15 }
    ensures { result ≡ entries_in (2 ^ log) v w }
{
    at_most(v, log) && at_most(w, log)
}

impl FixedMatrix {
    // The largest size of sx, shy, shx, sy and of tx, ty, judged on the floats as given: 256 and 32,768, as powers of 2.
    pub const LINEAR_LIMIT_LOG: u32 = 8;

    pub const TRANSLATION_LIMIT_LOG: u32 = 15;

    // The largest size of a point on the surface, in 1/256 pixel.
    pub const SURFACE_LIMIT: i64 = 8388608;

    // What an entry of 1 becomes.
    pub const ONE: u32 = 65536;

    // The floats in 1/65,536, if they are within their limits.
    #[tactic(auto, unfolding(crate::specs::Answers::converted))]
    pub fn from_floats(m: Matrix) -> Option<FixedMatrix>
        ensures { result ≡ converted m }
    {
        if m.in_limits() {
            Some(FixedMatrix {
                sx: to_whole(m.sx, FixedMatrix::ONE),
                shy: to_whole(m.shy, FixedMatrix::ONE),
                shx: to_whole(m.shx, FixedMatrix::ONE),
                sy: to_whole(m.sy, FixedMatrix::ONE),
                tx: to_whole(m.tx, FixedMatrix::ONE),
                ty: to_whole(m.ty, FixedMatrix::ONE),
            })
        } else {
            None
        }
    }

    // Whether it takes every path to a line or a point. The products have at most 49 bits, so the test is exact.
    pub fn is_flat(self) -> bool
        requires { Limited self }
        ensures { result ≡ is_flat self }
    {
        self.sx * self.sy - self.shx * self.shy == 0
    }

    // Whether the sizes of the entries tell that every point in range is taken to one that is not too far out.
    #[tactic(auto, unfolding(crate::specs::Plain::is_small))]
    pub fn is_small(self) -> bool
        requires { Limited self }
        ensures { result ≡ is_small self }
    {
        axis_small(self.sx, self.shx, self.tx) && axis_small(self.shy, self.sy, self.ty)
    }

    // Whether a point is taken to one that is not too far out.
    pub fn reaches(self, p: Point) -> bool
        requires { Limited self × Near p }
        ensures { result ≡ on_surface_grid (transform self p) }
    {
        on_grid(self.across(p)) && on_grid(self.up(p))
    }

    // Where a point is taken.
    pub fn apply(self, p: Point) -> Point
        requires { (Limited self × Near p) × (on_surface_grid (transform self p) ≡ true) }
        ensures { result ≡ transform self p }
    {
        Point {
            x: self.across(p) as i32,
            y: self.up(p) as i32,
        }
    }

    fn across(self, p: Point) -> i64
        requires { Limited self × Near p }
        ensures { result ≡ (transform self p).x }
    {
        axis(self.sx, self.shx, self.tx, p.x, p.y)
    }

    fn up(self, p: Point) -> i64
        requires { Limited self × Near p }
        ensures { result ≡ (transform self p).y }
    {
        axis(self.shy, self.sy, self.ty, p.x, p.y)
    }
}

fn axis(a: i64, b: i64, t: i64, x: i32, y: i32) -> i64
    requires a_bound { (nat_abs a ≤ 16777216) × (nat_abs b ≤ 16777216) × (nat_abs t ≤ 2147483648) }
    requires x_bound { (nat_abs x ≤ 32768) × (nat_abs y ≤ 32768) }
    ensures { result ≡ transform_axis a b t (point x y) }
{
    (a * (x as i64) + b * (y as i64) + t + 128) >> 8
}

// Whether a x + b y + t + 128 is at most 2^31 in size, where x and y are at most 2^15.
fn axis_small(a: i64, b: i64, t: i64) -> bool
    requires { (nat_abs a ≤ 16777216) × (nat_abs b ≤ 16777216) × (nat_abs t ≤ 2147483648) }
    ensures { result ≡ axis_small a b t }
{
    (a.unsigned_abs() + b.unsigned_abs()) * 32768 + t.unsigned_abs() <= 2147483520
}

fn on_grid(z: i64) -> bool
    ensures { result ≡ leb (nat_abs z) surface_limit }
{
    z.unsigned_abs() <= FixedMatrix::SURFACE_LIMIT as u64
}
