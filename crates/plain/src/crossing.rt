// What one edge counts at one sample.
ghost use Rattle.std.specs.Prelude.{◌≡◌, ◌&&◌, ◌≤◌, nat_abs};
ghost use Rattle.std.specs.Int.Signed.{le_z, lt_z};
ghost use Rattle.path.specs.Stored.{Small};
ghost use Rattle.coverage.specs.Winding.{left_up, counts};
ghost use Rattle.plain.specs.Asked.{edge};

use path::Edge;

// Of an edge that goes up: whether its crossing with the row y is at or left of x. Both sides are multiplied by the edge's height.
fn is_left(x0: i32, y0: i32, x1: i32, y1: i32, x: i32, y: i32) -> bool
    requires { (nat_abs x0 ≤ 8388608) × (nat_abs y0 ≤ 8388608) × (nat_abs x1 ≤ 8388608) × (nat_abs y1 ≤ 8388608)
        × (nat_abs x ≤ 8388608) × (nat_abs y ≤ 8388608) }
    ensures { result ≡ left_up (edge x0 y0 x1 y1) x y }
{
    let a = ((y as i64) - (y0 as i64)) * ((x1 as i64) - (x0 as i64));
    let b = ((x as i64) - (x0 as i64)) * ((y1 as i64) - (y0 as i64));
    a <= b
}

// Whether the lower end is at or below the row y, and the upper end above it.
fn is_between(lower: i32, upper: i32, y: i32) -> bool
    ensures { result ≡ le_z lower y && lt_z y upper }
{
    if lower <= y { y < upper } else { false }
}

// +1 for an edge that goes up and is at or left of the sample (x, y), -1 for one that goes down, else 0.
pub fn count(e: Edge, x: i32, y: i32) -> i32
    requires { Small e × (nat_abs x ≤ 8388608) × (nat_abs y ≤ 8388608) }
    ensures { result ≡ counts x y e }
{
    let x0 = e.x0;
    let y0 = e.y0;
    let x1 = e.x1;
    let y1 = e.y1;
    if is_between(y0, y1, y) {
        if is_left(x0, y0, x1, y1, x, y) {
            return 1;
        }
        return 0;
    }
    if is_between(y1, y0, y) {
        if is_left(x1, y1, x0, y0, x, y) {
            return -1;
        }
        return 0;
    }
    0
}
