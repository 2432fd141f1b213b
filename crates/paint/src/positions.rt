// Where on the ramp the pixels of a row lie, and t along a row, as a line where it is one. A position is 0 before the ramp, t + 1 on it and 65,537
// behind it, so that each is a small number.
ghost use Rattle.std.specs.Prelude.{◌≡◌, ◌+◌, ◌-◌, ◌*◌, ◌/◌, ◌<◌, ◌≤◌, min, true, IfSome, length, pos, ◌+ℤ◌, ◌*ℤ◌, ◌≢◌, unsigned_abs};
ghost use Rattle.fixed.specs.Floor.{floor_div};
ghost use Rattle.lists.specs.Lists.{tab};
ghost use Rattle.paint.specs.Gradient.{squared_length, linear_t, mapped};
ghost use Rattle.paint.specs.Buffers.{LimitedPoints, Proper, Lined, Follows, Inner, quotient_at, row_step, line_parts, in_parts};
ghost use Rattle.paint.specs.Segments.{position_of};

use crate::gradient::RAMP_UNIT;
use crate::segments::BEHIND;
use crate::{Line, LinearGradient, Quotient, gradient};

// The position of t.
pub fn position(spread: u32, t: i64) -> u32
    ensures { result ≡ position_of (mapped spread t) }
{
    let u = gradient::spread(spread, t);
    if u < 0 {
        return 0;
    }
    if u < RAMP_UNIT {
        return (u as u32) + 1;
    }
    BEHIND
}

// t along a row as a line is counted in parts: 2^44 of them are 1 of t, and 2^22 is the root of that.
const PARTS: i64 = 17592186044416;

const PARTS_ROOT: u64 = 4194304;

// How many of them the ramp has.
const RAMP_PARTS: i64 = 1152921504606846976;

// The line has t at each of 128 pixels, and fits 64 bits, if these are below: the gradient's squared length, t at the first pixel, what t grows by.
const LENGTH_LIMIT: u64 = 137438953472;

const FIRST_LIMIT: u64 = 131072;

const STEP_LIMIT: u64 = 1024;

// The squared length of a gradient, of which it has t at each of 256.
pub const SHORT_LIMIT: u64 = 68719476736;

// For fewer pixels the divisions that begin a line leave little to save.
const LINE_LEAST: usize = 16;

// t where a ramp ends, and the last one on it, in 32 bits.
const RAMP_END: i32 = 65536;

const RAMP_LAST: i32 = 65535;

// The positions of the pixels from (x, y) on, of two points that do not coincide, and the line of their t, if there is one: t goes from pixel to pixel
// without a division.
pub fn linear_positions(g: LinearGradient, line: Option<Line>, x: usize, y: usize, ks: &mut [u32])
    requires limited_points { LimitedPoints g.points × (unsigned_abs (squared_length g.points) ≢ 0) }
    requires ks_bound { (x + length ks.old ≤ 1024) × (y ≤ 1024) × (length ks.old ≤ 256) }
    requires follows { IfSome line (λ l. Follows g x y (length ks.old) l.first l.step) }
    ensures { ks.new ≡ tab (length ks.old) (λ i. position_of (mapped g.spread (linear_t g.points (x + i) y))) }
{
    if let Some(l) = line {
        along_line(l.first, l.step, ks);
        return;
    }
    let p = g.points;
    let d = gradient::squared_length(p);
    let step = gradient::row_step(p);
    let q = gradient::quotient_at(p, x, y);
    along_quotients(g, x, y, q, step, d, ks);
}

// t of the n pixels from (x, y) on as a line, if there is one.
pub fn row_line(g: LinearGradient, x: usize, y: usize, n: usize) -> Option<Line>
    requires limited_points { LimitedPoints g.points × (unsigned_abs (squared_length g.points) ≢ 0) }
    requires x_bound { (x ≤ 1024) × (y ≤ 1024) × (n ≤ 256) }
    ensures { IfSome result (λ l. Follows g x y n l.first l.step) }
{
    if n < LINE_LEAST {
        return None;
    }
    let p = g.points;
    let d = gradient::squared_length(p);
    let step = gradient::row_step(p);
    let q = gradient::quotient_at(p, x, y);
    if !has_line(g.spread, q, step, d, n) {
        return None;
    }
    Some(Line {
        first: in_parts(q, d),
        step: in_parts(step, d),
    })
}

// Whether a line serves for n pixels.
fn has_line(spread: u32, q: Quotient, step: Quotient, d: i64, n: usize) -> bool
    requires { n ≤ 256 }
    ensures { result ≡ true → Lined spread q step d n }
{
    if !gradient::pads(spread) {
        return false;
    }
    if q.whole.unsigned_abs() >= FIRST_LIMIT {
        return false;
    }
    if step.whole.unsigned_abs() >= STEP_LIMIT {
        return false;
    }
    d.unsigned_abs() < length_limit(n)
}

// Below which squared length a line has t at n pixels.
fn length_limit(n: usize) -> u64
    requires { n ≤ 256 }
    ensures { (n * result ≤ line_parts) × (result ≤ 137438953472) }
{
    if n <= 128 { LENGTH_LIMIT } else { SHORT_LIMIT }
}

// A quotient over d in parts, rounded up.
fn in_parts(q: Quotient, d: i64) -> i64
    requires { Proper q d × (unsigned_abs d < 137438953472) × (unsigned_abs q.whole < 131072) }
    ensures { result ≡ in_parts q d }
{
    q.whole * PARTS + ((fraction(q.rest as u64, d as u64) + 1) as i64)
}

// r / d in parts, by two divisions, since r in parts may exceed 64 bits.
fn fraction(r: u64, d: u64) -> u64
    requires { (r < d) × (d < 137438953472) }
    ensures { (result ≡ r * line_parts / d) × (result < line_parts) }
{
    let n = r * PARTS_ROOT;
    n / d * PARTS_ROOT + n % d * PARTS_ROOT / d
}

// The positions of pixels whose t is a line in parts, where the spread pads: plain sums of at most 2^61 + 256 * 2^54, which the compiler does several at
// a time.
fn along_line(first: i64, step: i64, ks: &mut [u32])
    requires { (unsigned_abs first ≤ 2305843009213693952) × (unsigned_abs step ≤ 18014398509481984) × (length ks.old ≤ 256) }
    ensures { ks.new ≡ tab (length ks.old) (λ i. position_of (floor_div (first +ℤ step *ℤ pos i) line_parts)) }
{
    let mut t = first;
    for i in 0..ks.len() {
        ks[i] = position_in_parts(t);
        t += step;
    }
}

// The position of t in parts: t is in the high 32 bits, above 12 of the 44 that parts take.
fn position_in_parts(t: i64) -> u32
    requires { unsigned_abs t ≤ 6917529027641081856 }
    ensures { result ≡ position_of (floor_div t line_parts) }
{
    padded(((t >> 32) as i32) >> 12)
}

// The position of t where the spread pads.
fn padded(t: i32) -> u32
    ensures { result ≡ position_of t }
{
    (t.clamp(-1, RAMP_END) + 1) as u32
}

// t of pixels whose t is a line in parts, cut to 0..65,535: twice, for two pairs of channels.
pub fn line_ts(first: i64, step: i64, left: &mut [u16], right: &mut [u16])
    requires first_bound { (unsigned_abs first ≤ 2305843009213693952) × (unsigned_abs step ≤ 18014398509481984) }
    requires right_len { (length right.old ≡ length left.old) × (length left.old ≤ 256) }
    ensures left_after { left.new ≡ tab (length left.old) (λ i. min (position_of (floor_div (first +ℤ step *ℤ pos i) line_parts) - 1) 65535) }
    ensures right_after { right.new ≡ left.new }
{
    if is_on_ramp(first, step, left.len()) {
        inner_ts(first, step, left, right);
        return;
    }
    cut_ts(first, step, left, right);
}

// Whether t in parts lies on the ramp at the first of n pixels and behind the last of them: a line is between its ends, so it does at each of them.
fn is_on_ramp(first: i64, step: i64, n: usize) -> bool
    requires { (unsigned_abs first ≤ 2305843009213693952) × (unsigned_abs step ≤ 18014398509481984) × (n ≤ 256) }
    ensures { result ≡ true → Inner first × Inner (first +ℤ step *ℤ pos n) }
{
    let end = first + step * (n as i64);
    is_inner(first) && is_inner(end)
}

// Whether t in parts lies on the ramp.
fn is_inner(t: i64) -> bool
    ensures { result ≡ true → Inner t }
{
    0 <= t && t < RAMP_PARTS
}

// The same of a line that is on the ramp all along: nothing is cut, which is half of the work.
fn inner_ts(first: i64, step: i64, left: &mut [u16], right: &mut [u16])
    requires { Inner first × Inner (first +ℤ step *ℤ pos (length left.old)) × (length right.old ≡ length left.old) }
    ensures left_after { left.new ≡ tab (length left.old) (λ i. min (position_of (floor_div (first +ℤ step *ℤ pos i) line_parts) - 1) 65535) }
    ensures right_after { right.new ≡ left.new }
{
    let mut t = first;
    for i in 0..left.len() {
        let u = inner_t(t);
        left[i] = u;
        right[i] = u;
        t += step;
    }
}

// t in parts, where it lies on the ramp.
fn inner_t(t: i64) -> u16
    requires { Inner t }
    ensures { result ≡ min (position_of (floor_div t line_parts) - 1) 65535 }
{
    (t >> 44) as u16
}

// The same of any line.
fn cut_ts(first: i64, step: i64, left: &mut [u16], right: &mut [u16])
    requires first_bound { (unsigned_abs first ≤ 2305843009213693952) × (unsigned_abs step ≤ 18014398509481984) }
    requires right_len { (length right.old ≡ length left.old) × (length left.old ≤ 256) }
    ensures left_after { left.new ≡ tab (length left.old) (λ i. min (position_of (floor_div (first +ℤ step *ℤ pos i) line_parts) - 1) 65535) }
    ensures right_after { right.new ≡ left.new }
{
    let mut t = first;
    for i in 0..left.len() {
        let u = cut_in_parts(t);
        left[i] = u;
        right[i] = u;
        t += step;
    }
}

// t in parts, cut.
fn cut_in_parts(t: i64) -> u16
    requires { unsigned_abs t ≤ 6917529027641081856 }
    ensures { result ≡ min (position_of (floor_div t line_parts) - 1) 65535 }
{
    cut(((t >> 32) as i32) >> 12)
}

fn cut(t: i32) -> u16
    ensures { result ≡ min (position_of t - 1) 65535 }
{
    t.clamp(0, RAMP_LAST) as u16
}

// The positions of the pixels from (x, y) on, of any gradient. t at the first of them is given, and so is what it grows by; x and y are for the contract.
fn along_quotients(
    g: LinearGradient,
    x: usize,
    y: usize,
    first: Quotient,
    step: Quotient,
    d: i64,
    ks: &mut [u32],
)
    requires limited_points { LimitedPoints g.points × (unsigned_abs (squared_length g.points) ≢ 0) }
    requires ks_bound { (x + length ks.old ≤ 1024) × (y ≤ 1024) }
    requires first_value { (first ≡ quotient_at g.points x y) × (step ≡ row_step g.points) × (d ≡ squared_length g.points) }
    ensures { ks.new ≡ tab (length ks.old) (λ i. position_of (mapped g.spread (linear_t g.points (x + i) y))) }
{
    let mut q = first;
    for i in 0..ks.len() {
        ks[i] = position(g.spread, q.whole);
        q = gradient::add_quotients(q, step, d);
    }
}
