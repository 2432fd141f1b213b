// The paint of a block of pixels, by their positions on the ramp, or straight from t where it is a line.
ghost use Rattle.std.specs.Prelude.{◌≡◌, ◌+◌, ◌*◌, ◌/◌, ◌<◌, ◌≤◌, true, IfSome, length, pos, ◌<ℤ◌, ◌≢◌, slice_index, unsigned_abs};
ghost use Rattle.raster.specs.Surface.{run};
ghost use Rattle.paint.specs.Gradient.{squared_length};
ghost use Rattle.paint.specs.Radial.{focal_allowed};
ghost use Rattle.paint.specs.Ramps.{ramp_at};
ghost use Rattle.paint.specs.Buffers.{LimitedPoints, HeldRamp, Follows, stops_in, linear_at};
ghost use Rattle.paint.specs.Circles.{LimitedCircle, HeldGradient, gradient_at, radial_at};
ghost use Rattle.paint.specs.Segments.{Positions, Serves, Sloped, Words, color_at_position, t_at};

use crate::positions::{linear_positions, row_line};
use crate::radial_row::radial_positions;
use crate::ramp::stop_color;
use crate::segments::{color_in, find};
use crate::words::{BLOCK, finish_words, line_pixels, mix_words, put_words, word};
use crate::{AnyGradient, Line, LinearGradient, RadialGradient, Segment};

// The offset of a ramp's end.
const END: u32 = 65536;

// The n pixels from (x, y) on.
pub fn block(g: AnyGradient, ramp: &[u32], x: usize, y: usize, n: usize, row: &mut [u8])
    requires held_gradient { HeldGradient g ramp.now × Sloped g }
    requires n_bound { (x + n ≤ 1024) × (y ≤ 1024) × (length row.old ≡ n * 4) × (n ≤ 256) }
    ensures { row.new ≡ run n (λ i. gradient_at g ramp.now (x + i) y) }
{
    match g {
        AnyGradient::Linear(l) => linear_block(l, ramp, x, y, n, row),
        AnyGradient::Radial(r) => radial_block(r, ramp, x, y, n, row),
    }
}

fn linear_block(g: LinearGradient, ramp: &[u32], x: usize, y: usize, n: usize, row: &mut [u8])
    requires limited_points { LimitedPoints g.points × HeldRamp ramp.now g.count × (unsigned_abs (squared_length g.points) ≢ 0) }
    requires n_bound { (x + n ≤ 1024) × (y ≤ 1024) × (length row.old ≡ n * 4) × (n ≤ 256) }
    ensures { row.new ≡ run n (λ i. linear_at g (stops_in ramp.now g.count) (x + i) y) }
{
    match row_line(g, x, y, n) {
        Some(l) if has_ends_only(ramp, g.count) => line_block(g, l, ramp, x, y, row),
        line => placed_block(g, line, ramp, x, y, n, row),
    }
}

// The same by positions. The array for them is zeroed before it is used, so it is made here: a line needs none.
fn placed_block(
    g: LinearGradient,
    line: Option<Line>,
    ramp: &[u32],
    x: usize,
    y: usize,
    n: usize,
    row: &mut [u8],
)
    requires limited_points { LimitedPoints g.points × HeldRamp ramp.now g.count × (unsigned_abs (squared_length g.points) ≢ 0) }
    requires n_bound { (x + n ≤ 1024) × (y ≤ 1024) × (length row.old ≡ n * 4) × (n ≤ 256) }
    requires follows { IfSome line (λ l. Follows g x y n l.first l.step) }
    ensures { row.new ≡ run n (λ i. linear_at g (stops_in ramp.now g.count) (x + i) y) }
{
    let mut ks = [0; BLOCK];
    placed_in(g, line, ramp, x, y, n, row, &mut ks);
}

// The same with room for the positions of a block.
fn placed_in(
    g: LinearGradient,
    line: Option<Line>,
    ramp: &[u32],
    x: usize,
    y: usize,
    n: usize,
    row: &mut [u8],
    ks: &mut [u32],
)
    requires limited_points { LimitedPoints g.points × HeldRamp ramp.now g.count × (unsigned_abs (squared_length g.points) ≢ 0) }
    requires n_bound { (x + n ≤ 1024) × (y ≤ 1024) × (length row.old ≡ n * 4) × (n ≤ 256) × (length ks.old ≡ 256) }
    requires follows { IfSome line (λ l. Follows g x y n l.first l.step) }
    ensures { row.new ≡ run n (λ i. linear_at g (stops_in ramp.now g.count) (x + i) y) }
{
    linear_positions(g, line, x, y, &mut ks[0..n]);
    color_row(g.premultiply, ramp, g.count, &mut ks[0..n], row);
}

// The same of two stops that lie at both ends, where t is a line.
fn line_block(g: LinearGradient, l: Line, ramp: &[u32], x: usize, y: usize, row: &mut [u8])
    requires held_ramp { HeldRamp ramp.now 2 × (slice_index ramp.now 2 ≡ 65536) × Follows g x y (length row.old / 4) l.first l.step }
    requires row_len { (length row.old ≡ length row.old / 4 * 4) × (length row.old / 4 ≤ 256) }
    ensures { row.new ≡ run (length row.old / 4) (λ i. linear_at g (stops_in ramp.now 2) (x + i) y) }
{
    line_pixels(
        g.premultiply,
        stop_color(ramp, 0),
        stop_color(ramp, 1),
        l.first,
        l.step,
        row,
    );
}

fn radial_block(g: RadialGradient, ramp: &[u32], x: usize, y: usize, n: usize, row: &mut [u8])
    requires limited_circle { LimitedCircle g.circle × (focal_allowed g.circle ≡ true) × HeldRamp ramp.now g.count × (pos 0 <ℤ g.circle.r) }
    requires n_bound { (x + n ≤ 1024) × (y ≤ 1024) × (length row.old ≡ n * 4) × (n ≤ 256) }
    ensures { row.new ≡ run n (λ i. radial_at g (stops_in ramp.now g.count) (x + i) y) }
{
    let mut ks = [0; BLOCK];
    radial_in(g, ramp, x, y, n, row, &mut ks);
}

// The same with room for the positions of a block.
fn radial_in(
    g: RadialGradient,
    ramp: &[u32],
    x: usize,
    y: usize,
    n: usize,
    row: &mut [u8],
    ks: &mut [u32],
)
    requires limited_circle { LimitedCircle g.circle × (focal_allowed g.circle ≡ true) × HeldRamp ramp.now g.count × (pos 0 <ℤ g.circle.r) }
    requires n_bound { (x + n ≤ 1024) × (y ≤ 1024) × (length row.old ≡ n * 4) × (n ≤ 256) × (length ks.old ≡ 256) }
    ensures { row.new ≡ run n (λ i. radial_at g (stops_in ramp.now g.count) (x + i) y) }
{
    radial_positions(g, x, y, &mut ks[0..n]);
    color_row(g.premultiply, ramp, g.count, &mut ks[0..n], row);
}

// The pixels at the positions of ks, which then holds their colours.
fn color_row(premultiply: bool, ramp: &[u32], count: usize, ks: &mut [u32], row: &mut [u8])
    requires { HeldRamp ramp.now count × Positions ks.old × (length row.old ≡ length ks.old * 4) }
    ensures { row.new
        ≡ run (length ks.old) (λ i. color_at_position premultiply (stops_in ramp.now count) (slice_index ks.old i)) }
{
    color_words(ramp, count, ks);
    finish_words(premultiply, ks);
    put_words(ks, row);
}

// The ramp's colours in place of positions.
fn color_words(ramp: &[u32], count: usize, ks: &mut [u32])
    requires { HeldRamp ramp.now count × Positions ks.old }
    ensures { Words (λ i. ramp_at (stops_in ramp.now count) (t_at (slice_index ks.old i))) (length ks.old) ks.new }
{
    if has_ends_only(ramp, count) {
        two_words(ramp, ks);
        return;
    }
    segment_words(ramp, count, ks);
}

// Whether there are two stops, which lie at both ends.
fn has_ends_only(ramp: &[u32], count: usize) -> bool
    requires { count * 2 ≤ length ramp.now }
    ensures { result ≡ true → (count ≡ 2) × (slice_index ramp.now 2 ≡ 65536) }
{
    count == 2 && ramp[2] == END
}

// The ramp's colours in place of positions, of two stops that lie at both ends.
fn two_words(ramp: &[u32], ks: &mut [u32])
    requires { HeldRamp ramp.now 2 × (slice_index ramp.now 2 ≡ 65536) × Positions ks.old }
    ensures { Words (λ i. ramp_at (stops_in ramp.now 2) (t_at (slice_index ks.old i))) (length ks.old) ks.new }
{
    mix_words(stop_color(ramp, 0), stop_color(ramp, 1), ks);
}

// The same of any ramp. A segment is kept as long as it serves.
fn segment_words(ramp: &[u32], count: usize, ks: &mut [u32])
    requires { HeldRamp ramp.now count × Positions ks.old }
    ensures { Words (λ i. ramp_at (stops_in ramp.now count) (t_at (slice_index ks.old i))) (length ks.old) ks.new }
{
    let mut s = find(ramp, count, 0);
    for i in 0..ks.len() {
        let k = ks[i];
        s = serving(s, ramp, count, k);
        ks[i] = word(color_in(s, k));
    }
}

// A segment that serves k: the same, if it does.
fn serving(s: Segment, ramp: &[u32], count: usize, k: u32) -> Segment
    requires { HeldRamp ramp.now count × Serves ramp.now count s × (k ≤ 65537) }
    ensures { Serves ramp.now count result × (result.low ≤ k) × (k < result.to) }
{
    if s.low <= k && k < s.to {
        return s;
    }
    find(ramp, count, k)
}
