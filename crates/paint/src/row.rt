// The paint of a pixel and of a part of a row, as premultiplied bytes. A gradient's ramp lies in a lent run, as module ramp says.
ghost use Rattle.std.specs.Prelude.{◌≡◌, ◌+◌, ◌*◌, ◌<◌, ◌≤◌, min, true, length};
ghost use Rattle.color.specs.Channels.{bytes_of_color, premultiplied};
ghost use Rattle.raster.specs.Surface.{run};
ghost use Rattle.paint.specs.Radial.{focal_allowed};
ghost use Rattle.paint.specs.Buffers.{LimitedPoints, HeldRamp, Pads, stops_in, linear_at};
ghost use Rattle.paint.specs.Circles.{LimitedCircle, HeldGradient, RampWithin, gradient_at, radial_at};
ghost use Rattle.paint.specs.Segments.{Sloped};
ghost use Rattle.paint.specs.declared.AnyGradient.TheVariants.{Radial};

use crate::block::block;
use crate::chord::inner_columns;
use crate::positions::SHORT_LIMIT;
use crate::shade::gradient_color;
use crate::words::BLOCK;
use crate::{AnyGradient, LinearGradient, RadialGradient, gradient};
use color::{Color, Pixel};

// The pixel of a plain colour.
pub fn solid_pixel(c: Color) -> Pixel
    ensures { result ≡ premultiplied (bytes_of_color c) }
{
    c.to_bytes().premultiplied()
}

// The pixels (x, y) to (x + n - 1, y) of a gradient.
pub fn gradient_row(g: AnyGradient, ramp: &[u32], x: usize, y: usize, n: usize, row: &mut [u8])
    requires held_gradient { HeldGradient g ramp.now }
    requires n_bound { (x + n ≤ 1024) × (y ≤ 1024) × (length row.old ≡ n * 4) }
    ensures { row.new ≡ run n (λ i. gradient_at g ramp.now (x + i) y) }
{
    match g {
        AnyGradient::Linear(l) => linear_row(l, ramp, x, y, n, row),
        AnyGradient::Radial(r) => radial_row(r, ramp, x, y, n, row),
    }
}

// The same of a linear gradient.
fn linear_row(g: LinearGradient, ramp: &[u32], x: usize, y: usize, n: usize, row: &mut [u8])
    requires limited_points { LimitedPoints g.points × HeldRamp ramp.now g.count }
    requires n_bound { (x + n ≤ 1024) × (y ≤ 1024) × (length row.old ≡ n * 4) }
    ensures { row.new ≡ run n (λ i. linear_at g (stops_in ramp.now g.count) (x + i) y) }
{
    let p = g.points;
    if p.x0 == p.x1 {
        let c = linear_pixel(g, ramp, x, y);
        raster::fill_row(row, n, c);
        return;
    }
    sloped_row(AnyGradient::Linear(g), ramp, x, y, n, row);
}

// The pixel (x, y) of a linear gradient.
pub fn linear_pixel(g: LinearGradient, ramp: &[u32], x: usize, y: usize) -> Pixel
    requires limited_points { LimitedPoints g.points × HeldRamp ramp.now g.count }
    requires x_bound { (x ≤ 1024) × (y ≤ 1024) }
    ensures { result ≡ linear_at g (stops_in ramp.now g.count) x y }
{
    let p = g.points;
    gradient_color(
        g.spread,
        g.premultiply,
        ramp,
        g.count,
        gradient::linear_t(p, x, y),
    )
}

// The same of a radial gradient.
fn radial_row(g: RadialGradient, ramp: &[u32], x: usize, y: usize, n: usize, row: &mut [u8])
    requires limited_circle { LimitedCircle g.circle × (focal_allowed g.circle ≡ true) × HeldRamp ramp.now g.count }
    requires n_bound { (x + n ≤ 1024) × (y ≤ 1024) × (length row.old ≡ n * 4) }
    ensures { row.new ≡ run n (λ i. radial_at g (stops_in ramp.now g.count) (x + i) y) }
{
    let c = g.circle;
    if c.r <= 0 {
        let p = gradient_color(g.spread, g.premultiply, ramp, g.count, gradient::RAMP_UNIT);
        raster::fill_row(row, n, p);
        return;
    }
    if gradient::pads(g.spread) {
        padded_row(g, ramp, x, y, n, row);
        return;
    }
    sloped_row(AnyGradient::Radial(g), ramp, x, y, n, row);
}

// The same where there is a circle and the spread pads.
fn padded_row(g: RadialGradient, ramp: &[u32], x: usize, y: usize, n: usize, row: &mut [u8])
    requires held_gradient { HeldGradient (Radial g) ramp.now × Sloped (Radial g) × Pads g.spread }
    requires n_bound { (x + n ≤ 1024) × (y ≤ 1024) × (length row.old ≡ n * 4) }
    ensures { row.new ≡ run n (λ i. radial_at g (stops_in ramp.now g.count) (x + i) y) }
{
    let k = inner_columns(g.circle, x, y, n);
    if k.to - k.from == n {
        sloped_row(AnyGradient::Radial(g), ramp, x, y, n, row);
        return;
    }
    cut_row(g, ramp, x, y, n, k.from, k.to, row);
}

// The same, where t is at least 65,536 before a column and from another on: only what lies between them is computed.
fn cut_row(
    g: RadialGradient,
    ramp: &[u32],
    x: usize,
    y: usize,
    n: usize,
    from: usize,
    to: usize,
    row: &mut [u8],
)
    requires held_gradient { HeldGradient (Radial g) ramp.now × Sloped (Radial g) × Pads g.spread
        × RampWithin g.circle x y n (record { from = from; to = to }) }
    requires n_bound { (x + n ≤ 1024) × (y ≤ 1024) × (length row.old ≡ n * 4) }
    ensures { row.new ≡ run n (λ i. radial_at g (stops_in ramp.now g.count) (x + i) y) }
{
    let p = gradient_color(g.spread, g.premultiply, ramp, g.count, gradient::RAMP_UNIT);
    let start = from * 4;
    let middle = to * 4;
    let end = n * 4;
    raster::fill_row(&mut row[0..start], from, p);
    sloped_row(
        AnyGradient::Radial(g),
        ramp,
        x + from,
        y,
        to - from,
        &mut row[start..middle],
    );
    raster::fill_row(&mut row[middle..end], n - to, p);
}

// The same of a gradient whose t may differ from pixel to pixel: block after block.
fn sloped_row(g: AnyGradient, ramp: &[u32], x: usize, y: usize, n: usize, row: &mut [u8])
    requires held_gradient { HeldGradient g ramp.now × Sloped g }
    requires n_bound { (x + n ≤ 1024) × (y ≤ 1024) × (length row.old ≡ n * 4) }
    ensures { row.new ≡ run n (λ i. gradient_at g ramp.now (x + i) y) }
{
    blocks(g, ramp, x, y, n, block_size(g, ramp), row);
}

// How many pixels are made at a time: half a block of a long gradient, so that t is a line there too.
fn block_size(g: AnyGradient, ramp: &[u32]) -> usize
    requires { HeldGradient g ramp.now }
    ensures { (0 < result) × (result ≤ 256) }
{
    match g {
        AnyGradient::Linear(l) => {
            let p = l.points;
            if gradient::squared_length(p).unsigned_abs() < SHORT_LIMIT {
                BLOCK
            } else {
                BLOCK / 2
            }
        }
        AnyGradient::Radial(r) => BLOCK,
    }
}

// The same so many pixels at a time.
fn blocks(g: AnyGradient, ramp: &[u32], x: usize, y: usize, n: usize, size: usize, row: &mut [u8])
    requires held_gradient { HeldGradient g ramp.now × Sloped g × (0 < size) × (size ≤ 256) }
    requires n_bound { (x + n ≤ 1024) × (y ≤ 1024) × (length row.old ≡ n * 4) }
    ensures { row.new ≡ run n (λ i. gradient_at g ramp.now (x + i) y) }
{
    let mut i = 0;
    while i < n {
        let e = (i + size).min(n);
        let m = e - i;
        let from = i * 4;
        let to = e * 4;
        block(g, ramp, x + i, y, m, &mut row[from..to]);
        i = e;
    }
}
