// Premultiplied bytes transformed: a pixel, and the pixels of a row.
ghost use Rattle.std.specs.Prelude.{◌≡◌, true, ◌*◌, length};
ghost use Rattle.raster.specs.Surface.{run, pixel_in};
ghost use Rattle.transform.specs.Transforms.{byte_in, transform_channel, transformed, unpremultiply};
ghost use Rattle.transform.specs.Bytewise.{Narrow};
ghost use Rattle.transform.specs.Reciprocals.{reciprocal_of, reciprocals};

use crate::bytewise::{is_narrow, is_opaque, transform_channels};
use crate::reciprocals::{reciprocal, unpremultiply};
use crate::{FixedTransform, reciprocals};
use color::Pixel;

// A pixel, which may have any bytes.
pub fn transform_pixel(t: FixedTransform, p: Pixel) -> Pixel
    ensures { result ≡ transformed t p }
{
    let table = reciprocals::table();
    transform_by(t, reciprocal(&table, p.a), p)
}

// The n pixels of a row, each in its place. Opaque pixels that stay opaque need no other form than they have.
pub fn transform_row(t: FixedTransform, row: &mut [u8], n: usize)
    requires { length row.old ≡ n * 4 }
    ensures { row.new ≡ run n (λ i. transformed t (pixel_in row.old i)) }
{
    if keeps_opaque(t) && is_opaque(row, n) {
        transform_channels(t, row, n);
        return;
    }
    let table = reciprocals::table();
    transform_pixels(t, &table, row, n);
}

// Whether the alpha 255 stays, and the numbers are small enough for a row to go byte by byte.
fn keeps_opaque(t: FixedTransform) -> bool
    ensures { result ≡ true → (transform_channel t.sa t.ba 255 ≡ 255) × Narrow t }
{
    transform_channel(255, t.sa, t.ba) == 255 && is_narrow(t)
}

// The pixels of a row with the table lent. A pixel that is equal to the one before it, as it often is in a gradient, takes its colour.
fn transform_pixels(t: FixedTransform, table: &[u32], row: &mut [u8], n: usize)
    requires { (table.now ≡ reciprocals) × (length row.old ≡ n * 4) }
    ensures { row.new ≡ run n (λ i. transformed t (pixel_in row.old i)) }
{
    if n == 0 {
        return;
    }
    let mut last = raster::pixel(row, 0);
    let mut q = transform_by(t, reciprocal(table, last.a), last);
    for i in 0..n {
        let p = raster::pixel(row, i);
        q = transform_after(t, table, last, q, p);
        raster::put_pixel(row, i, q);
        last = p;
    }
}

// A pixel after the last one, which is transformed to q.
fn transform_after(t: FixedTransform, table: &[u32], last: Pixel, q: Pixel, p: Pixel) -> Pixel
    requires { (table.now ≡ reciprocals) × (q ≡ transformed t last) }
    ensures { result ≡ transformed t p }
{
    if last == p {
        return q;
    }
    transform_by(t, reciprocal(table, p.a), p)
}

// A pixel, with the reciprocal of its alpha. What is opaque is premultiplied as it is.
fn transform_by(t: FixedTransform, reciprocal: u32, p: Pixel) -> Pixel
    requires { reciprocal ≡ reciprocal_of p.a }
    ensures { result ≡ transformed t p }
{
    let q = Pixel {
        r: transform_color(p.r, p.a, reciprocal, t.sr, t.br),
        g: transform_color(p.g, p.a, reciprocal, t.sg, t.bg),
        b: transform_color(p.b, p.a, reciprocal, t.sb, t.bb),
        a: transform_channel(p.a as u16, t.sa, t.ba),
    };
    if q.a == 255 {
        return q;
    }
    q.premultiplied()
}

// A colour's channel c under the alpha a, whose reciprocal is given.
fn transform_color(c: u8, a: u8, reciprocal: u32, scale: i32, bias: i32) -> u8
    requires { reciprocal ≡ reciprocal_of a }
    ensures { result ≡ transform_channel scale bias (unpremultiply c a) }
{
    transform_channel(unpremultiply(c, a, reciprocal), scale, bias)
}

// A channel that is not premultiplied, times its scale, and its bias added.
fn transform_channel(c: u16, scale: i32, bias: i32) -> u8
    ensures { result ≡ transform_channel scale bias c }
{
    byte_in(((c as i64) * (scale as i64) + 255 * (bias as i64) + 128) >> 8)
}

// z cut to 0..255.
fn byte_in(z: i64) -> u8
    ensures { result ≡ byte_in z }
{
    z.clamp(0, 255) as u8
}
