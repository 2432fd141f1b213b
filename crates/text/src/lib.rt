// The text of a picture.
#![tactic(auto)]

ghost use Rattle.std.specs.Prelude.{◌≡◌, [], ◌∷◌, ◌++◌, ◌+◌, ◌*◌, ◌<◌, length, take};
ghost use Rattle.text.specs.Text.{hex_digit, byte_text, pixel_text, after_pixel, row_text};

use color::Pixel;

// The bytes of a pixel's text, with what follows it.
pub const PIXEL_TEXT: usize = 9;

// The row of n pixels.
pub fn row(pixels: &[u8], n: usize, out: &mut [u8])
    requires { (length pixels.now ≡ n * 4) × (length out.old ≡ n * 9) }
    ensures { out.new ≡ row_text n pixels.now }
{
    for x in 0..n {
        let at = x * PIXEL_TEXT;
        let e = at + PIXEL_TEXT;
        put_pixel(raster::pixel(pixels, x), separator(n, x), &mut out[at..e]);
    }
}

// A pixel, and what follows it.
fn put_pixel(p: Pixel, after: u8, out: &mut [u8])
    requires { length out.old ≡ 9 }
    ensures { out.new ≡ pixel_text p ++ (after ∷ []) }
{
    put_byte(p.r, out, 0);
    put_byte(p.g, out, 2);
    put_byte(p.b, out, 4);
    put_byte(p.a, out, 6);
    out[8] = after;
}

// A byte's two digits, from place i on.
fn put_byte(b: u8, out: &mut [u8], i: usize)
    requires { i + 1 < length out.old }
    ensures { take (i + 2) out.new ≡ take i out.old ++ byte_text b }
{
    out[i] = digit(b / 16);
    out[i + 1] = digit(b % 16);
}

fn digit(d: u8) -> u8
    requires { d < 16 }
    ensures { result ≡ hex_digit d }
{
    if d < 10 { b'0' + d } else { b'a' + (d - 10) }
}

fn separator(n: usize, x: usize) -> u8
    requires { x < n }
    ensures { result ≡ after_pixel n x }
{
    if x + 1 == n { b'\n' } else { b' ' }
}
