// Rows byte by byte, where each channel is to be transformed as it stands: a loop that becomes vector code.
//
// The numbers of the four channels are laid out over 16 pixels, a scale and an addend to a byte, and a row goes 16 pixels at a time. Scales that
// fit 16 bits let one instruction make several products.
ghost use Rattle.std.specs.Prelude.{◌≡◌, true, false, min, ◌*◌, ◌/◌, ◌%◌, ◌≤◌, pos, nat_abs, ◌+ℤ◌, ◌*ℤ◌, length};
ghost use Rattle.std.specs.Int.Signed.{lt_z};
ghost use Rattle.fixed.specs.Floor.{floor_div};
ghost use Rattle.raster.specs.Surface.{run, pixel_in};
ghost use Rattle.transform.specs.Transforms.{byte_in, transform_channels};
ghost use Rattle.transform.specs.Bytewise.{AllWithin, Narrow, Opaque, addend, laid, scales_of, addends_of};

use crate::FixedTransform;
use color::Pixel;

// The pixels that numbers are laid out for.
const BLOCK: usize = 16;

// Their bytes.
const BLOCK_BYTES: usize = 64;

// The size that a scale may have, so that it fits 16 bits.
const SCALE_LIMIT: u16 = 32767;

// The largest size of a bias: 1, in 1/256.
const BIAS_LIMIT: u16 = 256;

// Whether a row's n pixels all have the alpha 255: then the bits that all of them have are a number as large as the alpha 255 makes one.
pub fn is_opaque(row: &[u8], n: usize) -> bool
    requires { length row.now ≡ n * 4 }
    ensures { result ≡ true → Opaque row.now n }
{
    let mut all: u32 = 4294967295;
    for i in 0..n {
        all &= word(raster::pixel(row, i));
    }
    all >= 4278190080
}

// A pixel as one number, which no other pixel has, the alpha highest.
pub fn word(p: Pixel) -> u32
    ensures { p ≡ record { r = result % 256; g = result / 256 % 256; b = result / 65536 % 256; a = result / 16777216 } }
{
    (p.r as u32) + (p.g as u32) * 256 + (p.b as u32) * 65536 + (p.a as u32) * 16777216
}

// Whether the numbers are small enough for a row to go byte by byte.
pub fn is_narrow(t: FixedTransform) -> bool
    ensures { result ≡ true → Narrow t }
{
    are_within(SCALE_LIMIT, t.sr, t.sg, t.sb, t.sa)
        && are_within(BIAS_LIMIT, t.br, t.bg, t.bb, t.ba)
}

// Whether the numbers of four channels are all within a limit.
fn are_within(limit: u16, r: i32, g: i32, b: i32, a: i32) -> bool
    ensures { result ≡ true → AllWithin limit r g b a }
{
    is_within(limit, r) && is_within(limit, g) && is_within(limit, b) && is_within(limit, a)
}

// Whether z is between the limit and its opposite.
fn is_within(limit: u16, z: i32) -> bool
    ensures { result ≡ true → nat_abs z ≤ limit }
{
    z.unsigned_abs() <= limit as u32
}

// Each channel of a row's n pixels, as it stands.
pub fn transform_channels(t: FixedTransform, row: &mut [u8], n: usize)
    requires { Narrow t × (length row.old ≡ n * 4) }
    ensures { row.new ≡ run n (λ i. transform_channels t (pixel_in row.old i)) }
{
    let mut scales = [0i16; BLOCK_BYTES];
    let mut addends = [0i32; BLOCK_BYTES];
    lay_scales(t, &mut scales);
    lay_addends(t, &mut addends);
    transform_blocks(t, &scales, &addends, row, n);
}

// The scales of the four channels, for each byte of 16 pixels.
fn lay_scales(t: FixedTransform, scales: &mut [i16])
    requires { Narrow t × (length scales.old ≡ 64) }
    ensures { scales.new ≡ scales_of t }
{
    lay(
        narrowed(t.sr),
        narrowed(t.sg),
        narrowed(t.sb),
        narrowed(t.sa),
        scales,
    );
}

// A scale in 16 bits.
fn narrowed(scale: i32) -> i16
    requires { nat_abs scale ≤ 32767 }
    ensures { result ≡ scale }
{
    scale as i16
}

// Four numbers, again and again.
fn lay<T: Copy>(r: T, g: T, b: T, a: T, s: &mut [T])
    requires { length s.old ≡ 64 }
    ensures { s.new ≡ laid r g b a }
{
    for i in 0..BLOCK {
        let at = i * 4;
        s[at] = r;
        s[at + 1] = g;
        s[at + 2] = b;
        s[at + 3] = a;
    }
}

// The addends of the four channels, for each byte of 16 pixels.
fn lay_addends(t: FixedTransform, addends: &mut [i32])
    requires { Narrow t × (length addends.old ≡ 64) }
    ensures { addends.new ≡ addends_of t }
{
    lay(
        addend(t.br),
        addend(t.bg),
        addend(t.bb),
        addend(t.ba),
        addends,
    );
}

// What is added to a product: the bias of a byte, and half of 256, by which the quotient is rounded.
fn addend(bias: i32) -> i32
    requires { nat_abs bias ≤ 256 }
    ensures { result ≡ addend bias }
{
    255 * bias + 128
}

// The row, 16 pixels at a time.
fn transform_blocks(t: FixedTransform, scales: &[i16], addends: &[i32], row: &mut [u8], n: usize)
    requires narrow { Narrow t × (scales.now ≡ scales_of t) × (addends.now ≡ addends_of t) }
    requires row_len { length row.old ≡ n * 4 }
    ensures { row.new ≡ run n (λ i. transform_channels t (pixel_in row.old i)) }
{
    let mut i = 0;
    while i < n {
        let end = (i + BLOCK).min(n);
        let from = i * 4;
        let to = end * 4;
        transform_block(t, scales, addends, &mut row[from..to], end - i);
        i = end;
    }
}

// At most 16 pixels.
fn transform_block(t: FixedTransform, scales: &[i16], addends: &[i32], row: &mut [u8], n: usize)
    requires narrow { Narrow t × (scales.now ≡ scales_of t) × (addends.now ≡ addends_of t) }
    requires row_len { (length row.old ≡ n * 4) × (n ≤ 16) }
    ensures { row.new ≡ run n (λ i. transform_channels t (pixel_in row.old i)) }
{
    for i in 0..row.len() {
        row[i] = transform_byte(row[i], scales[i], addends[i]);
    }
}

// A byte times its scale, and its addend.
fn transform_byte(c: u8, scale: i16, addend: i32) -> u8
    requires { nat_abs addend ≤ 65408 }
    ensures { result ≡ byte_in (floor_div (pos c *ℤ scale +ℤ addend) 256) }
{
    let z = ((c as i32) * (scale as i32) + addend) >> 8;
    z.clamp(0, 255) as u8
}
