// Rows of pixels byte by byte, where a byte of the result needs no other byte of its pixel: loops that become vector code.
ghost use Rattle.std.specs.Prelude.{◌≡◌, true, ◌*◌, ◌/◌, ◌≤◌, length, get_or};
ghost use Rattle.raster.specs.Surface.{run, pixel_in};
ghost use Rattle.blend.specs.PorterDuff.{mode_src_over, blended};
ghost use Rattle.blend.specs.Unmasked.{unmasked_on};
ghost use Rattle.blend.specs.Spans.{four_of, keep_pixel, stored_pixel, masked_pixel, word_of, Opaque};

use crate::step::{masked_byte, stored_byte};
use color::Pixel;

// All bytes of a row, by a loop that becomes a call of memcpy: std's copy_from_slice would ask the C library for memmove too.
pub fn copy_row(src: &[u8], row: &mut [u8])
    requires { length row.old ≡ length src.now }
    ensures { row.new ≡ src.now }
{
    for i in 0..row.len() {
        row[i] = src[i];
    }
}

// n pixels of a paint that hides what is under it, under one coverage.
pub fn store_row(coverage: u8, src: &[u8], row: &mut [u8], n: usize)
    requires { (coverage ≤ 16) × (length src.now ≡ n * 4) × (length row.old ≡ n * 4) }
    ensures { row.new ≡ run n (λ i. stored_pixel coverage (pixel_in src.now i) (pixel_in row.old i)) }
{
    for i in 0..row.len() {
        row[i] = stored_byte(coverage, src[i], row[i]);
    }
}

// n pixels under SrcOver, covered in full. What each byte keeps of what is under it stands beside the paint.
pub fn over_row(src: &[u8], keep: &[u8], row: &mut [u8], n: usize)
    requires src_len { (length src.now ≡ n * 4) × (length row.old ≡ n * 4) }
    requires keep_value { keep.now ≡ run n (λ i. keep_pixel (pixel_in src.now i)) }
    ensures { row.new ≡ run n (λ i. unmasked_on mode_src_over 16 (pixel_in src.now i) (pixel_in row.old i)) }
{
    for i in 0..row.len() {
        row[i] = over_byte(src[i], keep[i], row[i]);
    }
}

// The same under any coverage.
pub fn over_row_under(coverage: u8, src: &[u8], keep: &[u8], row: &mut [u8], n: usize)
    requires coverage_bound { (coverage ≤ 16) × (length src.now ≡ n * 4) × (length row.old ≡ n * 4) }
    requires keep_value { keep.now ≡ run n (λ i. keep_pixel (pixel_in src.now i)) }
    ensures { row.new ≡ run n (λ i. unmasked_on mode_src_over coverage (pixel_in src.now i) (pixel_in row.old i)) }
{
    for i in 0..row.len() {
        let b = over_byte(src[i], keep[i], row[i]);
        row[i] = stored_byte(coverage, b, row[i]);
    }
}

// What each byte of n pixels keeps of what is under it.
pub fn keep_row(src: &[u8], keep: &mut [u8], n: usize)
    requires { (length src.now ≡ n * 4) × (length keep.old ≡ n * 4) }
    ensures { keep.new ≡ run n (λ i. keep_pixel (pixel_in src.now i)) }
{
    for i in 0..n {
        let p = raster::pixel(src, i);
        raster::put_pixel(keep, i, kept(p));
    }
}

// n pixels over others, under one coverage and a mask that has a byte for each of their bytes.
pub fn masked_row(coverage: u8, src: &[u8], wide: &[u8], row: &mut [u8], n: usize)
    requires { (coverage ≤ 16) × (length src.now ≡ n * 4) × (length wide.now ≡ n * 4) × (length row.old ≡ n * 4) }
    ensures { row.new
        ≡ run n (λ i. masked_pixel coverage (pixel_in wide.now i) (pixel_in src.now i) (pixel_in row.old i)) }
{
    for i in 0..row.len() {
        row[i] = masked_byte(coverage, wide[i], src[i], row[i]);
    }
}

// A mask's n bytes, each as often as a pixel has bytes.
pub fn spread_row(mask: &[u8], wide: &mut [u8], n: usize)
    requires { (length mask.now ≡ n) × (length wide.old ≡ n * 4) }
    ensures { wide.new ≡ run n (λ i. four_of (get_or mask.now i 0)) }
{
    for i in 0..n {
        raster::put_pixel(wide, i, four(mask[i]));
    }
}

// Whether n pixels all have the alpha 255: then the bits that all of them have, as numbers of 32 bits, are a number as large as the alpha 255 makes one.
pub fn is_opaque(src: &[u8], n: usize) -> bool
    requires { length src.now ≡ n * 4 }
    ensures { result ≡ true → Opaque src.now n }
{
    let mut all: u32 = 4294967295;
    for i in 0..n {
        all &= word(raster::pixel(src, i));
    }
    all >= 4278190080
}

// B under SrcOver: the source's byte comes out of the quotient, the rest of it fits 16 bits.
fn over_byte(s: u8, keep: u8, d: u8) -> u8
    ensures { result ≡ blended s 255 d keep }
{
    let x = (d as u16) * (keep as u16) + 128;
    ((s as u16) + ((x + (x >> 8)) >> 8)).min(255) as u8
}

// What a pixel's bytes keep of what is under them. Made of the whole number and by `|`: a loop over the alpha alone, or with the product of `four`, becomes
// vector code that gathers bytes, which is slower than one store to a pixel.
fn kept(p: Pixel) -> Pixel
    ensures { result ≡ keep_pixel p }
{
    let k = (4294967295 - word(p)) / 16777216;
    let h = k | k * 256;
    let w = h | h * 65536;
    Pixel {
        r: (w % 256) as u8,
        g: (w / 256 % 256) as u8,
        b: (w / 65536 % 256) as u8,
        a: (w / 16777216) as u8,
    }
}

// A pixel of one byte four times: four bytes of one number are one store.
pub fn four(c: u8) -> Pixel
    ensures { result ≡ four_of c }
{
    let w = (c as u32) * 16843009;
    Pixel {
        r: (w % 256) as u8,
        g: (w / 256 % 256) as u8,
        b: (w / 65536 % 256) as u8,
        a: (w / 16777216) as u8,
    }
}

// A pixel as one number, the alpha highest.
fn word(p: Pixel) -> u32
    ensures { (result ≡ word_of p) × (result / 16777216 ≡ p.a) }
{
    (p.r as u32) + (p.g as u32) * 256 + (p.b as u32) * 65536 + (p.a as u32) * 16777216
}
