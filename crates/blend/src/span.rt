// n pixels under one coverage: left as they are, stored, or blended.
ghost use Rattle.std.specs.Prelude.{◌≡◌, true, min, ◌*◌, ◌≤◌, length};
ghost use Rattle.raster.specs.Surface.{run, pixel_in};
ghost use Rattle.blend.specs.PorterDuff.{mode_src_over};
ghost use Rattle.blend.specs.Unmasked.{unmasked_on};
ghost use Rattle.blend.specs.Spans.{keep_pixel, stored_pixel, Hiding};

use crate::bytewise::{copy_row, is_opaque, keep_row, over_row, over_row_under, store_row};
use crate::factor::{SRC, SRC_OVER, hides};
use crate::step::{blend_pixel, stored_pixel};
use color::Pixel;

// Fewer pixels have a smaller buffer, since one that is not used costs time too.
const FEW: usize = 16;

// A paint of one pixel for all of them.
pub fn composite_span(mode: u16, coverage: u8, src: Pixel, row: &mut [u8], n: usize)
    requires { (coverage ≤ 16) × (length row.old ≡ n * 4) }
    ensures { row.new ≡ run n (λ i. unmasked_on mode coverage src (pixel_in row.old i)) }
{
    if coverage == 0 {
        return;
    }
    if hides(mode, src.a) {
        store_span(coverage, src, row, n);
        return;
    }
    blend_span(mode, coverage, src, row, n);
}

// A paint of one pixel for each of them.
pub fn composite_painted(mode: u16, coverage: u8, src: &[u8], row: &mut [u8], n: usize)
    requires { (coverage ≤ 16) × (length src.now ≡ n * 4) × (length row.old ≡ n * 4) }
    ensures { row.new ≡ run n (λ i. unmasked_on mode coverage (pixel_in src.now i) (pixel_in row.old i)) }
{
    if coverage == 0 {
        return;
    }
    if hides_all(mode, src, n) {
        store_painted(coverage, src, row, n);
        return;
    }
    if mode == SRC_OVER {
        over_painted(coverage, src, row, n);
        return;
    }
    blend_painted(mode, coverage, src, row, n);
}

// Whether a paint is seen to hide all that is under it.
fn hides_all(mode: u16, src: &[u8], n: usize) -> bool
    requires { length src.now ≡ n * 4 }
    ensures { result ≡ true → Hiding mode src.now n }
{
    if mode == SRC {
        return true;
    }
    if mode == SRC_OVER {
        return is_opaque(src, n);
    }
    false
}

// A pixel that hides what is under it.
fn store_span(coverage: u8, src: Pixel, row: &mut [u8], n: usize)
    requires { (coverage ≤ 16) × (length row.old ≡ n * 4) }
    ensures { row.new ≡ run n (λ i. stored_pixel coverage src (pixel_in row.old i)) }
{
    if coverage == 16 {
        raster::fill_row(row, n, src);
        return;
    }
    store_pixels(coverage, src, row, n);
}

// The same pixel by pixel.
fn store_pixels(coverage: u8, src: Pixel, row: &mut [u8], n: usize)
    requires { (coverage ≤ 16) × (length row.old ≡ n * 4) }
    ensures { row.new ≡ run n (λ i. stored_pixel coverage src (pixel_in row.old i)) }
{
    for i in 0..n {
        let p = stored_pixel(coverage, src, raster::pixel(row, i));
        raster::put_pixel(row, i, p);
    }
}

// Pixels that hide what is under them.
fn store_painted(coverage: u8, src: &[u8], row: &mut [u8], n: usize)
    requires { (coverage ≤ 16) × (length src.now ≡ n * 4) × (length row.old ≡ n * 4) }
    ensures { row.new ≡ run n (λ i. stored_pixel coverage (pixel_in src.now i) (pixel_in row.old i)) }
{
    if coverage == 16 {
        copy_row(src, row);
        return;
    }
    store_row(coverage, src, row, n);
}

// A pixel under SrcOver, of which 16 are laid out, beside what they keep of what is under them: 16 pixels at a time. Where nothing is covered the
// pixels stay.
pub fn over_laid(coverage: u8, paint: &[u8], keep: &[u8], row: &mut [u8], n: usize)
    requires coverage_bound { (coverage ≤ 16) × (length row.old ≡ n * 4) }
    requires paint_value { (paint.now ≡ run 16 (λ i. pixel_in paint.now 0)) × (keep.now ≡ run 16 (λ i. keep_pixel (pixel_in paint.now 0))) }
    ensures { row.new ≡ run n (λ i. unmasked_on mode_src_over coverage (pixel_in paint.now 0) (pixel_in row.old i)) }
{
    if coverage == 0 {
        return;
    }
    let mut i = 0;
    while i < n {
        let e = (i + 16).min(n);
        let from = i * 4;
        let to = e * 4;
        let m = to - from;
        over_part(
            coverage,
            &paint[0..m],
            &keep[0..m],
            &mut row[from..to],
            e - i,
        );
        i = e;
    }
}

// Pixels under SrcOver.
fn over_painted(coverage: u8, src: &[u8], row: &mut [u8], n: usize)
    requires { (coverage ≤ 16) × (length src.now ≡ n * 4) × (length row.old ≡ n * 4) }
    ensures { row.new ≡ run n (λ i. unmasked_on mode_src_over coverage (pixel_in src.now i) (pixel_in row.old i)) }
{
    if n <= FEW {
        let mut keep = [0; 64];
        over_few(coverage, src, &mut keep, row, n);
        return;
    }
    let mut keep = [0; 512];
    over_kept(coverage, src, &mut keep, row, n);
}

// The same of few pixels, with a buffer for what they keep of what is under them.
fn over_few(coverage: u8, src: &[u8], keep: &mut [u8], row: &mut [u8], n: usize)
    requires { (coverage ≤ 16) × (length src.now ≡ n * 4) × (length row.old ≡ n * 4) × (length keep.old ≡ 64) × (n ≤ 16) }
    ensures { row.new ≡ run n (λ i. unmasked_on mode_src_over coverage (pixel_in src.now i) (pixel_in row.old i)) }
{
    let m = n * 4;
    over_block(coverage, src, &mut keep[0..m], row, n);
}

// The same 128 pixels at a time: what they keep of what is under them goes into a buffer.
fn over_kept(coverage: u8, src: &[u8], keep: &mut [u8], row: &mut [u8], n: usize)
    requires { (coverage ≤ 16) × (length src.now ≡ n * 4) × (length row.old ≡ n * 4) × (length keep.old ≡ 512) }
    ensures { row.new ≡ run n (λ i. unmasked_on mode_src_over coverage (pixel_in src.now i) (pixel_in row.old i)) }
{
    let mut i = 0;
    while i < n {
        let e = (i + 128).min(n);
        let from = i * 4;
        let to = e * 4;
        let m = to - from;
        over_block(
            coverage,
            &src[from..to],
            &mut keep[0..m],
            &mut row[from..to],
            e - i,
        );
        i = e;
    }
}

// A buffer for what they keep, of just their length.
fn over_block(coverage: u8, src: &[u8], keep: &mut [u8], row: &mut [u8], n: usize)
    requires { (coverage ≤ 16) × (length src.now ≡ n * 4) × (length row.old ≡ n * 4) × (length keep.old ≡ n * 4) }
    ensures { row.new ≡ run n (λ i. unmasked_on mode_src_over coverage (pixel_in src.now i) (pixel_in row.old i)) }
{
    keep_row(src, keep, n);
    over_part(coverage, src, keep, row, n);
}

// Pixels under SrcOver, with what they keep beside them.
fn over_part(coverage: u8, src: &[u8], keep: &[u8], row: &mut [u8], n: usize)
    requires coverage_bound { (coverage ≤ 16) × (length src.now ≡ n * 4) × (length row.old ≡ n * 4) }
    requires keep_value { keep.now ≡ run n (λ i. keep_pixel (pixel_in src.now i)) }
    ensures { row.new ≡ run n (λ i. unmasked_on mode_src_over coverage (pixel_in src.now i) (pixel_in row.old i)) }
{
    if coverage == 16 {
        over_row(src, keep, row, n);
        return;
    }
    over_row_under(coverage, src, keep, row, n);
}

// A pixel in any mode.
fn blend_span(mode: u16, coverage: u8, src: Pixel, row: &mut [u8], n: usize)
    requires { (coverage ≤ 16) × (length row.old ≡ n * 4) }
    ensures { row.new ≡ run n (λ i. unmasked_on mode coverage src (pixel_in row.old i)) }
{
    for i in 0..n {
        let p = blend_pixel(mode, coverage, src, raster::pixel(row, i));
        raster::put_pixel(row, i, p);
    }
}

// Pixels in any mode.
fn blend_painted(mode: u16, coverage: u8, src: &[u8], row: &mut [u8], n: usize)
    requires { (coverage ≤ 16) × (length src.now ≡ n * 4) × (length row.old ≡ n * 4) }
    ensures { row.new ≡ run n (λ i. unmasked_on mode coverage (pixel_in src.now i) (pixel_in row.old i)) }
{
    for i in 0..n {
        let p = blend_pixel(mode, coverage, raster::pixel(src, i), raster::pixel(row, i));
        raster::put_pixel(row, i, p);
    }
}
