// Pixels under one coverage through a mask: B is made over a copy of the row, and then stored by the mask's weights.
ghost use Rattle.std.specs.Prelude.{◌≡◌, ◌*◌, ◌≤◌, length, get_or};
ghost use Rattle.raster.specs.Surface.{run, pixel_in};
ghost use Rattle.blend.specs.PorterDuff.{composite_on};

use crate::bytewise::{copy_row, masked_row, spread_row};
use crate::span::composite_painted;
use crate::step::composite_on;

// n pixels, with a pixel of paint and a byte of the mask for each.
pub fn composite_masked(mode: u16, coverage: u8, mask: &[u8], src: &[u8], row: &mut [u8], n: usize)
    requires { (coverage ≤ 16) × (length mask.now ≡ n) × (length src.now ≡ n * 4) × (length row.old ≡ n * 4) }
    ensures { row.new
        ≡ run n (λ i. composite_on mode coverage (get_or mask.now i 0) (pixel_in src.now i) (pixel_in row.old i)) }
{
    if coverage == 0 {
        return;
    }
    if n < 4 {
        mask_pixels(mode, coverage, mask, src, row, n);
        return;
    }
    let mut blended = [0; 512];
    let mut wide = [0; 512];
    masked_blocks(mode, coverage, mask, src, &mut blended, &mut wide, row, n);
}

// A few, pixel by pixel.
fn mask_pixels(mode: u16, coverage: u8, mask: &[u8], src: &[u8], row: &mut [u8], n: usize)
    requires { (coverage ≤ 16) × (length mask.now ≡ n) × (length src.now ≡ n * 4) × (length row.old ≡ n * 4) }
    ensures { row.new
        ≡ run n (λ i. composite_on mode coverage (get_or mask.now i 0) (pixel_in src.now i) (pixel_in row.old i)) }
{
    for i in 0..n {
        let p = composite_on(
            mode,
            coverage,
            mask[i],
            raster::pixel(src, i),
            raster::pixel(row, i),
        );
        raster::put_pixel(row, i, p);
    }
}

// The same 128 pixels at a time, in two buffers.
fn masked_blocks(
    mode: u16,
    coverage: u8,
    mask: &[u8],
    src: &[u8],
    blended: &mut [u8],
    wide: &mut [u8],
    row: &mut [u8],
    n: usize,
)
    requires coverage_bound { (coverage ≤ 16) × (length mask.now ≡ n) × (length src.now ≡ n * 4) × (length row.old ≡ n * 4) }
    requires blended_len { (length blended.old ≡ 512) × (length wide.old ≡ 512) }
    ensures { row.new
        ≡ run n (λ i. composite_on mode coverage (get_or mask.now i 0) (pixel_in src.now i) (pixel_in row.old i)) }
{
    let mut i = 0;
    while i < n {
        let e = (i + 128).min(n);
        let from = i * 4;
        let to = e * 4;
        let m = to - from;
        masked_block(
            mode,
            coverage,
            &mask[i..e],
            &src[from..to],
            &mut blended[0..m],
            &mut wide[0..m],
            &mut row[from..to],
            e - i,
        );
        i = e;
    }
}

// Buffers of just their length.
fn masked_block(
    mode: u16,
    coverage: u8,
    mask: &[u8],
    src: &[u8],
    blended: &mut [u8],
    wide: &mut [u8],
    row: &mut [u8],
    n: usize,
)
    requires coverage_bound { (coverage ≤ 16) × (length mask.now ≡ n) × (length src.now ≡ n * 4) × (length row.old ≡ n * 4) }
    requires blended_len { (length blended.old ≡ n * 4) × (length wide.old ≡ n * 4) }
    ensures { row.new
        ≡ run n (λ i. composite_on mode coverage (get_or mask.now i 0) (pixel_in src.now i) (pixel_in row.old i)) }
{
    copy_row(row, blended);
    composite_painted(mode, 16, src, blended, n);
    spread_row(mask, wide, n);
    masked_row(coverage, blended, wide, row, n);
}
