// The step on one pixel: the paint blended with what stands there, then stored by its coverage and the mask's byte.
ghost use Rattle.std.specs.Prelude.{◌≡◌, ◌&&◌, min, ◌≤◌, leb};
ghost use Rattle.blend.specs.PorterDuff.{is_mode, blended, stored, stored_unmasked, clamped, composite_on, composite, composite_answer};
ghost use Rattle.blend.specs.Unmasked.{unmasked_on};
ghost use Rattle.blend.specs.Spans.{blended_pixel, stored_pixel};

use crate::Composited;
use crate::factor::{destination_factor, hides, is_mode, source_factor};
use codes::{ACCEPTED, ILLEGAL_ARGUMENT};
use color::{Pixel, over_255};

// The step called alone, on any numbers and any bytes.
pub fn composite(mode: u32, coverage: u32, mask: u32, src: Pixel, dst: Pixel) -> Composited
    ensures { result ≡ composite_answer mode coverage mask src dst }
{
    if accepts(mode, coverage, mask) {
        Composited {
            code: ACCEPTED,
            pixel: composite_pixel(mode as u16, coverage as u8, mask as u8, src, dst),
        }
    } else {
        Composited {
            code: ILLEGAL_ARGUMENT,
            pixel: dst,
        }
    }
}

// The step on any bytes: with no sample covered the pixel stays as it is, else it is read clamped.
pub fn composite_pixel(mode: u16, coverage: u8, mask: u8, src: Pixel, dst: Pixel) -> Pixel
    requires { coverage ≤ 16 }
    ensures { result ≡ composite mode coverage mask src dst }
{
    let read = clamp(dst);
    if coverage == 0 {
        return dst;
    }
    composite_on(mode, coverage, mask, src, read)
}

// The step on a destination as it is read. A whole mask byte is none, and no sample covered keeps the pixel.
pub fn composite_on(mode: u16, coverage: u8, mask: u8, src: Pixel, read: Pixel) -> Pixel
    requires { coverage ≤ 16 }
    ensures { result ≡ composite_on mode coverage mask src read }
{
    if mask == 255 {
        return unmasked_on(mode, coverage, src, read);
    }
    if coverage == 0 {
        return read;
    }
    masked_pixel(mode, coverage, mask, src, read)
}

// Its four bytes under a mask.
#[tactic(auto, unfolding(crate::specs::PorterDuff::composite_byte))]
fn masked_pixel(mode: u16, coverage: u8, mask: u8, src: Pixel, read: Pixel) -> Pixel
    requires { coverage ≤ 16 }
    ensures { result ≡ composite_on mode coverage mask src read }
{
    let fs = source_factor(mode, read.a);
    let fd = destination_factor(mode, src.a);
    let b = blended_pixel(src, fs, read, fd);
    b.zip(read, |b, d| masked_byte(coverage, mask, b, d))
}

// The step without a mask, with what needs no arithmetic first: no sample covered keeps the pixel, and the whole of the paint replaces it.
pub fn unmasked_on(mode: u16, coverage: u8, src: Pixel, read: Pixel) -> Pixel
    requires { coverage ≤ 16 }
    ensures { result ≡ unmasked_on mode coverage src read }
{
    if coverage == 0 {
        return read;
    }
    if coverage == 16 {
        if hides(mode, src.a) {
            return src;
        }
    }
    blend_pixel(mode, coverage, src, read)
}

// Its four bytes.
pub fn blend_pixel(mode: u16, coverage: u8, src: Pixel, read: Pixel) -> Pixel
    requires { coverage ≤ 16 }
    ensures { result ≡ unmasked_on mode coverage src read }
{
    let fs = source_factor(mode, read.a);
    let fd = destination_factor(mode, src.a);
    stored_pixel(coverage, blended_pixel(src, fs, read, fd), read)
}

// What is stored of a pixel over another, without a mask.
pub fn stored_pixel(coverage: u8, b: Pixel, d: Pixel) -> Pixel
    requires { coverage ≤ 16 }
    ensures { result ≡ stored_pixel coverage b d }
{
    b.zip(d, |b, d| stored_byte(coverage, b, d))
}

// B of each channel.
fn blended_pixel(src: Pixel, fs: u8, dst: Pixel, fd: u8) -> Pixel
    ensures { result ≡ blended_pixel src fs dst fd }
{
    src.zip(dst, |s, d| blended_byte(s, fs, d, fd))
}

// What the step called alone takes. A mode has 16 bits, as in the scene file; a larger number is none.
fn accepts(mode: u32, coverage: u32, mask: u32) -> bool
    ensures { result ≡ (is_mode mode && (leb coverage 16 && leb mask 255)) }
{
    if mode > 65535 {
        return false;
    }
    if !is_mode(mode as u16) {
        return false;
    }
    coverage <= 16 && mask <= 255
}

// A destination as it is read: no channel above its alpha.
fn clamp(dst: Pixel) -> Pixel
    ensures { result ≡ clamped dst }
{
    dst.map(|c| c.min(dst.a))
}

// B. What is divided by 255 may be up to 130,177; from 65,025 on B is 255, so it is cut where the division ends.
#[tactic(auto, using(crate::proofs::Channel::cut_quotient))]
fn blended_byte(s: u8, fs: u8, d: u8, fd: u8) -> u8
    ensures { result ≡ blended s fs d fd }
{
    let p = (s as u16) * (fs as u16) + 127;
    over_255(p + ((d as u16) * (fd as u16)).min(65279 - p))
}

// What is stored of B over d, without a mask.
pub fn stored_byte(coverage: u8, b: u8, d: u8) -> u8
    requires { coverage ≤ 16 }
    ensures { result ≡ stored_unmasked coverage b d }
{
    let k = coverage as u16;
    (((b as u16) * k + (d as u16) * (16 - k) + 8) >> 4) as u8
}

// What is stored of B over d, under the mask's byte: 4,080 is 16 times 255.
pub fn masked_byte(coverage: u8, mask: u8, b: u8, d: u8) -> u8
    requires { coverage ≤ 16 }
    ensures { result ≡ stored coverage mask b d }
{
    let w = (coverage as u16) * (mask as u16);
    let n = (b as u32) * (w as u32) + (d as u32) * ((4080 - w) as u32) + 2040;
    over_255((n >> 4) as u16)
}
