// The pixels of a block as numbers of 32 bits, R lowest, or two of 16: each loop here is one of plain numbers, which the compiler does several at a time.
ghost use Rattle.std.specs.Prelude.{◌≡◌, ◌+◌, ◌-◌, ◌*◌, ◌/◌, ◌<◌, ◌≤◌, min, length, pos, ◌+ℤ◌, ◌*ℤ◌, slice_index, unsigned_abs};
ghost use Rattle.fixed.specs.Floor.{floor_div};
ghost use Rattle.lists.specs.Lists.{tab};
ghost use Rattle.color.specs.Channels.{premultiplied};
ghost use Rattle.raster.specs.Surface.{run};
ghost use Rattle.paint.specs.Ramps.{mix_byte, mix_pixel};
ghost use Rattle.paint.specs.Buffers.{unpacked, line_parts};
ghost use Rattle.paint.specs.Segments.{Words, Planes, Covering, OnRamp, finished, position_of, two_stops, mix_pair, left_pair, right_pair, of_pairs};

use crate::positions::line_ts;
use crate::ramp::{pack, unpack};
use color::{Pixel, premultiply};

// How many pixels are made at a time, at most.
pub const BLOCK: usize = 256;

// A pixel as one number.
pub fn word(c: Pixel) -> u32
    ensures { unpacked result ≡ c }
{
    pack(c)
}

// The colours between two stops at 0 and 65,536 in place of positions.
pub fn mix_words(c: Pixel, d: Pixel, ks: &mut [u32])
    requires { length ks.old ≤ 256 }
    ensures { Words (λ i. two_stops c d (slice_index ks.old i)) (length ks.old) ks.new }
{
    let mut left = [0u16; BLOCK];
    let mut right = [0u16; BLOCK];
    mix_in(c, d, &mut left, &mut right, ks);
}

// The same with room for the pairs of a block.
fn mix_in(c: Pixel, d: Pixel, left: &mut [u16], right: &mut [u16], ks: &mut [u32])
    requires { (length left.old ≡ 256) × (length right.old ≡ 256) × (length ks.old ≤ 256) }
    ensures { Words (λ i. two_stops c d (slice_index ks.old i)) (length ks.old) ks.new }
{
    let n = ks.len();
    mix_planes(c, d, &mut left[0..n], &mut right[0..n], ks);
}

// The same with as much room as there are pixels.
fn mix_planes(c: Pixel, d: Pixel, left: &mut [u16], right: &mut [u16], ks: &mut [u32])
    requires { (length left.old ≡ length ks.old) × (length right.old ≡ length ks.old) × (length ks.old ≤ 256) }
    ensures { Words (λ i. two_stops c d (slice_index ks.old i)) (length ks.old) ks.new }
{
    take_ts(ks, left, right);
    mix_ts(c, d, left, right, ks);
}

// The pixels between two stops at 0 and 65,536 whose t is a line, premultiplied if the stops were not: as many as the row has room for.
pub fn line_pixels(premultiply: bool, c: Pixel, d: Pixel, first: i64, step: i64, row: &mut [u8])
    requires first_bound { (unsigned_abs first ≤ 2305843009213693952) × (unsigned_abs step ≤ 18014398509481984) }
    requires row_len { (length row.old ≡ length row.old / 4 * 4) × (length row.old / 4 ≤ 256) }
    ensures { row.new
        ≡ run (length row.old / 4) (λ i. finished premultiply (two_stops c d (position_of (floor_div (first +ℤ step *ℤ pos i) line_parts)))) }
{
    let mut left = [0u16; BLOCK];
    let mut right = [0u16; BLOCK];
    line_in(premultiply, c, d, first, step, &mut left, &mut right, row);
}

// The same with room for the pairs of a block.
fn line_in(
    premultiply: bool,
    c: Pixel,
    d: Pixel,
    first: i64,
    step: i64,
    left: &mut [u16],
    right: &mut [u16],
    row: &mut [u8],
)
    requires first_bound { (unsigned_abs first ≤ 2305843009213693952) × (unsigned_abs step ≤ 18014398509481984) × (length left.old ≡ 256)
        × (length right.old ≡ 256) }
    requires row_len { (length row.old ≡ length row.old / 4 * 4) × (length row.old / 4 ≤ 256) }
    ensures { row.new
        ≡ run (length row.old / 4) (λ i. finished premultiply (two_stops c d (position_of (floor_div (first +ℤ step *ℤ pos i) line_parts)))) }
{
    let n = row.len() / 4;
    line_planes(
        premultiply,
        c,
        d,
        first,
        step,
        &mut left[0..n],
        &mut right[0..n],
        row,
    );
}

// The same with as much room as there are pixels.
fn line_planes(
    premultiply: bool,
    c: Pixel,
    d: Pixel,
    first: i64,
    step: i64,
    left: &mut [u16],
    right: &mut [u16],
    row: &mut [u8],
)
    requires first_bound { (unsigned_abs first ≤ 2305843009213693952) × (unsigned_abs step ≤ 18014398509481984) }
    requires row_len { (length row.old ≡ length left.old * 4) × (length right.old ≡ length left.old) × (length left.old ≤ 256) }
    ensures { row.new
        ≡ run (length left.old) (λ i. finished premultiply (two_stops c d (position_of (floor_div (first +ℤ step *ℤ pos i) line_parts)))) }
{
    line_ts(first, step, left, right);
    mix_finished(premultiply, c, d, left, right);
    put_planes(left, right, row);
}

// The bytes of pixels that are two planes of pairs. A pixel's pairs are joined where they are stored, so that no words are kept between.
fn put_planes(left: &[u16], right: &[u16], row: &mut [u8])
    requires { (length row.old ≡ length left.now * 4) × (length right.now ≡ length left.now) × (length left.now ≤ 256) }
    ensures { row.new
        ≡ run (length left.now) (λ i. unpacked (slice_index left.now i + slice_index right.now i * 65536)) }
{
    for i in 0..left.len() {
        raster::put_pixel(row, i, unpack(joined(left[i], right[i])));
    }
}

// t at each position, for both pairs.
fn take_ts(ks: &[u32], left: &mut [u16], right: &mut [u16])
    requires { (length left.old ≡ length ks.now) × (length right.old ≡ length ks.now) × (length ks.now ≤ 256) }
    ensures left_after { left.new ≡ tab (length ks.now) (λ i. min (slice_index ks.now i - 1) 65535) }
    ensures right_after { right.new ≡ left.new }
{
    for i in 0..ks.len() {
        let t = on_ramp(ks[i]);
        left[i] = t;
        right[i] = t;
    }
}

// t at a position, cut to 0..65,535.
fn on_ramp(k: u32) -> u16
    ensures { result ≡ min (k - 1) 65535 }
{
    (k.clamp(1, 65536) - 1) as u16
}

// The colours at t, which both left and right hold. Equal alphas have no way of their own here: one more loop, built in beside the segments, would leave
// the compiler too few registers for theirs.
fn mix_ts(c: Pixel, d: Pixel, left: &mut [u16], right: &mut [u16], ws: &mut [u32])
    requires { OnRamp left.old × (right.old ≡ left.old) × (length left.old ≡ length ws.old) × (length ws.old ≤ 256) }
    ensures { Words (λ i. mix_pixel 0 65536 (slice_index left.old i) c d) (length ws.old) ws.new }
{
    mix_pairs(c.r, d.r, c.g, d.g, left);
    mix_pairs(c.b, d.b, c.a, d.a, right);
    join(left, right, ws);
}

// Pairs of the colours at t in place of t, premultiplied if the stops were not. Between two alphas of 255 that changes nothing.
fn mix_finished(premultiply: bool, c: Pixel, d: Pixel, left: &mut [u16], right: &mut [u16])
    requires { OnRamp left.old × (right.old ≡ left.old) × (length left.old ≤ 256) }
    ensures { Planes (λ i. finished premultiply (mix_pixel 0 65536 (slice_index left.old i) c d))
        (length left.old) left.new right.new }
{
    mix_colors(c, d, left, right);
    if premultiply {
        return;
    }
    if c.a.min(d.a) == 255 {
        return;
    }
    premultiply_pairs(left, right);
}

// Pairs of the colours at t in place of t: R and G in left, B and A in right. Numbers of 16 bits are multiplied eight at a time.
fn mix_colors(c: Pixel, d: Pixel, left: &mut [u16], right: &mut [u16])
    requires { OnRamp left.old × (right.old ≡ left.old) × (length left.old ≤ 256) }
    ensures { Planes (λ i. mix_pixel 0 65536 (slice_index left.old i) c d) (length left.old) left.new right.new }
{
    mix_pairs(c.r, d.r, c.g, d.g, left);
    mix_with_alpha(c.b, d.b, c.a, d.a, right);
}

// Two channels in place of t.
fn mix_pairs(ci: u8, cj: u8, di: u8, dj: u8, ts: &mut [u16])
    requires { length ts.old ≤ 256 }
    ensures { ts.new ≡ tab (length ts.old) (λ i. mix_pair ci cj di dj (slice_index ts.old i)) }
{
    for i in 0..ts.len() {
        ts[i] = mixed_pair(ci, cj, di, dj, ts[i]);
    }
}

// A channel and alpha in place of t. An alpha that both stops have needs no mixing.
fn mix_with_alpha(ci: u8, cj: u8, ai: u8, aj: u8, ts: &mut [u16])
    requires { length ts.old ≤ 256 }
    ensures { ts.new ≡ tab (length ts.old) (λ i. mix_pair ci cj ai aj (slice_index ts.old i)) }
{
    if ai == aj {
        mix_under_alpha(ci, cj, ai, ts);
        return;
    }
    mix_pairs(ci, cj, ai, aj, ts);
}

// The same of two stops with one alpha.
fn mix_under_alpha(ci: u8, cj: u8, a: u8, ts: &mut [u16])
    requires { length ts.old ≤ 256 }
    ensures { ts.new ≡ tab (length ts.old) (λ i. mix_pair ci cj a a (slice_index ts.old i)) }
{
    for i in 0..ts.len() {
        ts[i] = mixed_under_alpha(ci, cj, a, ts[i]);
    }
}

fn mixed_pair(ci: u8, cj: u8, di: u8, dj: u8, t: u16) -> u16
    ensures { result ≡ mix_pair ci cj di dj t }
{
    mixed(ci, cj, t) + mixed(di, dj, t) * 256
}

fn mixed_under_alpha(ci: u8, cj: u8, a: u8, t: u16) -> u16
    ensures { result ≡ mix_pair ci cj a a t }
{
    mixed(ci, cj, t) + (a as u16) * 256
}

fn mixed(ci: u8, cj: u8, t: u16) -> u16
    ensures { (result ≡ mix_byte 0 65536 t ci cj) × (result < 256) }
{
    if ci <= cj {
        return risen(ci, cj, t);
    }
    fallen(ci, cj, t)
}

// A product's high 16 bits, and what the low ones are rounded to.
fn risen(ci: u8, cj: u8, t: u16) -> u16
    requires { ci ≤ cj }
    ensures { result ≡ mix_byte 0 65536 t ci cj }
{
    let p = ((cj - ci) as u32) * (t as u32);
    (ci as u16) + ((p / 65536) as u16) + ((p % 65536) as u16) / 32768
}

fn fallen(ci: u8, cj: u8, t: u16) -> u16
    requires { cj ≤ ci }
    ensures { result ≡ mix_byte 0 65536 t ci cj }
{
    let p = ((ci - cj) as u32) * (t as u32);
    (ci as u16) - ((p / 65536) as u16) - ((p % 65536) as u16).saturating_sub(1) / 32768
}

// The pixels of two planes of pairs premultiplied.
fn premultiply_pairs(left: &mut [u16], right: &mut [u16])
    requires { (length right.old ≡ length left.old) × (length left.old ≤ 256) }
    ensures left_after { left.new
        ≡ tab (length left.old) (λ i. left_pair (premultiplied (of_pairs (slice_index left.old i) (slice_index right.old i)))) }
    ensures right_after { right.new
        ≡ tab (length left.old) (λ i. right_pair (premultiplied (of_pairs (slice_index left.old i) (slice_index right.old i)))) }
{
    for i in 0..left.len() {
        let l = left[i];
        let r = right[i];
        left[i] = premultiplied_left(l, r);
        right[i] = premultiplied_right(r);
    }
}

// R and G times alpha.
fn premultiplied_left(left: u16, right: u16) -> u16
    ensures { result ≡ left_pair (premultiplied (of_pairs left right)) }
{
    let a = (right / 256) as u8;
    pair(
        premultiply((left % 256) as u8, a),
        premultiply((left / 256) as u8, a),
    )
}

// B times alpha, and alpha. R and G do not matter to it.
fn premultiplied_right(right: u16) -> u16
    ensures { result ≡ right_pair (premultiplied (of_pairs 0 right)) }
{
    let a = (right / 256) as u8;
    pair(premultiply((right % 256) as u8, a), a)
}

// Two bytes as one number.
fn pair(low: u8, high: u8) -> u16
    ensures { result ≡ low + high * 256 }
{
    (low as u16) + (high as u16) * 256
}

// Two planes of pairs as one of words.
fn join(left: &[u16], right: &[u16], ws: &mut [u32])
    requires { (length left.now ≡ length ws.old) × (length right.now ≡ length ws.old) × (length ws.old ≤ 256) }
    ensures { ws.new ≡ tab (length ws.old) (λ i. slice_index left.now i + slice_index right.now i * 65536) }
{
    for i in 0..ws.len() {
        ws[i] = joined(left[i], right[i]);
    }
}

fn joined(low: u16, high: u16) -> u32
    ensures { result ≡ low + high * 65536 }
{
    (low as u32) + (high as u32) * 65536
}

// Premultiplied, if the stops were not.
pub fn finish_words(premultiply: bool, ws: &mut [u32])
    requires { length ws.old ≤ 1024 }
    ensures { Words (λ i. finished premultiply (unpacked (slice_index ws.old i))) (length ws.old) ws.new }
{
    if premultiply {
        return;
    }
    if lowest_alpha(ws) == 255 {
        return;
    }
    premultiply_words(ws);
}

// Under the alpha 255 a colour is the same premultiplied.
fn lowest_alpha(ws: &[u32]) -> u8
    requires { length ws.now ≤ 1024 }
    ensures { Covering result (length ws.now) ws.now }
{
    let mut low: u8 = 255;
    for i in 0..ws.len() {
        low = low.min(unpack(ws[i]).a);
    }
    low
}

fn premultiply_words(ws: &mut [u32])
    requires { length ws.old ≤ 1024 }
    ensures { Words (λ i. premultiplied (unpacked (slice_index ws.old i))) (length ws.old) ws.new }
{
    for i in 0..ws.len() {
        ws[i] = premultiplied_word(ws[i]);
    }
}

fn premultiplied_word(w: u32) -> u32
    ensures { unpacked result ≡ premultiplied (unpacked w) }
{
    word(unpack(w).premultiplied())
}

// The pixels' bytes. Four bytes of one number are one store.
pub fn put_words(ws: &[u32], row: &mut [u8])
    requires { (length ws.now ≤ 1024) × (length row.old ≡ length ws.now * 4) }
    ensures { row.new ≡ run (length ws.now) (λ i. unpacked (slice_index ws.now i)) }
{
    for i in 0..ws.len() {
        raster::put_pixel(row, i, unpack(ws[i]));
    }
}
