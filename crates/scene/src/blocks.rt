// Blocks: their check, and the bytes of a draw.
ghost use Rattle.std.specs.Prelude.{◌≡◌, ◌&&◌, ◌+◌, ◌*◌, ◌<◌, ◌≤◌, length, eqb};
ghost use Rattle.scene.specs.Layout.{block_bytes, payload_bytes, check_modulus, draw_blocks, draw_bytes};
ghost use Rattle.scene.specs.Strips.{column_of};
ghost use Rattle.scene.specs.Blocks.{checksum_of, block_right, block_of, draw_of, same_to, same_draw};

use crate::layout::{BLOCK_BYTES, CHECK_MODULUS, DRAW_BLOCKS, PAYLOAD_BYTES};
use crate::{Checksum, Column};
use blend::bytewise::copy_row;
use fixed::u16_at;

// The words of a strip; a payload has seven strips side by side, and two words behind them.
const STRIP_WORDS: u32 = 36;

// The check of the payload at a place; both sums begin at start. Word l of strip h counts 36 h + l + 1 times in the second: l + 1 times in
// each strip alike, so that one product serves for seven words.
pub fn checksum(start: u32, s: &[u8], at: usize) -> Checksum
    requires { (start < 65536) × (at + payload_bytes ≤ length s.now) }
    ensures { result ≡ checksum_of start s.now at }
{
    let mut plain = start;
    let mut weighted = start;
    let mut late = 0;
    for l in 0..STRIP_WORDS {
        let c = column(s, at + 2 * l as usize);
        plain += c.all;
        late += c.late;
        weighted += (l + 1) * c.all;
    }
    let x = u16_at(s, at + 504);
    let y = u16_at(s, at + 506);
    Checksum {
        plain: ((plain + x + y) % CHECK_MODULUS) as u16,
        weighted: ((weighted + STRIP_WORDS * late + 253 * x + 254 * y) % CHECK_MODULUS) as u16,
    }
}

// The words of the strips at one place, by sums from the last strip back.
fn column(s: &[u8], at: usize) -> Column
    requires { at + 434 ≤ length s.now }
    ensures { (result ≡ column_of s.now at) × (result.all ≤ 458745) × (result.late ≤ 1376235) }
{
    let from6 = u16_at(s, at + 432);
    let from5 = from6 + u16_at(s, at + 360);
    let from4 = from5 + u16_at(s, at + 288);
    let from3 = from4 + u16_at(s, at + 216);
    let from2 = from3 + u16_at(s, at + 144);
    let from1 = from2 + u16_at(s, at + 72);
    Column {
        all: from1 + u16_at(s, at),
        late: from1 + from2 + from3 + from4 + from5 + from6,
    }
}

// Whether block b has the check that its payload asks for. Both sums begin at b, so that a block out of its place is wrong.
pub fn block_right(s: &[u8], b: usize) -> bool
    requires { (b < check_modulus) × (block_bytes * b + block_bytes ≤ length s.now) }
    ensures { result ≡ block_right s.now b }
{
    let at = BLOCK_BYTES * b;
    let sum = checksum(b as u32, s, at);
    u16_at(s, at + PAYLOAD_BYTES) == sum.plain as u32
        && u16_at(s, at + PAYLOAD_BYTES + 2) == sum.weighted as u32
}

// The joined payloads of draw i.
pub fn read_draw(s: &[u8], i: usize, out: &mut [u8])
    requires i_in_bounds { block_bytes * block_of (i + 1) ≤ length s.now }
    requires out_len { length out.old ≡ draw_bytes }
    ensures { out.new ≡ draw_of s.now i }
{
    let first = 1 + DRAW_BLOCKS * i;
    for j in 0..DRAW_BLOCKS {
        let at = PAYLOAD_BYTES * j;
        let from = BLOCK_BYTES * (first + j);
        copy_row(
            &s[from..from + PAYLOAD_BYTES],
            &mut out[at..at + PAYLOAD_BYTES],
        );
    }
}

// Whether draw i has the same bytes in two files, block by block, where they stand.
pub fn same_draw(s: &[u8], t: &[u8], i: usize) -> bool
    requires { (block_bytes * block_of (i + 1) ≤ length s.now) × (block_bytes * block_of (i + 1) ≤ length t.now) }
    ensures { result ≡ same_draw (draw_of s.now i) (draw_of t.now i) }
{
    let mut same = true;
    for j in 0..DRAW_BLOCKS {
        same = same_block(same, s, t, i, j);
    }
    same
}

// Whether all before payload j of draw i was the same, and the payload is, by a loop that looks at every byte, and so at many at a time.
fn same_block(before: bool, s: &[u8], t: &[u8], i: usize, j: usize) -> bool
    requires i_in_bounds { (block_bytes * block_of (i + 1) ≤ length s.now) × (block_bytes * block_of (i + 1) ≤ length t.now) × (j < draw_blocks) }
    requires before_value { before ≡ same_to (draw_of s.now i) (draw_of t.now i) (payload_bytes * j) }
    ensures { result ≡ same_to (draw_of s.now i) (draw_of t.now i) (payload_bytes * (j + 1)) }
{
    let at = BLOCK_BYTES * (1 + DRAW_BLOCKS * i + j);
    let mut same = before;
    for k in 0..PAYLOAD_BYTES {
        same = still_same(same, s[at + k], t[at + k]);
    }
    same
}

// Whether all was the same so far, and two bytes are.
pub fn still_same(all: bool, x: u8, y: u8) -> bool
    ensures { result ≡ (all && eqb x y) }
{
    all & (x == y)
}
