// Blocks with fresh checks.
ghost use Rattle.std.specs.Prelude.{◌≡◌, ◌+◌, ◌*◌, ◌<◌, ◌≤◌, length, take, drop};
ghost use Rattle.scene.specs.Layout.{block_bytes, payload_bytes, draw_bytes, draw_limit};
ghost use Rattle.rescue.specs.Fresh.{fresh_block, fresh_draw, empty_draw};
ghost use Rattle.rescue.specs.Salvaged.{draw_span};

use scene::blocks::checksum;
use scene::layout::{BLOCK_BYTES, DRAW_BLOCKS, DRAW_BYTES, PAYLOAD_BYTES};

// The check of the 508 bytes that stand in block b, written after them.
fn seal(block: &mut [u8], b: u32)
    requires { (b < 65536) × (length block.old ≡ block_bytes) }
    ensures { block.new ≡ fresh_block b (take payload_bytes block.old) }
{
    let k = checksum(b, block, 0);
    block[508..510].copy_from_slice(&k.plain.to_le_bytes());
    block[510..512].copy_from_slice(&k.weighted.to_le_bytes());
}

// Block b, from the payload that stands at a place of d.
fn put_block(d: &[u8], at: usize, b: u32, block: &mut [u8])
    requires { (b < 65536) × (at + payload_bytes ≤ length d.now) × (length block.old ≡ block_bytes) }
    ensures { block.new ≡ fresh_block b (take payload_bytes (drop at d.now)) }
{
    block[0..PAYLOAD_BYTES].copy_from_slice(&d[at..at + PAYLOAD_BYTES]);
    seal(block, b);
}

// The four blocks of draw i, from its bytes.
fn put_draw(d: &[u8], i: usize, out: &mut [u8])
    requires { (length d.now ≡ draw_bytes) × (i < draw_limit) × (length out.old ≡ draw_span) }
    ensures { out.new ≡ fresh_draw i d.now }
{
    let first = 1 + DRAW_BLOCKS * i;
    for j in 0..DRAW_BLOCKS {
        let at = BLOCK_BYTES * j;
        put_block(
            d,
            PAYLOAD_BYTES * j,
            (first + j) as u32,
            &mut out[at..at + BLOCK_BYTES],
        );
    }
}

// The empty draw as draw i: blend SRC OVER, paint a colour, spread PAD, all else zero.
pub fn put_empty(i: usize, out: &mut [u8])
    requires { (i < draw_limit) × (length out.old ≡ draw_span) }
    ensures { out.new ≡ fresh_draw i empty_draw }
{
    let mut d = [0u8; DRAW_BYTES];
    d[2] = 0x01;
    d[3] = 0x20;
    d[5] = 0x1B;
    d[7] = 0x1C;
    put_draw(&d, i, out);
}
