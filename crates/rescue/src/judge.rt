// Block 0 and the length, and the room for the scene.
ghost use Rattle.std.specs.Prelude.{◌≡◌, ◌&&◌, ◌%◌, eqb, leb, length};
ghost use Rattle.scene.specs.Layout.{block_bytes};
ghost use Rattle.scene.specs.Faults.{demand};
ghost use Rattle.rescue.specs.Salvaged.{front_verdict, salvage_verdict};

use codes::Code;
use scene::FieldFault;
use scene::blocks::block_right;
use scene::header::{count, header_rules};
use scene::layout::{BLOCK_BYTES, DRAW_BLOCKS};

// The scene rules up to the draws.
#[tactic(auto, using(crate::proofs::Verdicts::in_order), unfolding(crate::specs::Salvaged::front_verdict))]
fn front_verdict(s: &[u8]) -> Result<(), Code>
    ensures { result ≡ front_verdict s.now }
{
    demand(whole_blocks(s.len()), Code::BadLength)?;
    demand(block_right(s, 0), Code::BadChecksum)?;
    header_rules(s).map_err(|f: FieldFault| f.code)?;
    demand(
        s.len() == BLOCK_BYTES * (1 + DRAW_BLOCKS * count(s)),
        Code::BadLength,
    )
}

// The same, then a place of too few bytes for the scene.
#[tactic(auto, using(crate::proofs::Verdicts::in_order), unfolding(crate::specs::Salvaged::salvage_verdict))]
pub fn salvage_verdict(s: &[u8], bytes: usize) -> Result<(), Code>
    ensures { result ≡ salvage_verdict s.now bytes }
{
    front_verdict(s)?;
    demand(s.len() <= bytes, Code::OutOfMemory)
}

// Whether a file of that length is cut into blocks, and has block 0.
fn whole_blocks(length: usize) -> bool
    ensures { result ≡ eqb (length % block_bytes) 0 && leb block_bytes length }
{
    length % BLOCK_BYTES == 0 && BLOCK_BYTES <= length
}

// A rule, and the code where it is broken.
fn demand(ok: bool, code: Code) -> Result<(), Code>
    ensures { result ≡ demand ok code }
{
    if ok { Ok(()) } else { Err(code) }
}
