// The verdict on a scene: its first fault, in the order of the rules.
ghost use Rattle.std.specs.Prelude.{◌≡◌, ◌&&◌, ◌+◌, ◌*◌, ◌%◌, ◌≤◌, ◌<◌, length, eqb, leb};
ghost use Rattle.codes.specs.First.{first_among};
ghost use Rattle.scene.specs.Layout.{block_bytes, draw_limit};
ghost use Rattle.scene.specs.Blocks.{block_of};
ghost use Rattle.scene.specs.Faults as Faults;
ghost use Rattle.scene.specs.Rules.{in_header, in_draw, check_faults, draw_fault, scene_fault};

use crate::blocks::{block_right, read_draw};
use crate::header::{count, edition, header_rules};
use crate::layout::{BLOCK_BYTES, DRAW_BLOCKS, DRAW_BYTES, NO_DRAW, PAYLOAD_BYTES};
use crate::rules::draw_rules;
use crate::{Fault, FieldFault};
use codes::Code;

// The first fault of a scene, where a mask is lent or is not.
#[tactic(auto, using(crate::proofs::First::in_order), unfolding(crate::specs::Rules::scene_fault_from))]
pub fn verdict(s: &[u8], lent: bool) -> Result<(), Fault>
    ensures { result ≡ scene_fault lent s.now }
{
    let cut = fault(Code::BadLength, NO_DRAW, 0);
    demand(whole_blocks(s.len()), cut)?;
    demand(
        block_right(s, 0),
        fault(Code::BadChecksum, NO_DRAW, PAYLOAD_BYTES),
    )?;
    header_rules(s).map_err(in_header)?;
    let n = count(s);
    demand(s.len() == BLOCK_BYTES * (1 + DRAW_BLOCKS * n), cut)?;
    draw_faults(s, n, lent)
}

// Whether a file of that length is cut into blocks, and has block 0.
fn whole_blocks(length: usize) -> bool
    ensures { result ≡ eqb (length % block_bytes) 0 && leb block_bytes length }
{
    length % BLOCK_BYTES == 0 && BLOCK_BYTES <= length
}

// The first fault of n draws.
fn draw_faults(s: &[u8], n: usize, lent: bool) -> Result<(), Fault>
    requires { (length s.now ≡ block_bytes * block_of n) × (n ≤ draw_limit) }
    ensures { result ≡ first_among n (draw_fault lent s.now) }
{
    for i in 0..n {
        draw_fault(s, i, lent)?;
    }
    Ok(())
}

// Draw i: its four checks, then its own rules, in the scene's edition.
#[tactic(auto, using(crate::proofs::First::in_order), unfolding(crate::specs::Rules::draw_fault_from))]
pub fn draw_fault(s: &[u8], i: usize, lent: bool) -> Result<(), Fault>
    requires { (block_bytes * block_of (i + 1) ≤ length s.now) × (i < draw_limit) }
    ensures { result ≡ draw_fault lent s.now i }
{
    check_faults(s, i)?;
    let mut d = [0u8; DRAW_BYTES];
    read_draw(s, i, &mut d);
    draw_rules(&d, lent, edition(s)).map_err(
        |f: FieldFault| -> Fault
            requires { i < draw_limit }
            ensures { result ≡ in_draw i f }
        { in_draw(i, f) },
    )
}

// The checks of draw i's four blocks.
#[tactic(auto, using(crate::proofs::First::in_order), unfolding(crate::specs::Rules::check_faults_from))]
fn check_faults(s: &[u8], i: usize) -> Result<(), Fault>
    requires { (block_bytes * block_of (i + 1) ≤ length s.now) × (i < draw_limit) }
    ensures { result ≡ check_faults s.now i }
{
    let first = 1 + DRAW_BLOCKS * i;
    for j in 0..DRAW_BLOCKS {
        let b = first + j;
        let spoiled = fault(Code::BadChecksum, i, BLOCK_BYTES * b + PAYLOAD_BYTES);
        demand(block_right(s, b), spoiled)?;
    }
    Ok(())
}

// A fault of block 0, which begins the file.
fn in_header(f: FieldFault) -> Fault
    ensures { result ≡ in_header f }
{
    fault(f.code, NO_DRAW, f.place as usize)
}

// A fault of draw i.
fn in_draw(i: usize, f: FieldFault) -> Fault
    requires { i < draw_limit }
    ensures { result ≡ in_draw i f }
{
    let place = f.place as usize;
    let block = 1 + DRAW_BLOCKS * i + place / PAYLOAD_BYTES;
    fault(f.code, i, BLOCK_BYTES * block + place % PAYLOAD_BYTES)
}

fn fault(code: Code, draw: usize, offset: usize) -> Fault
    ensures { result ≡ Faults.fault code draw offset }
{
    Fault { code, draw, offset }
}

// A rule of the scene, and the fault where it is broken.
fn demand(ok: bool, fault: Fault) -> Result<(), Fault>
    ensures { result ≡ Faults.demand ok fault }
{
    if ok { Ok(()) } else { Err(fault) }
}
