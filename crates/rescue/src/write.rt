// The salvaged scene and the list of its replaced draws.
ghost use Rattle.std.specs.Prelude.{◌≡◌, ◌+◌, ◌*◌, ◌≤◌, ◌<◌, cond, ltb, length, set};
ghost use Rattle.lists.specs.Lists.{upto, over};
ghost use Rattle.scene.specs.Layout.{block_bytes, draw_limit};
ghost use Rattle.scene.specs.Blocks.{block_of};
ghost use Rattle.scene.specs.Header.{count_of};
ghost use Rattle.rescue.specs.Salvaged.{draw_span, salvaged_draw, salvaged_scene, listed_to, replaced_to, answer_of, written, fitting};

use crate::Salvaged;
use crate::fresh::put_empty;
use crate::judge::salvage_verdict;
use blend::bytewise::copy_row;
use codes::ACCEPTED;
use scene::header::count;
use scene::layout::{BLOCK_BYTES, DRAW_BLOCKS};
use scene::verdict::draw_fault;

// The bytes of a draw's four blocks.
const DRAW_SPAN: usize = 2048;

// Writes the salvaged scene to the start of a place, and the number and the code of each replaced draw to the start of a list, as far as the list
// goes. Where it is refused nothing is written.
pub fn salvage(s: &[u8], place: &mut [u8], list: &mut [u32]) -> Salvaged
    ensures answer { result ≡ answer_of s.now (length place.old) }
    ensures scene { place.new ≡ written result.code (salvaged_scene s.now) place.old }
    ensures listed { list.new
        ≡ written result.code (fitting (length list.old) (listed_to s.now (count_of s.now))) list.old }
{
    if let Err(code) = salvage_verdict(s, place.len()) {
        return Salvaged {
            code: code.number(),
            replaced: 0,
        };
    }
    let n = count(s);
    let end = s.len();
    write_scene(s, n, &mut place[0..end]);
    let replaced = write_list(s, n, list);
    Salvaged {
        code: ACCEPTED,
        replaced,
    }
}

// The salvaged scene, to a place of its length.
fn write_scene(s: &[u8], n: usize, out: &mut [u8])
    requires { (n ≡ count_of s.now) × (n ≤ draw_limit) × (length s.now ≡ block_bytes * block_of n) × (length out.old ≡ length s.now) }
    ensures { out.new ≡ salvaged_scene s.now }
{
    copy_row(&s[0..BLOCK_BYTES], &mut out[0..BLOCK_BYTES]);
    let end = out.len();
    write_draws(s, n, &mut out[BLOCK_BYTES..end]);
}

// The blocks of n draws.
fn write_draws(s: &[u8], n: usize, out: &mut [u8])
    requires { (n ≤ draw_limit) × (length s.now ≡ block_bytes * block_of n) × (length out.old ≡ draw_span * n) }
    ensures { out.new ≡ upto n (salvaged_draw s.now) }
{
    for i in 0..n {
        let at = DRAW_SPAN * i;
        write_draw(s, i, &mut out[at..at + DRAW_SPAN]);
    }
}

// The blocks of draw i, as they are or the empty draw's, judged by itself, with a mask counted as lent.
fn write_draw(s: &[u8], i: usize, out: &mut [u8])
    requires { (i < draw_limit) × (block_bytes * block_of (i + 1) ≤ length s.now) × (length out.old ≡ draw_span) }
    ensures { out.new ≡ salvaged_draw s.now i }
{
    if draw_fault(s, i, true).is_ok() {
        let at = BLOCK_BYTES * (1 + DRAW_BLOCKS * i);
        copy_row(&s[at..at + DRAW_SPAN], out);
    } else {
        put_empty(i, out);
    }
}

// The replaced ones of n draws, two numbers each, as far as the list goes, and how many they are.
fn write_list(s: &[u8], n: usize, list: &mut [u32]) -> u32
    requires { (n ≤ draw_limit) × (length s.now ≡ block_bytes * block_of n) }
    ensures { (result ≡ replaced_to s.now n)
        × (list.new ≡ over (fitting (length list.old) (listed_to s.now n)) list.old) }
{
    let mut k = 0;
    for i in 0..n {
        if let Err(f) = draw_fault(s, i, true) {
            put_entry(list, k, i as u32, f.code.number());
            k += 1;
        }
    }
    k as u32
}

// The kth of the replaced draws and its code, if the list has two numbers for it.
fn put_entry(list: &mut [u32], k: usize, draw: u32, code: u32)
    requires { k < draw_limit }
    ensures { list.new
        ≡ cond (ltb (2 * k + 1) (length list.old)) (set (set list.old (2 * k) draw) (2 * k + 1) code) list.old }
{
    let at = 2 * k;
    if at + 1 < list.len() {
        list[at] = draw;
        list[at + 1] = code;
    }
}
