// Block 0: its fields, and their rules.
ghost use Rattle.std.specs.Prelude.{◌≡◌, ◌≤◌, ◌<◌, length};
ghost use Rattle.fixed.specs.Little.{u16_at};
ghost use Rattle.scene.specs.Layout.{block_bytes, header_end};
ghost use Rattle.scene.specs.Header.{width_of, height_of, count_of, edition_of, background_of};
ghost use Rattle.scene.specs.Faults as Faults;
ghost use Rattle.scene.specs.Rules.{is_side, header_rules};

use crate::FieldFault;
use crate::faults::{must, unused};
use crate::layout::{
    BACKGROUND_AT, COUNT_AT, DRAW_LIMIT, EDITION_AT, HEADER_END, HEIGHT_AT, NEW_EDITION,
    PAYLOAD_BYTES, SIDE_LIMIT, WIDTH_AT,
};
use color::Pixel;
use fixed::u16_at;

// The picture's width, in pixels.
pub fn width(s: &[u8]) -> usize
    requires { block_bytes ≤ length s.now }
    ensures { (result ≡ width_of s.now) × (result < 65536) }
{
    u16_at(s, WIDTH_AT) as usize
}

// The picture's height.
pub fn height(s: &[u8]) -> usize
    requires { block_bytes ≤ length s.now }
    ensures { (result ≡ height_of s.now) × (result < 65536) }
{
    u16_at(s, HEIGHT_AT) as usize
}

// The number of draws.
pub fn count(s: &[u8]) -> usize
    requires { block_bytes ≤ length s.now }
    ensures { (result ≡ count_of s.now) × (result < 65536) }
{
    u16_at(s, COUNT_AT) as usize
}

// The edition of its draws.
pub fn edition(s: &[u8]) -> u32
    requires { block_bytes ≤ length s.now }
    ensures { result ≡ edition_of s.now }
{
    u16_at(s, EDITION_AT)
}

// The background as given, not premultiplied.
pub fn background(s: &[u8]) -> Pixel
    requires { block_bytes ≤ length s.now }
    ensures { result ≡ background_of s.now }
{
    Pixel {
        r: s[BACKGROUND_AT],
        g: s[BACKGROUND_AT + 1],
        b: s[BACKGROUND_AT + 2],
        a: s[BACKGROUND_AT + 3],
    }
}

// The fields in order.
#[tactic(auto, using(crate::proofs::First::in_order), unfolding(crate::specs::Rules::header_rules))]
pub fn header_rules(s: &[u8]) -> Result<(), FieldFault>
    requires { block_bytes ≤ length s.now }
    ensures { result ≡ header_rules s.now }
{
    side_rule(s, WIDTH_AT)?;
    side_rule(s, HEIGHT_AT)?;
    must(u16_at(s, COUNT_AT) <= DRAW_LIMIT, COUNT_AT)?;
    must(edition(s) <= NEW_EDITION, EDITION_AT)?;
    unused(s, HEADER_END, PAYLOAD_BYTES)
}

// A side of a picture: 1 to 1,024 pixels.
fn side_rule(s: &[u8], at: usize) -> Result<(), FieldFault>
    requires { (block_bytes ≤ length s.now) × (at < header_end) }
    ensures { result ≡ Faults.must (is_side (u16_at s.now at)) at }
{
    must(is_side(u16_at(s, at)), at)
}

fn is_side(n: u32) -> bool
    ensures { result ≡ is_side n }
{
    1 <= n && n <= SIDE_LIMIT
}
