// The rectangles of a proposal, x, y, width, height for each, and whether they lie in the surface.
ghost use Rattle.std.specs.Prelude.{◌≡◌, ◌+◌, ◌*◌, ◌^◌, ◌≤◌, ◌<◌, nat_abs, length};
ghost use Rattle.regions.specs.Pixels.{every};
ghost use Rattle.regions.specs.Proposals.{lies, lies_in, proposed_at};

use rect::Rect;

// A number without its sign.
pub fn size(z: i32) -> usize
    ensures { (result ≡ nat_abs z) × (result ≤ 2 ^ 31) }
{
    z.unsigned_abs() as usize
}

// Rectangle k.
pub fn rect_at(s: &[i32], k: usize) -> Rect
    requires { k * 4 + 3 < length s.now }
    ensures { result ≡ proposed_at s.now k }
{
    let at = k * 4;
    let x = size(s[at]);
    let y = size(s[at + 1]);
    let width = size(s[at + 2]);
    let height = size(s[at + 3]);
    Rect {
        x0: x,
        y0: y,
        x1: x + width,
        y1: y + height,
    }
}

// Along one axis: whether a run from start on, of a size above 0, lies from 0 up to the limit.
fn run_lies(start: i32, size: i32, limit: usize) -> bool
    requires { limit ≤ 1024 }
    ensures { result ≡ lies start size limit }
{
    0 <= start && 0 < size && (start as i64) + (size as i64) <= (limit as i64)
}

// Whether rectangle k lies in a surface of w by h pixels.
#[tactic(auto, unfolding(crate::specs::Proposals::lies_in))]
fn lies_in(s: &[i32], k: usize, w: usize, h: usize) -> bool
    requires { (k * 4 + 3 < length s.now) × (w ≤ 1024) × (h ≤ 1024) }
    ensures { result ≡ lies_in w h s.now k }
{
    let at = k * 4;
    run_lies(s[at], s[at + 2], w) && run_lies(s[at + 1], s[at + 3], h)
}

// Whether each of the first n does.
pub fn all_lie(s: &[i32], n: usize, w: usize, h: usize) -> bool
    requires { (n * 4 ≤ length s.now) × (w ≤ 1024) × (h ≤ 1024) }
    ensures { result ≡ every n (lies_in w h s.now) }
{
    for k in 0..n {
        if !lies_in(s, k, w, h) {
            return false;
        }
    }
    true
}
