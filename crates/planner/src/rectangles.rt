// Rectangles one after the other: what they lie in, and how a proposal writes them.
ghost use Rattle.std.specs.Prelude.{◌≡◌, ◌+◌, ◌*◌, ◌≤◌, ◌<◌, length};
ghost use Rattle.lists.specs.Lists.{tab, over};
ghost use Rattle.rect.specs.Rects.{On, smallest};
ghost use Rattle.planner.specs.Runs.{rect_at, numbers_of, put_four, Sized};

use rect::Rect;

// The smallest rectangle round all.
pub fn around(s: &[Rect]) -> Rect
    ensures { result ≡ smallest (tab (length s.now) (rect_at s.now)) }
{
    let mut r = Rect::EMPTY;
    for a in s {
        r = r.join(*a);
    }
    r
}

// Writes them as x, y, width and height.
pub fn write(s: &[Rect], out: &mut [i32])
    requires n_in_bounds { length s.now * 4 ≤ length out.old }
    requires sized { Sized (length s.now) (rect_at s.now) }
    ensures { out.new ≡ over (numbers_of (length s.now) (rect_at s.now)) out.old }
{
    for (k, a) in s.iter().enumerate() {
        write_rect(*a, out, k);
    }
}

// Writes one as the proposal's rectangle k.
fn write_rect(a: Rect, out: &mut [i32], k: usize)
    requires { On 1024 1024 a × (k * 4 + 3 < length out.old) }
    ensures { out.new ≡ put_four out.old (k * 4) a }
{
    let at = k * 4;
    out[at] = a.x0 as i32;
    out[at + 1] = a.y0 as i32;
    out[at + 2] = (a.x1 - a.x0) as i32;
    out[at + 3] = (a.y1 - a.y0) as i32;
}
