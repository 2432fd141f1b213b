// Pixels in bytes, rows of pixels, and rectangles of a surface.
#![tactic(auto)]

ghost use Rattle.std.specs.Prelude.{◌≡◌, ◌+◌, ◌*◌, ◌<◌, length};
ghost use Rattle.raster.specs.Surface.{run, pixel_in, overlay};
ghost use Rattle.raster.specs.Rows.{put_pixel, Placed, Part, cut, Framed, filled_around};

use color::Pixel;
use rect::Rect;

// Where is drawn: the surface's width and height, and the rectangle of it.
#[derive(Clone, Copy)]
pub struct Target {
    pub width: usize,
    pub height: usize,
    pub area: Rect,
}

// Bytes from one place to before another. std's Range is not Copy, and a row's is used twice, for its pixels and for its part of the mask (engine's rows).
#[derive(Clone, Copy)]
pub struct Range {
    pub from: usize,
    pub to: usize,
}

// The ith pixel.
pub fn pixel(s: &[u8], i: usize) -> Pixel
    requires { i * 4 + 3 < length s.now }
    ensures { result ≡ pixel_in s.now i }
{
    let at = i * 4;
    Pixel {
        r: s[at],
        g: s[at + 1],
        b: s[at + 2],
        a: s[at + 3],
    }
}

// The ith pixel is p.
pub fn put_pixel(s: &mut [u8], i: usize, p: Pixel)
    requires { i * 4 + 3 < length s.old }
    ensures { s.new ≡ put_pixel s.old i p }
{
    let at = i * 4;
    s[at] = p.r;
    s[at + 1] = p.g;
    s[at + 2] = p.b;
    s[at + 3] = p.a;
}

// n pixels, all p.
pub fn fill_row(s: &mut [u8], n: usize, p: Pixel)
    requires { length s.old ≡ n * 4 }
    ensures { s.new ≡ run n (λ i. p) }
{
    for i in 0..n {
        put_pixel(s, i, p);
    }
}

impl Target {
    // Where row y of the rectangle lies among the surface's bytes.
    pub fn row_bytes(self, y: usize) -> Range
        requires { Placed self × (y < self.area.y1) }
        ensures from_value { result.from ≡ (y * self.width + self.area.x0) * 4 }
        ensures to_value { result.to ≡ (y * self.width + self.area.x1) * 4 }
    {
        Range {
            from: (y * self.width + self.area.x0) * 4,
            to: (y * self.width + self.area.x1) * 4,
        }
    }
}

// Every pixel of the rectangle is p.
fn fill_rect(s: &mut [u8], t: Target, p: Pixel)
    requires { Part t s.old }
    ensures { s.new ≡ overlay t.width t.height t.area (λ x y. p) s.old }
{
    let n = t.area.x1 - t.area.x0;
    for y in t.area.y0..t.area.y1 {
        let r = t.row_bytes(y);
        fill_row(&mut s[r.from..r.to], n, p);
    }
}

// Every pixel of the rectangle is p, but for those in the hole, which stay as they are.
pub fn fill_around(s: &mut [u8], t: Target, hole: Rect, p: Pixel)
    requires { Part t s.old }
    ensures { s.new ≡ filled_around t hole p s.old }
{
    let area = t.area;
    let inner = area.meet(hole);
    if inner.is_empty() {
        fill_rect(s, t, p);
    } else {
        fill_frame(s, t, inner, p);
    }
}

// The same, for a hole in the rectangle: what is below the hole, left of it, right of it and above it.
fn fill_frame(s: &mut [u8], t: Target, hole: Rect, p: Pixel)
    requires { Part t s.old × Framed t.area hole }
    ensures { s.new ≡ filled_around t hole p s.old }
{
    let a = t.area;
    fill_part(s, t, a.x0, a.y0, a.x1, hole.y0, p);
    fill_part(s, t, a.x0, hole.y0, hole.x0, hole.y1, p);
    fill_part(s, t, hole.x1, hole.y0, a.x1, hole.y1, p);
    fill_part(s, t, a.x0, hole.y1, a.x1, a.y1, p);
}

// Every pixel of another rectangle is p.
fn fill_part(s: &mut [u8], t: Target, x0: usize, y0: usize, x1: usize, y1: usize, p: Pixel)
    requires { Part (cut t x0 y0 x1 y1) s.old }
    ensures { s.new ≡ overlay t.width t.height (cut t x0 y0 x1 y1).area (λ x y. p) s.old }
{
    let part = Target {
        width: t.width,
        height: t.height,
        area: Rect { x0, y0, x1, y1 },
    };
    fill_rect(s, part, p);
}
