// What is found of two pictures row by row, from the top one down. A row without a difference is told by its bytes' largest difference,
// many bytes at a time; only in other rows are pixels looked at.
ghost use Rattle.std.specs.Prelude.{◌≡◌, ◌+◌, ◌*◌, ◌-◌, ◌≤◌, ◌<◌, length};
ghost use Rattle.difference.specs.Compare.{gap_at, greatest};
ghost use Rattle.difference.specs.Rows.{nothing_found, with_pixel, with_pixels, with_largest, with_row, Noted};

use crate::Found;
use rect::Rect;

impl Found {
    // Of no rows.
    pub fn nothing() -> Found
        ensures { result ≡ nothing_found }
    {
        Found {
            count: 0,
            area: Rect::EMPTY,
            largest: 0,
            least: 0,
        }
    }

    // With row y, which is below those so far.
    pub fn with_row(self, a: &[u8], b: &[u8], width: usize, y: usize) -> Found
        requires a_len { (length a.now ≡ width * 4) × (length b.now ≡ width * 4) }
        requires noted { Noted width (y + 1) self }
        ensures value { result ≡ with_row width y a.now b.now self }
        ensures noted_2 { Noted width y result }
    {
        let gap = largest(a, b);
        if gap == 0 {
            return self;
        }
        with_pixels(self.with_largest(gap), a, b, width, y)
    }

    fn with_largest(self, gap: u8) -> Found
        ensures { result ≡ with_largest gap self }
    {
        Found {
            largest: self.largest.max(gap),
            ..self
        }
    }

    // Pixel (x, y) differs.
    fn with_pixel(self, width: usize, y: usize, x: usize) -> Found
        requires { (self.count < 1048576) × (y < 1024) × (x < width) × (width ≤ 1024) }
        ensures { result ≡ with_pixel width y x self }
    {
        let pixel = Rect {
            x0: x,
            y0: y,
            x1: x + 1,
            y1: y + 1,
        };
        Found {
            count: self.count + 1,
            area: self.area.join(pixel),
            least: y * width + x,
            ..self
        }
    }
}

// The largest difference of two bytes at one place; 0 exactly if the two are the same.
pub fn largest(a: &[u8], b: &[u8]) -> u8
    requires { length b.now ≡ length a.now }
    ensures { result ≡ greatest (length a.now) (gap_at a.now b.now) }
{
    let mut gap: u8 = 0;
    for j in 0..a.len() {
        gap = gap.max(a[j].abs_diff(b[j]));
    }
    gap
}

// Every differing pixel of row y, from the last one to the first.
fn with_pixels(f: Found, a: &[u8], b: &[u8], width: usize, y: usize) -> Found
    requires a_len { (length a.now ≡ width * 4) × (length b.now ≡ width * 4) }
    requires noted { Noted width (y + 1) f }
    ensures value { result ≡ with_pixels width y a.now b.now 0 width f }
    ensures noted_2 { Noted width y result }
{
    let mut found = f;
    for x in (0..width).rev() {
        if raster::pixel(a, x) != raster::pixel(b, x) {
            found = found.with_pixel(width, y, x);
        }
    }
    found
}
