// The edges that a band of pixel rows needs.
ghost use Rattle.std.specs.Prelude.{◌≡◌, cond, ◌<◌, ◌≤◌, length, take};
ghost use Rattle.coverage.specs.Scanline.{Outlined};
ghost use Rattle.coverage.specs.Band.{apart, listed, Band};

// The places of the edges that have a sample row in the pixel rows from to end - 1, in order. Returns how many they are. Each place is stored, and those
// that are needed are counted.
pub fn filter_edges(scratch: &[i32], n: usize, from: usize, end: usize, list: &mut [u32]) -> usize
    requires outlined { Outlined scratch.now n }
    requires from_lt_end { (from < end) × (end ≤ 1024) × (n ≤ length list.old) }
    ensures upper_bound { (result ≤ n) × (take result list.new ≡ listed scratch.now from end n) }
    ensures band { Band scratch.now n from end (take result list.new) }
{
    let mut k = 0;
    for i in 0..n {
        let at = i * 4;
        list[k] = i as u32;
        k += needed(scratch[at + 1], scratch[at + 3], from, end);
    }
    k
}

// 1 where an edge with such ends has a sample row of the pixel rows from to end - 1 between them.
pub fn needed(y0: i32, y1: i32, from: usize, end: usize) -> usize
    requires { (from < end) × (end ≤ 1024) }
    ensures { (result ≡ cond (apart y0 y1 from end) 0 1) × (result ≤ 1) }
{
    let first = (256 * from + 32) as i32;
    let last = (256 * end - 32) as i32;
    if y0 <= first {
        if y1 <= first {
            return 0;
        }
        return 1;
    }
    if last < y0 {
        if last < y1 {
            return 0;
        }
    }
    1
}
