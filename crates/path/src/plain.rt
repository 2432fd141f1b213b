// Paths that are accepted without a look at their points: each coordinate is absolute, so that every point is in range, and the matrix is so
// small that it takes every such point to one that is not too far out.
ghost use Rattle.std.specs.Prelude.{◌≡◌, true, ◌&&◌, ◌≤◌, length, leb};
ghost use Rattle.path.specs.Plain.{is_plain, plain_to, taken_to, is_small};
ghost use Rattle.path.specs.Limits.{Limited};

use crate::FixedMatrix;
use crate::commands::taken;

// More segments than a draw has are not judged so.
const MOST_SEGMENTS: usize = 128;

// The last of the plain segments: a cubic.
const LAST_PLAIN: u32 = 12;

// Whether the matrix is small, and the first n segments are plain.
pub fn is_plain(m: FixedMatrix, segments: &[u8], n: usize) -> bool
    requires { Limited m × (n ≤ length segments.now) }
    ensures { result ≡ (leb n 128 && (is_small m && plain_to segments.now n)) }
{
    n <= MOST_SEGMENTS && m.is_small() && all_plain(segments, n)
}

// Whether the first n segments are plain.
fn all_plain(segments: &[u8], n: usize) -> bool
    requires { n ≤ length segments.now }
    ensures { result ≡ plain_to segments.now n }
{
    let mut plain = true;
    for i in 0..n {
        plain = still_plain(plain, segments[i]);
    }
    plain
}

// Whether all were plain so far, and a segment is. One number tells it, so that many segments go at a time: an odd byte, whose coordinates are
// relative, is raised above the last plain one.
fn still_plain(all: bool, byte: u8) -> bool
    ensures { result ≡ (all && is_plain byte) }
{
    let n = byte as u32;
    all && n + n % 2 * 13 <= LAST_PLAIN
}

// How many coordinates the first n segments take.
pub fn taken_by(segments: &[u8], n: usize) -> usize
    requires n_in_bounds { (n ≤ length segments.now) × (n ≤ 128) }
    requires n_value { plain_to segments.now n ≡ true }
    ensures { (result ≡ taken_to segments.now n) × (result ≤ 768) }
{
    let mut used = 0;
    for i in 0..n {
        used += taken(segments[i]);
    }
    used
}
