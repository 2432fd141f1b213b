// The winding numbers of a pixel's 16 samples, added up segment by segment. A segment's edges, 16 at most, lie in a small buffer; all edges of a path are
// never there at once, so that a line takes little stack.
ghost use Rattle.std.specs.Prelude.{◌≡◌, Ok, [], ◌∷◌, ◌+◌, ◌*◌, ◌≤◌, ◌<◌, length};
ghost use Rattle.path.specs.Limits.{Limited};
ghost use Rattle.path.specs.Segments.{fault_to};
ghost use Rattle.path.specs.Curves.{path_edges};
ghost use Rattle.path.specs.Stored.{edges_of, Small};
ghost use Rattle.coverage.specs.Winding.{sample};
ghost use Rattle.coverage.specs.Scanline.{Edges};
ghost use Rattle.reason.specs.Summed.{wound, Sums};

use outline::flatten::{store_closing, store_segment};
use path::edges::load;
use path::tracing::trace;
use path::{Edge, FixedMatrix, Walk};
use plain::crossing::count;

// The numbers for the edges of a segment.
const SEGMENT_NUMBERS: usize = 64;

// Adds what the edges of an accepted path of n segments count at each sample of the pixel (x, y).
pub fn add_path(
    m: FixedMatrix,
    segments: &[u8],
    n: usize,
    coordinates: &[u8],
    x: usize,
    y: usize,
    sums: &mut [i32],
)
    requires n_bound { (n ≤ 128) × (n ≤ length segments.now) }
    requires limited { Limited m × (fault_to m segments.now coordinates.now n ≡ Ok tt) }
    requires x_bound { (x < 1024) × (y < 1024) × Sums sums.old 0 }
    ensures { sums.new ≡ wound x y sums.old (path_edges m segments.now coordinates.now n) }
{
    let mut edges = [0i32; SEGMENT_NUMBERS];
    let mut walk = Walk::new();
    for i in 0..n {
        let byte = segments[i];
        let t = trace(coordinates, walk, byte);
        let stored = store_segment(m, &mut edges, 0, walk.pen, byte, t.curve);
        add_edges(sums, &edges, stored, x, y);
        walk = t.walk;
    }
    let closing = store_closing(m, &mut edges, 0, walk.pen);
    add_edges(sums, &edges, closing, x, y);
}

// Adds what the first n edges of a buffer count.
fn add_edges(sums: &mut [i32], edges: &[i32], n: usize, x: usize, y: usize)
    requires sums { Sums sums.old 2048 × (n ≤ 16) × Edges edges.now n 0 }
    requires x_bound { (x < 1024) × (y < 1024) }
    ensures { sums.new ≡ wound x y sums.old (edges_of edges.now n) }
{
    for i in 0..n {
        let e = load(edges, i);
        add_edge(sums, e, x, y);
    }
}

// Adds what an edge counts.
fn add_edge(sums: &mut [i32], e: Edge, x: usize, y: usize)
    requires sums { Sums sums.old 4096 × Small e }
    requires x_bound { (x < 1024) × (y < 1024) }
    ensures { sums.new ≡ wound x y sums.old (e ∷ []) }
{
    for j in 0..16 {
        let by = count(e, place(x, j % 4), place(y, j / 4));
        sums[j] += by;
    }
}

// Where sample m of pixel i lies on an axis.
fn place(i: usize, m: usize) -> i32
    requires { (i < 1024) × (m < 4) }
    ensures { result ≡ sample (4 * i + m) }
{
    (64 * (4 * i + m) + 32) as i32
}
