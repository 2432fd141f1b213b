// Edges in a run of numbers, four for each.
ghost use Rattle.std.specs.Prelude.{◌≡◌, ◌+◌, ◌*◌, ◌<◌, length};
ghost use Rattle.path.specs.Stored.{edge_at};

use crate::Edge;

// The edge at place i.
pub fn load(edges: &[i32], i: usize) -> Edge
    requires { i * 4 + 3 < length edges.now }
    ensures { result ≡ edge_at edges.now i }
{
    let at = i * 4;
    Edge {
        x0: edges[at],
        y0: edges[at + 1],
        x1: edges[at + 2],
        y1: edges[at + 3],
    }
}
