// A draw's edges in the scratch, which is zero before and after, and rectangles that hold its box.
ghost use Rattle.std.specs.Prelude.{◌≡◌, ◌++◌, ◌*◌, ◌≤◌, pos, length, replicate, drop};
ghost use Rattle.rect.specs.Rects.{Holds};
ghost use Rattle.path.specs.Boxes.{box_of};
ghost use Rattle.scene.specs.Layout.{draw_bytes};
ghost use Rattle.scene.specs.Accepted.{AcceptedDraw};
ghost use Rattle.engine.specs.Picture.{draw_edges};
ghost use Rattle.engine.specs.Rows.{Laid, Blank};

use rect::Rect;

// Zeros.
pub fn clear(s: &mut [i32])
    ensures { s.new ≡ replicate (length s.old) (pos 0) }
{
    coverage::zero::zero_numbers(s);
}

// Zeros in place of the n edges.
pub fn clear_edges(scratch: &mut [i32], n: usize)
    requires { n * 4 ≤ length scratch.old }
    ensures { scratch.new ≡ replicate (n * 4) (pos 0) ++ drop (n * 4) scratch.old }
{
    let e = n * 4;
    clear(&mut scratch[0..e]);
}

// The edges of a draw of a scene of that edition, laid into zeros. How many there are.
pub fn lay_edges(scratch: &mut [i32], d: &[u8], edition: u32) -> usize
    requires d_len { (length d.now ≡ draw_bytes) × AcceptedDraw edition d.now }
    requires blank { Blank scratch.old }
    ensures laid { Laid edition d.now scratch.new result }
    ensures scratch_after { replicate (result * 4) (pos 0) ++ drop (result * 4) scratch.new ≡ scratch.old }
{
    outline::flatten::flatten(
        scene::fields::fixed_matrix(d),
        scene::fields::segments(d),
        scene::fields::segment_count(d),
        scene::fields::coordinates(d, edition),
        scratch,
    )
}

// The box of a draw, cut to the surface.
pub fn draw_bounds(scratch: &mut [i32], d: &[u8], edition: u32, width: usize, height: usize) -> Rect
    requires d_len { (length d.now ≡ draw_bytes) × AcceptedDraw edition d.now }
    requires blank { Blank scratch.old }
    requires width_bound { (width ≤ 1024) × (height ≤ 1024) }
    ensures value { result ≡ box_of width height (draw_edges edition d.now) }
    ensures scratch_unchanged { scratch.new ≡ scratch.old }
{
    let n = lay_edges(scratch, d, edition);
    let b = outline::bounds::bounds(scratch, n, width, height);
    clear_edges(scratch, n);
    b
}

// The same without the scratch.
pub fn lone_bounds(d: &[u8], edition: u32, width: usize, height: usize) -> Rect
    requires d_len { (length d.now ≡ draw_bytes) × AcceptedDraw edition d.now }
    requires width_bound { (width ≤ 1024) × (height ≤ 1024) }
    ensures { result ≡ box_of width height (draw_edges edition d.now) }
{
    outline::extent::path_bounds(
        scene::fields::fixed_matrix(d),
        scene::fields::segments(d),
        scene::fields::segment_count(d),
        scene::fields::coordinates(d, edition),
        width,
        height,
    )
}

// A rectangle that holds the box of a draw, found without cutting curves.
pub fn draw_hull(d: &[u8], edition: u32, width: usize, height: usize) -> Rect
    requires d_len { (length d.now ≡ draw_bytes) × AcceptedDraw edition d.now }
    requires width_bound { (width ≤ 1024) × (height ≤ 1024) }
    ensures { Holds result (box_of width height (draw_edges edition d.now)) }
{
    outline::hull::path_hull(
        scene::fields::fixed_matrix(d),
        scene::fields::segments(d),
        scene::fields::segment_count(d),
        scene::fields::coordinates(d, edition),
        width,
        height,
    )
}
