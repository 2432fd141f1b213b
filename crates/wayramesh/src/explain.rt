// Why a pixel has its colour.
ghost use Rattle.std.specs.Prelude.{◌≡◌, not, eqb};
ghost use Rattle.render.specs.Answers.{mask_of};
ghost use Rattle.reason.specs.Explanations.{start_of, line_answer};

use color::Pixel;
use reason::{Line, Start};

// Begins the explanation of the pixel (x, y). A mask is lent where lent is not 0.
#[unsafe(no_mangle)]
pub extern "C" fn wayramesh_explain(scene: &[u8], lent: u32, mask: &[u8], x: u32, y: u32) -> Start
    ensures { result ≡ start_of scene.now (mask_of (not (eqb lent 0)) mask.now) x y }
{
    reason::begin(scene, lent != 0, mask, x as usize, y as usize)
}

// The line of a draw at the pixel (x, y), which holds `before`.
#[unsafe(no_mangle)]
pub extern "C" fn wayramesh_explain_draw(
    scene: &[u8],
    lent: u32,
    mask: &[u8],
    x: u32,
    y: u32,
    draw: u32,
    before: Pixel,
) -> Line
    ensures { result ≡ line_answer scene.now (mask_of (not (eqb lent 0)) mask.now) x y draw before }
{
    reason::explain_draw(
        scene,
        lent != 0,
        mask,
        x as usize,
        y as usize,
        draw as usize,
        before,
    )
}
