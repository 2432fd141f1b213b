// The plain engine: each pixel, each of its 16 samples, and each edge at each sample, with no list of crossings.
//
//     crossing   what one edge counts at one sample
//     samples    the winding number at a sample, and k of a pixel
//     scissors   k of a pixel with scissoring on
//     pixels     a draw at each pixel of the surface
//     draws      the draws of a scene, in order
#![tactic(auto)]

pub mod crossing;
pub mod draws;
pub mod pixels;
pub mod samples;
pub mod scissors;

ghost use Rattle.std.specs.Prelude.{◌≡◌, length};
ghost use Rattle.render.specs.Answers.{mask_of, draw_answer, draw_surface, draw_scratch};

use crate::draws::draw_scene;
use codes::ACCEPTED;
use rect::Rect;
use render::Answer;

// Draws a scene in full, as `render::draw` does and with the same promises.
pub fn draw_plain(
    scene: &[u8],
    masked: bool,
    mask: &[u8],
    surface: &mut [u8],
    scratch: &mut [i32],
) -> Answer
    ensures value { result
        ≡ draw_answer scene.now (mask_of masked mask.now) (length surface.old) (length scratch.old) }
    ensures surface_after { surface.new
        ≡ draw_surface scene.now (mask_of masked mask.now) surface.old (length scratch.old) }
    ensures scratch_after { scratch.new
        ≡ draw_scratch scene.now (mask_of masked mask.now) (length surface.old) scratch.old }
{
    let f = render::judge::judge_draw(scene, masked, mask, surface.len(), scratch.len());
    if f.code != ACCEPTED {
        return render::refused(f);
    }
    let width = scene::header::width(scene);
    let height = scene::header::height(scene);
    let n = scene::header::count(scene);
    let a = Rect {
        x0: 0,
        y0: 0,
        x1: width,
        y1: height,
    };
    let m = render::taken(masked, mask.len());
    engine::edges::clear(scratch);
    draw_scene(surface, scratch, scene, &mask[0..m], width, height, n);
    render::accepted(a)
}
