// The C interface: include/wayramesh.h tells a C caller what these functions take and answer. Each draw, redraw and replay notes its code in the context.
#![tactic(auto)]

pub mod explain;
pub mod planned;
pub mod release;
pub mod salvage;

ghost use Rattle.std.specs.Prelude.{◌≡◌, not, eqb, length};
ghost use Rattle.context.specs.Context.{noted, fresh};
ghost use Rattle.blend.specs.PorterDuff.{composite_answer};
ghost use Rattle.difference.specs.Compare.{compare_answer};
ghost use Rattle.regions.specs.Answers.{regions_answer, regions_surface, regions_scratch};
ghost use Rattle.render.specs.Answers.{mask_of, draw_answer, draw_surface, draw_scratch, redraw_answer, redraw_surface, redraw_scratch};
ghost use Rattle.planner.specs.Written.{Redrawn};
ghost use Rattle.playback.specs.Replay.{replay_answer, replay_surface, replay_scratch, replay_answers};

use blend::Composited;
use color::Pixel;
use context::Context;
use difference::Comparison;
use render::Answer;

// Draws a scene in full. A mask is lent where lent is not 0.
#[unsafe(no_mangle)]
pub extern "C" fn wayramesh_draw(
    context: &mut Context,
    scene: &[u8],
    lent: u32,
    mask: &[u8],
    surface: &mut [u8],
    scratch: &mut [i32],
) -> Answer
    ensures { (result
        ≡ draw_answer scene.now (mask_of (not (eqb lent 0)) mask.now)
        (length surface.old) (length scratch.old))
        × ((surface.new
        ≡ draw_surface scene.now (mask_of (not (eqb lent 0)) mask.now) surface.old (length scratch.old))
        × ((scratch.new
        ≡ draw_scratch scene.now (mask_of (not (eqb lent 0)) mask.now) (length surface.old) scratch.old)
        × (context.new
        ≡ noted context.old (draw_answer scene.now (mask_of (not (eqb lent 0)) mask.now)
        (length surface.old) (length scratch.old)).code))) }
{
    let answer = render::draw(scene, lent != 0, mask, surface, scratch);
    context.note(answer.code);
    answer
}

// Redraws what the step from the old scene to the new one changes. A mask, for both scenes, is lent where lent is not 0.
#[unsafe(no_mangle)]
pub extern "C" fn wayramesh_redraw(
    context: &mut Context,
    old: &[u8],
    new: &[u8],
    lent: u32,
    mask: &[u8],
    surface: &mut [u8],
    scratch: &mut [i32],
) -> Answer
    ensures { (result
        ≡ redraw_answer old.now new.now (mask_of (not (eqb lent 0)) mask.now)
        (length surface.old) (length scratch.old))
        × ((surface.new
        ≡ redraw_surface old.now new.now (mask_of (not (eqb lent 0)) mask.now)
        surface.old (length scratch.old))
        × ((scratch.new
        ≡ redraw_scratch old.now new.now (mask_of (not (eqb lent 0)) mask.now)
        (length surface.old) scratch.old)
        × (context.new
        ≡ noted context.old (redraw_answer old.now new.now (mask_of (not (eqb lent 0)) mask.now)
        (length surface.old) (length scratch.old)).code))) }
{
    let answer = render::redraw(old, new, lent != 0, mask, surface, scratch);
    context.note(answer.code);
    answer
}

// Redraws, in the proposed rectangles, from the old scene to the new. A mask, for both scenes, is lent where lent is not 0.
#[unsafe(no_mangle)]
pub extern "C" fn wayramesh_redraw_regions(
    context: &mut Context,
    old: &[u8],
    new: &[u8],
    lent: u32,
    mask: &[u8],
    rectangles: &[i32],
    surface: &mut [u8],
    scratch: &mut [i32],
) -> Answer
    ensures { (result
        ≡ regions_answer old.now new.now (mask_of (not (eqb lent 0)) mask.now) rectangles.now
        (length surface.old) (length scratch.old))
        × ((surface.new
        ≡ regions_surface old.now new.now (mask_of (not (eqb lent 0)) mask.now) rectangles.now
        surface.old (length scratch.old))
        × ((scratch.new
        ≡ regions_scratch old.now new.now (mask_of (not (eqb lent 0)) mask.now) rectangles.now
        (length surface.old) scratch.old)
        × (context.new
        ≡ noted context.old (regions_answer old.now new.now (mask_of (not (eqb lent 0)) mask.now)
        rectangles.now (length surface.old) (length scratch.old)).code))) }
{
    let answer = regions::redraw_regions(old, new, lent != 0, mask, rectangles, surface, scratch);
    context.note(answer.code);
    answer
}

// Redraws, in rectangles that the library plans, from the old scene to the new. A mask, for both scenes, is lent where lent is not 0.
#[unsafe(no_mangle)]
pub extern "C" fn wayramesh_redraw_planned(
    context: &mut Context,
    old: &[u8],
    new: &[u8],
    lent: u32,
    mask: &[u8],
    surface: &mut [u8],
    scratch: &mut [i32],
) -> Answer
    ensures { (Redrawn old.now new.now (mask_of (not (eqb lent 0)) mask.now) surface.old scratch.old
        result surface.new scratch.new)
        × (context.new ≡ noted context.old result.code) }
{
    let answer = planner::redraw_planned(old, new, lent != 0, mask, surface, scratch);
    context.note(answer.code);
    answer
}

// Replays scenes one behind another, by their lengths: each redrawn from the one accepted last, or drawn in full while there is none. A mask, for
// all scenes, is lent where lent is not 0. It notes its own code, or the first other than 0 of its scenes'.
#[unsafe(no_mangle)]
pub extern "C" fn wayramesh_replay(
    context: &mut Context,
    scenes: &[u8],
    lengths: &[u32],
    lent: u32,
    mask: &[u8],
    surface: &mut [u8],
    scratch: &mut [i32],
    answers: &mut [u32],
) -> u32
    ensures { (result
        ≡ (replay_answer scenes.now lengths.now (mask_of (not (eqb lent 0)) mask.now)
        surface.old scratch.old (length answers.old)).code)
        × ((surface.new
        ≡ replay_surface scenes.now lengths.now (mask_of (not (eqb lent 0)) mask.now)
        surface.old scratch.old (length answers.old))
        × ((scratch.new
        ≡ replay_scratch scenes.now lengths.now (mask_of (not (eqb lent 0)) mask.now)
        surface.old scratch.old (length answers.old))
        × ((answers.new
        ≡ replay_answers scenes.now lengths.now (mask_of (not (eqb lent 0)) mask.now)
        surface.old scratch.old answers.old)
        × (context.new
        ≡ noted context.old (replay_answer scenes.now lengths.now (mask_of (not (eqb lent 0)) mask.now)
        surface.old scratch.old (length answers.old)).first)))) }
{
    let answer = playback::replay(scenes, lengths, lent != 0, mask, surface, scratch, answers);
    context.note(answer.first);
    answer.code
}

// Asks for the first code other than 0 since the context was last asked, and sets 0.
#[unsafe(no_mangle)]
pub extern "C" fn wayramesh_take_code(context: &mut Context) -> u32
    ensures { (result ≡ context.old.code) × (context.new ≡ fresh) }
{
    context.take()
}

// Draws a scene in full with the plain engine: the same answer, the same bytes, in more time.
#[unsafe(no_mangle)]
pub extern "C" fn wayramesh_draw_plain(
    scene: &[u8],
    lent: u32,
    mask: &[u8],
    surface: &mut [u8],
    scratch: &mut [i32],
) -> Answer
    ensures value { result
        ≡ draw_answer scene.now (mask_of (not (eqb lent 0)) mask.now)
        (length surface.old) (length scratch.old) }
    ensures surface_after { surface.new
        ≡ draw_surface scene.now (mask_of (not (eqb lent 0)) mask.now) surface.old (length scratch.old) }
    ensures scratch_after { scratch.new
        ≡ draw_scratch scene.now (mask_of (not (eqb lent 0)) mask.now) (length surface.old) scratch.old }
{
    plain::draw_plain(scene, lent != 0, mask, surface, scratch)
}

// Compares two pictures of one named size.
#[unsafe(no_mangle)]
pub extern "C" fn wayramesh_compare(width: u32, height: u32, a: &[u8], b: &[u8]) -> Comparison
    ensures { result ≡ compare_answer width height a.now b.now }
{
    difference::compare(width, height, a, b)
}

// The blending step on one pixel, under a coverage and a mask's byte.
#[unsafe(no_mangle)]
pub extern "C" fn wayramesh_composite(
    mode: u32,
    coverage: u32,
    mask: u32,
    source: Pixel,
    destination: Pixel,
) -> Composited
    ensures { result ≡ composite_answer mode coverage mask source destination }
{
    blend::composite(mode, coverage, mask, source, destination)
}
