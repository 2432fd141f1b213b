// The C interface of plans: the rectangles in which a planned redraw draws.
ghost use Rattle.std.specs.Prelude.{not, eqb};
ghost use Rattle.render.specs.Answers.{mask_of};
ghost use Rattle.planner.specs.Plannings.{Answered};

use planner::planning::Planning;

// Plans the rectangles of a redraw, and writes them to a run that has place for 16 numbers. A mask, for both scenes, is lent where lent is not 0.
#[unsafe(no_mangle)]
pub extern "C" fn wayramesh_plan(
    old: &[u8],
    new: &[u8],
    lent: u32,
    mask: &[u8],
    rectangles: &mut [i32],
) -> Planning
    ensures { Answered old.now new.now (mask_of (not (eqb lent 0)) mask.now) rectangles.old rectangles.new result }
{
    planner::planning::plan(old, new, lent != 0, mask, rectangles)
}
