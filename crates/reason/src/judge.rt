// Whether a pixel can be explained: the scene, then the mask, then the pixel.
ghost use Rattle.std.specs.Prelude.{◌≡◌, ◌<◌};
ghost use Rattle.scene.specs.Layout.{no_draw};
ghost use Rattle.scene.specs.Faults as Faults;
ghost use Rattle.render.specs.Answers.{mask_of};
ghost use Rattle.reason.specs.Explanations.{pixel_fault, lent_fault};

use codes::Code;
use render::judge::mask_wrong;
use scene::Fault;
use scene::layout::NO_DRAW;

// The pixel (x, y) of a scene, with a mask or none.
#[tactic(auto, using(crate::proofs::First::in_order), unfolding(crate::specs::Explanations::pixel_fault))]
pub fn judge_pixel(s: &[u8], masked: bool, mask: &[u8], x: usize, y: usize) -> Result<(), Fault>
    ensures { result ≡ pixel_fault s.now (mask_of masked mask.now) x y }
{
    scene::verdict::verdict(s, masked)?;
    judge_lent(
        scene::header::width(s),
        scene::header::height(s),
        masked,
        mask,
        x,
        y,
    )
}

// The mask and the pixel, for a picture of that size.
#[tactic(auto, using(crate::proofs::First::in_order), unfolding(crate::specs::Explanations::lent_fault))]
fn judge_lent(
    width: usize,
    height: usize,
    masked: bool,
    mask: &[u8],
    x: usize,
    y: usize,
) -> Result<(), Fault>
    requires { (width < 65536) × (height < 65536) }
    ensures { result ≡ lent_fault width height (mask_of masked mask.now) x y }
{
    let wrong = mask_wrong(masked, mask, width * height);
    demand(!wrong, Code::UnsupportedImageFormat)?;
    demand(x < width && y < height, Code::IllegalArgument)
}

// A rule, and the fault where it is broken: in no draw, with the offset 0.
fn demand(ok: bool, code: Code) -> Result<(), Fault>
    ensures { result ≡ Faults.demand ok (Faults.fault code no_draw 0) }
{
    if ok {
        Ok(())
    } else {
        Err(Fault {
            code,
            draw: NO_DRAW,
            offset: 0,
        })
    }
}
