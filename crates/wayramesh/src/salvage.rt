// A scene with spoiled blocks is written again, with the empty draw in place of each draw that the rules refuse.
ghost use Rattle.std.specs.Prelude.{◌≡◌, length};
ghost use Rattle.scene.specs.Header.{count_of};
ghost use Rattle.rescue.specs.Salvaged.{salvaged_scene, listed_to, answer_of, written, fitting};

use rescue::Salvaged;

// Writes the salvaged scene to a place, and the number and the code of each replaced draw to a list, as far as the list goes.
#[unsafe(no_mangle)]
pub extern "C" fn wayramesh_salvage(scene: &[u8], place: &mut [u8], list: &mut [u32]) -> Salvaged
    ensures value { result ≡ answer_of scene.now (length place.old) }
    ensures place_after { place.new ≡ written result.code (salvaged_scene scene.now) place.old }
    ensures list_after { list.new
        ≡ written result.code (fitting (length list.old) (listed_to scene.now (count_of scene.now))) list.old }
{
    rescue::write::salvage(scene, place, list)
}
