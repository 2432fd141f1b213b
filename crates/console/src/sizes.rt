// The size of a scene's picture, and of what a call is lent for it.
ghost use Rattle.std.specs.Prelude.{◌≡◌, ◌*◌, ◌≤◌, IfSome};
ghost use Rattle.console.specs.Sizes.{Allowed, most_bytes, picture_size};

use scene::layout::{BLOCK_BYTES, SIDE_LIMIT};

// The width and height of a picture.
#[derive(Clone, Copy)]
pub struct Size {
    pub width: usize,
    pub height: usize,
}

impl Size {
    // The size that the scene's first block gives, unless the scene is too short for it or the picture too large. An accepted scene has the size of
    // its picture; the surface's length does not matter for another.
    pub fn of_scene(scene: &[u8]) -> Option<Size>
        ensures value { result ≡ picture_size scene.now }
        ensures allowed { IfSome result Allowed }
    {
        if scene.len() < BLOCK_BYTES {
            return None;
        }
        let width = scene::header::width(scene);
        let height = scene::header::height(scene);
        if width > SIDE_LIMIT as usize || height > SIDE_LIMIT as usize {
            return None;
        }
        Some(Size { width, height })
    }

    // The bytes of a surface of that size.
    pub fn bytes(self) -> usize
        requires { Allowed self }
        ensures { (result ≡ self.height * (self.width * 4)) × (result ≤ most_bytes) }
    {
        let row = self.width * 4;
        self.height * row
    }
}
