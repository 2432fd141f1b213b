// The picture as text.
ghost use Rattle.std.specs.Prelude.{◌≡◌, ◌*◌, length};
ghost use Rattle.text.specs.Text.{row_text};
ghost use Rattle.console.specs.Sizes.{Surface};

use crate::output;
use crate::sizes::Size;
use std::io;
use text::PIXEL_TEXT;

// The text of the widest row.
const ROW_TEXT: usize = 9216;

// Its width and height, then its rows from the top one down.
pub fn print_picture(rt: &HostRuntime, surface: &[u8], size: Size)
    requires { Surface size surface.now }
{
    output::told(rt, write_picture(rt, surface, size));
}

fn write_picture(rt: &HostRuntime, surface: &[u8], size: Size) -> io::Result<()>
    requires { Surface size surface.now }
{
    let width = size.width;
    let height = size.height;
    println!(rt; "{width} {height}")?;
    let mut text = [0u8; ROW_TEXT];
    for y in (0..height).rev() {
        let at = y * (width * 4);
        write_row(
            rt,
            &surface[at..at + width * 4],
            width,
            &mut text[..width * PIXEL_TEXT],
        )?;
    }
    Ok(())
}

// The row's text is put in out.
fn write_row(rt: &HostRuntime, pixels: &[u8], width: usize, out: &mut [u8]) -> io::Result<()>
    requires { (length pixels.now ≡ width * 4) × (length out.old ≡ width * 9) }
    ensures { out.new ≡ row_text width pixels.now }
{
    text::row(pixels, width, out);
    rt.write_all(out)
}
