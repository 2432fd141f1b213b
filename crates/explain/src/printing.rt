// The lines of an explanation as text.
ghost use Rattle.std.specs.Prelude.{◌≡◌};
ghost use Rattle.render.specs.Answers.{mask_of};
ghost use Rattle.reason.specs.Explanations.{start_of, followed};

use codes::ACCEPTED;
use color::Pixel;
use console::output::told;
use reason::{COVERED, Line, OUTSIDE};
use std::{fmt, io};

// The pixel that is asked for, of a scene under a mask.
#[derive(Clone, Copy)]
pub struct Question<'a> {
    pub scene: &'a [u8],
    pub masked: bool,
    pub mask: &'a [u8],
    pub x: usize,
    pub y: usize,
}

impl Question<'_> {
    // Prints the refusal, or a line for each draw and then the pixel.
    pub fn answer(&self, rt: &HostRuntime) {
        let start = reason::begin(self.scene, self.masked, self.mask, self.x, self.y);
        if start.code != ACCEPTED {
            told(
                rt,
                println!(rt;
                    "refused {:04x} {} offset {}",
                    start.code, start.draw, start.offset
                ),
            );
            return;
        }
        let pixel = Digits(self.print_draws(rt, start.draws as usize, start.pixel));
        told(rt, println!(rt; "pixel {pixel}"));
    }

    // A line for each of n draws. Returns the pixel after the last.
    fn print_draws(&self, rt: &HostRuntime, n: usize, first: Pixel) -> Pixel
        requires { first
            ≡ (start_of self.now.scene.now (mask_of self.now.masked self.now.mask.now) self.now.x self.now.y).pixel }
        ensures { result
            ≡ followed self.now.scene.now (mask_of self.now.masked self.now.mask.now) self.now.x self.now.y n }
    {
        let mut p = first;
        for i in 0..n {
            let line = reason::explain_draw(
                self.scene,
                self.masked,
                self.mask,
                self.x,
                self.y,
                i,
                p,
            );
            told(rt, print_line(rt, i, line));
            p = line.after;
        }
        p
    }
}

// Where the draw covers the pixel: k, the mask's byte where the draw uses the mask, and the paint.
fn print_line(rt: &HostRuntime, i: usize, line: Line) -> io::Result<()> {
    let before = Digits(line.before);
    let after = Digits(line.after);
    let paint = Digits(line.paint);
    let k = line.k;
    let mask = line.mask;
    match line.kind {
        COVERED if line.masked != 0 => {
            println!(rt;
                "draw {i} covered before {before} after {after} k {k} mask {mask} paint {paint}"
            )
        }
        COVERED => println!(rt;
            "draw {i} covered before {before} after {after} k {k} paint {paint}"
        ),
        OUTSIDE => println!(rt; "draw {i} outside before {before} after {after}"),
        _ => println!(rt; "draw {i} uncovered before {before} after {after}"),
    }
}

// A pixel's four bytes as eight digits.
#[derive(Clone, Copy)]
struct Digits(Pixel);

impl fmt::Display for Digits {
    fn fmt<W: fmt::Write>(&self, f: &mut fmt::Formatter<W>) -> fmt::Result {
        let Pixel { r, g, b, a } = self.0;
        write!(f, "{r:02x}{g:02x}{b:02x}{a:02x}")
    }
}
