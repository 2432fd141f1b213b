// Reading pictures from files, line by line. What is wrong with one ends the program.
ghost use Rattle.std.specs.Prelude.{◌≡◌, ◌*◌, ◌≤◌, IfOk, vec_len};

use crate::Size;
use crate::texts::{line_size, row_pixels};
use console::arguments::Arguments;
use console::errors::Stop;
use console::files::{Source, failed};
use std::fmt::InlineText;
use std::io::{ErrorKind, Read};
use text::PIXEL_TEXT;

// The bytes that are looked at for the first line's end: more than two numbers as they are printed.
const FIRST_LINE: usize = 64;

// A picture's file: which argument names it, and what is read.
#[derive(Drop)]
pub struct Picture<'a> {
    arguments: &'a Arguments,
    argument: usize,
    source: Source,
}

impl<'a> Picture<'a> {
    pub fn open(
        rt: &HostRuntime,
        arguments: &'a Arguments,
        argument: usize,
    ) -> Result<Picture<'a>, Stop> {
        let source = Source::open(rt, arguments, argument)?;
        Ok(Picture {
            arguments,
            argument,
            source,
        })
    }

    // The size that the first line has.
    pub fn read_size(&mut self, rt: &HostRuntime) -> Result<Size, Stop> {
        let size = match self.read_line(rt)? {
            Some(line) => line_size(line.as_slice()),
            None => None,
        };
        match size {
            Some(size) => Ok(size),
            None => Err(self.damaged(rt, 1, "not a width and a height")),
        }
    }

    // What stands before the newline, if that comes soon. Nothing behind it is read.
    fn read_line(&mut self, rt: &HostRuntime) -> Result<Option<Vec<u8>>, Stop> {
        let mut line = Vec::new(rt.alloc());
        for _ in 0..FIRST_LINE {
            let mut byte = [0u8; 1];
            if !self.fill(rt, &mut byte)? {
                return Ok(None);
            }
            if byte[0] == b'\n' {
                return Ok(Some(line));
            }
            line.push(byte[0])?;
        }
        Ok(None)
    }

    // The bytes of the next line, which is to be a row of so many pixels.
    pub fn read_row(&mut self, rt: &HostRuntime, line: usize, width: usize) -> Result<Vec<u8>, Stop>
        requires { width ≤ 1024 }
        ensures { IfOk result (λ row. vec_len row ≡ width * 4) }
    {
        let mut text = vec![in rt.alloc(); 0u8; width * PIXEL_TEXT]?;
        let mut again = vec![in rt.alloc(); 0u8; width * PIXEL_TEXT]?;
        let mut row = vec![in rt.alloc(); 0u8; width * 4]?;
        if !self.fill(rt, text.as_mut_slice())? {
            return Err(self.damaged(rt, line, "the picture ends before this row does"));
        }
        if !row_pixels(
            text.as_slice(),
            width,
            row.as_mut_slice(),
            again.as_mut_slice(),
        ) {
            return Err(self.damaged(
                rt,
                line,
                "not the row's pixels, each eight digits 0 to 9 and a to f",
            ));
        }
        Ok(row)
    }

    // The picture is to end before that line.
    pub fn end(&mut self, rt: &HostRuntime, line: usize) -> Result<(), Stop> {
        let mut byte = [0u8; 1];
        if self.fill(rt, &mut byte)? {
            return Err(self.damaged(rt, line, "more than the picture's rows"));
        }
        Ok(())
    }

    // Reads as much as the place holds, and says whether there was as much.
    fn fill(&mut self, rt: &HostRuntime, place: &mut [u8]) -> Result<bool, Stop> {
        match self.source.read_exact(place) {
            Ok(()) => Ok(true),
            Err(error) if error.kind() == ErrorKind::UnexpectedEof => Ok(false),
            Err(error) => Err(failed(rt, self.arguments, self.argument, error)),
        }
    }

    fn damaged(&self, rt: &HostRuntime, line: usize, what: &str) -> Stop {
        let name = self.arguments.get(self.argument).unwrap_or(b"");
        let number = InlineText::<20>::of(line);
        Stop::wrong(
            rt.alloc(),
            &[
                name,
                b":",
                number.as_str().as_bytes(),
                b": ",
                what.as_bytes(),
                b"\n",
            ],
        )
    }
}
