// The segment byte: low bit relative, the rest the number. A command is the number without that bit.
ghost use Rattle.std.specs.Prelude.{◌≡◌, ◌<◌, ◌≤◌, leb};
ghost use Rattle.path.specs.Segments.{number, number_move, coordinates_taken};
ghost use Rattle.path.specs.Answers.{split_as};

use crate::Segment;

pub const CLOSE: u8 = 0;

pub const MOVE: u8 = 1;

pub const LINE: u8 = 2;

pub const HORIZONTAL: u8 = 3;

pub const QUAD: u8 = 5;

pub const CUBIC: u8 = 6;

pub const SMOOTH_QUAD: u8 = 7;

pub const FIRST_ARC: u8 = 9;

pub const LAST_ARC: u8 = 12;

// How many coordinates a segment takes, four bits for each command, the first lowest.
const TAKEN: u64 = 0x426411220;

pub fn split(byte: u8) -> Segment
    ensures { result ≡ split_as byte }
{
    Segment {
        command: byte >> 1,
        relative: byte & 1 == 1,
    }
}

// Whether a segment draws the edge back to the start of the subpath: a close or a move.
pub fn returns(byte: u8) -> bool
    ensures { result ≡ leb (number byte) number_move }
{
    split(byte).command <= MOVE
}

// How many coordinates a segment takes.
pub fn taken(byte: u8) -> usize
    requires { byte < 18 }
    ensures { (result ≡ coordinates_taken byte) × (result ≤ 6) }
{
    let place = split(byte).command as u64 * 4;
    (TAKEN >> place) as usize % 16
}
