// The codes of the table: OpenVG's names where it has one, and two of our own for a file that is cut or spoiled.
#![tactic(auto)]

ghost use Rattle.std.specs.Prelude.{◌≡◌};
ghost use Rattle.codes.specs.Number.{number_of};

// Nothing is refused.
pub const ACCEPTED: u32 = 0;

// A field, float, segment or coordinate that breaks a rule; two sizes that differ.
pub const ILLEGAL_ARGUMENT: u32 = 0x1001;

// Too little working room.
pub const OUT_OF_MEMORY: u32 = 0x1002;

// A surface of another size.
pub const UNSUPPORTED_IMAGE_FORMAT: u32 = 0x1004;

// An arc.
pub const UNSUPPORTED_PATH_FORMAT: u32 = 0x1005;

// A block whose check is wrong.
pub const BAD_CHECKSUM: u32 = 0xB001;

// A scene of a length that no scene has.
pub const BAD_LENGTH: u32 = 0xB002;

// Why something is refused: every code of the table but that of what is accepted.
#[derive(Clone, Copy, PartialEq, Eq, Debug)]
pub enum Code {
    IllegalArgument,
    OutOfMemory,
    UnsupportedImageFormat,
    UnsupportedPathFormat,
    BadChecksum,
    BadLength,
}

impl Code {
    // Its number in the table.
    pub fn number(self) -> u32
        ensures { result ≡ number_of self }
    {
        match self {
            Code::IllegalArgument => ILLEGAL_ARGUMENT,
            Code::OutOfMemory => OUT_OF_MEMORY,
            Code::UnsupportedImageFormat => UNSUPPORTED_IMAGE_FORMAT,
            Code::UnsupportedPathFormat => UNSUPPORTED_PATH_FORMAT,
            Code::BadChecksum => BAD_CHECKSUM,
            Code::BadLength => BAD_LENGTH,
        }
    }
}
