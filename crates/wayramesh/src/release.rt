// What the library is, and the checksum of what it has drawn.
ghost use Rattle.std.specs.Prelude.{◌≡◌};
ghost use Rattle.identity.specs.Identity.{identity_of};
ghost use Rattle.crc.specs.Crc.{crc_of};

use identity::Identity;

// The library's version and the hash of its sources.
#[unsafe(no_mangle)]
pub extern "C" fn wayramesh_identity() -> Identity
    ensures { result ≡ identity_of }
{
    identity::of_sources()
}

// The CRC-32 of bytes, as of a picture.
#[unsafe(no_mangle)]
pub extern "C" fn wayramesh_checksum(bytes: &[u8]) -> u32
    ensures { result ≡ crc_of bytes.now }
{
    crc::crc(bytes)
}
