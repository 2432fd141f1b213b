// Version and source hash of the library: written by tests/identity, which says of what the hash is.
#![tactic(auto)]

ghost use Rattle.std.specs.Prelude.{◌≡◌};
ghost use Rattle.identity.specs.Identity.{identity_of};

// The version's three numbers, and the 32 bytes of the source hash.
#[repr(C)]
#[derive(Clone, Copy, PartialEq, Eq)]
pub struct Identity {
    pub major: u32,
    pub minor: u32,
    pub patch: u32,
    pub source: [u8; 32],
}

// What the library is.
pub fn of_sources() -> Identity
    ensures { result ≡ identity_of }
{
    Identity {
        major: 0,
        minor: 1,
        patch: 0,
        source: [
            157, 66, 15, 124, 248, 34, 150, 5, 79, 122, 97, 37, 56, 6, 225, 61, 221, 136, 220, 31,
            219, 22, 253, 160, 242, 245, 171, 120, 22, 229, 182, 23,
        ],
    }
}
