// The blend modes and their factors, in 255ths (document 001, Table 15).
ghost use Rattle.std.specs.Prelude.{◌≡◌};
ghost use Rattle.blend.specs.PorterDuff.{is_mode, source_factor, destination_factor};
ghost use Rattle.blend.specs.Spans.{hides};

// OpenVG's numbers, and no enum: `composite_on` and the row functions answer for any number of 16 bits (the factors of one that is no mode), and an enum
// would ask more of whoever calls them.
pub const SRC: u16 = 0x2000;

pub const SRC_OVER: u16 = 0x2001;

pub const DST_OVER: u16 = 0x2002;

pub const SRC_IN: u16 = 0x2003;

pub const DST_IN: u16 = 0x2004;

// Whether a number names one of the five.
pub fn is_mode(mode: u16) -> bool
    ensures { result ≡ is_mode mode }
{
    SRC <= mode && mode <= DST_IN
}

// How much of the source is taken, under the destination's alpha.
#[tactic(auto, unfolding(crate::specs::PorterDuff::source_factor))]
pub fn source_factor(mode: u16, da: u8) -> u8
    ensures { result ≡ source_factor mode da }
{
    match mode {
        DST_OVER => 255 - da,
        SRC_IN => da,
        DST_IN => 0,
        _ => 255,
    }
}

// How much of the destination is kept, under the source's alpha.
#[tactic(auto, unfolding(crate::specs::PorterDuff::destination_factor))]
pub fn destination_factor(mode: u16, sa: u8) -> u8
    ensures { result ≡ destination_factor mode sa }
{
    match mode {
        SRC_OVER => 255 - sa,
        DST_OVER => 255,
        DST_IN => sa,
        _ => 0,
    }
}

// Whether the source is taken whole and nothing of the destination is kept.
pub fn hides(mode: u16, sa: u8) -> bool
    ensures { result ≡ hides mode sa }
{
    match mode {
        SRC => true,
        SRC_OVER => sa == 255,
        _ => false,
    }
}
