// The bits of a node's flags byte.
ghost use Rattle.std.specs.Prelude.{◌≡◌};
ghost use Rattle.ir.specs.Flags.{is_flags, nofold, labelled};

pub const NOFOLD: u8 = 0x01;

pub const LABEL: u8 = 0x02;

// Every bit that is listed.
pub const LISTED: u8 = 0x03;

pub fn is_flags(flags: u8) -> bool
    ensures { result ≡ is_flags flags }
{
    flags <= LISTED
}

pub fn is_nofold(flags: u8) -> bool
    ensures { result ≡ nofold flags }
{
    flags % 2 == NOFOLD
}

pub fn is_labelled(flags: u8) -> bool
    ensures { result ≡ labelled flags }
{
    flags / LABEL % 2 == 1
}
