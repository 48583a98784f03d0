// The kinds of records: what each says, and how long it is.
ghost use Rattle.std.specs.Prelude.{◌≡◌};
ghost use Rattle.ir.specs.Kinds.{role_of, body_of};

use crate::Role;

pub const NODE: u8 = 0x01;

pub const WIRE: u8 = 0x02;

pub const INT: u8 = 0x03;

pub const FLOAT: u8 = 0x04;

pub const BOOL: u8 = 0x05;

pub const VECTOR: u8 = 0x06;

pub const ROTATOR: u8 = 0x07;

pub const QUAT: u8 = 0x08;

pub const COLOR: u8 = 0x09;

pub const ROW: u8 = 0x0A;

pub const ANNIHILATOR: u8 = 0x0B;

pub const TEXT: u8 = 0x0C;

pub fn role_of(kind: u8) -> Role
    ensures { result ≡ role_of kind }
{
    match kind {
        NODE => Role::Node,
        WIRE => Role::Wire,
        INT..=COLOR | TEXT => Role::Property,
        ROW => Role::Row,
        ANNIHILATOR => Role::Annihilator,
        _ => Role::Unlisted,
    }
}

// The length of a record's body, without its kind byte.
pub fn body_of(kind: u8) -> usize
    ensures { result ≡ body_of kind }
{
    match kind {
        NODE => 2,
        WIRE => 6,
        INT => 11,
        FLOAT => 11,
        BOOL => 4,
        VECTOR => 27,
        ROTATOR => 27,
        QUAT => 35,
        COLOR => 35,
        ROW => 4,
        ANNIHILATOR => 1,
        TEXT => 20,
        _ => 0,
    }
}
