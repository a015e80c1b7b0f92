// Node words: four u32 words a node, tag, x, y and dim.
ghost use Rattle.std.specs.Prelude.{◌≡◌};
ghost use Rattle.ir.specs.Words.{packed, unpacked};

// The tags, as device.rs numbers them: numbers and no enum, for a word of lent memory may be none of them, and the definitions
// speak of the numbers.
pub const OP_CONST_BASE: u32 = 0;

pub const OP_CONST_EXT: u32 = 1;

pub const OP_VAR: u32 = 2;

pub const OP_RAP_CHALLENGE: u32 = 3;

pub const OP_ALPHA_POW: u32 = 4;

pub const OP_TABLE_OFFSET: u32 = 5;

pub const OP_ADD: u32 = 6;

pub const OP_SUB: u32 = 7;

pub const OP_MUL: u32 = 8;

pub const OP_NEG: u32 = 9;

pub const OP_EMBED: u32 = 10;

// The dims, numbers as the tags are.
pub const DIM_BASE: u32 = 0;

pub const DIM_EXT: u32 = 1;

// A read of a trace cell.
#[derive(Clone, Copy)]
pub struct Var {
    pub main: bool,
    pub offset: u8,
    pub row: u8,
    pub col: u16,
}

// A read of a trace cell, as its node's x and y.
#[derive(Clone, Copy)]
pub struct Packed {
    pub a: u32,
    pub b: u32,
}

pub fn pack_var(v: Var) -> Packed
    ensures { result ≡ packed v }
{
    Packed {
        a: v.col as u32,
        b: (v.main as u32) * 65536 + (v.offset as u32) * 256 + (v.row as u32),
    }
}

// Spare bits are dropped.
pub fn unpack_var(w: Packed) -> Var
    ensures { result ≡ unpacked w }
{
    Var {
        main: w.b / 65536 % 2 != 0,
        offset: (w.b / 256 % 256) as u8,
        row: (w.b % 256) as u8,
        col: (w.a % 65536) as u16,
    }
}
