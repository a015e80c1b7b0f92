// One call of a history: what it takes from the line, and what it comes to.
use super::tables::{ROOTS, Tables};
use builder::ir_builder::{Expr, IrBuilder, Made};
use builder_call::call::{Call, perform};
use extension::extensions_goldilocks::Ext;
use gaps::gaps::gap_report;
use ir::refusal::Refusal;
use sample::line::Line;
use sample::word::Word;

// A call's number, as the sample's line has it, and its arguments.
#[derive(Clone, Copy)]
pub struct Request {
    call: u64,
    first: u64,
    second: u64,
    third: u64,
}

impl Request {
    pub fn read(line: &mut Line) -> Request {
        Request {
            call: line.number(),
            first: line.number(),
            second: line.number(),
            third: line.number(),
        }
    }
}

// What a call gives, and the builder after it.
#[derive(Clone, Copy)]
pub struct Given {
    pub builder: IrBuilder,
    pub number: u64,
}

// A handle is one number: its id, and 2^32 times its dim.
fn coded(e: Expr) -> u64 {
    u64::from(e.id) + 0x1_0000_0000 * u64::from(e.dim)
}

fn handle(word: u64) -> Expr {
    Expr {
        id: (word % 0x1_0000_0000) as u32,
        dim: (word / 0x1_0000_0000) as u32,
    }
}

fn made(answer: Result<Made, Refusal>) -> Result<Given, Refusal> {
    let Made { expr, builder } = answer?;
    Ok(Given {
        builder,
        number: coded(expr),
    })
}

fn rooted(answer: Result<IrBuilder, Refusal>) -> Result<Given, Refusal> {
    Ok(Given {
        builder: answer?,
        number: 0,
    })
}

fn report(asked: Request, b: IrBuilder, roots: &[u32]) -> Result<Given, Refusal> {
    let mut out = [u64::KEPT; ROOTS];
    let lent = ROOTS.min(asked.first as usize);
    let count = gap_report(b, roots, &mut out[..lent])?;
    Ok(Given {
        builder: b,
        number: count as u64,
    })
}

// A leaf but for constants.
fn leaf(asked: Request) -> Call {
    let offset = (asked.first % 256) as u8;
    let idx = asked.first as usize;
    let col = asked.second as usize;
    match asked.call {
        1 => Call::Main { offset, col },
        2 => Call::Aux { offset, col },
        3 => Call::Challenge { idx },
        4 => Call::AlphaPower { idx },
        _ => Call::TableOffset,
    }
}

fn constant(asked: Request, b: IrBuilder, t: &mut Tables) -> Result<Made, Refusal> {
    match asked.call {
        6 => b.const_base(t.nodes, t.places, t.bases, asked.first),
        7 => b.const_signed(t.nodes, t.places, t.bases, asked.first.cast_signed()),
        8 => {
            let limbs = [asked.first, asked.second, asked.third];
            b.const_ext(t.nodes, t.places, t.exts, Ext { limbs })
        }
        _ => b.one(t.nodes, t.places, t.bases),
    }
}

fn operation(asked: Request) -> Call {
    let a = handle(asked.first);
    let b = handle(asked.second);
    match asked.call {
        10 => Call::Add { a, b },
        11 => Call::Sub { a, b },
        12 => Call::Mul { a, b },
        13 => Call::Neg { a },
        _ => Call::Embed { a },
    }
}

// Both tables are lent for writing: of two fields behind one reference, Rattle does not yet lend one for reading beside
// the other for writing.
fn emit(
    asked: Request,
    b: IrBuilder,
    nodes: &mut [u32],
    roots: &mut [u32],
) -> Result<Given, Refusal> {
    rooted(b.emit(nodes, roots, asked.first as usize, handle(asked.second)))
}

// The numbers of the calls: 0 is a fresh builder, 1 to 5 are leaves, 6 to 9 constants, 15 emits, 16 reports the gaps, and
// all others are operations.
pub fn perform_asked(asked: Request, b: IrBuilder, t: &mut Tables) -> Result<Given, Refusal> {
    match asked.call {
        0 => made(IrBuilder::new(t.nodes, t.places, t.bases)),
        1..=5 => made(perform(b, leaf(asked), t.nodes, t.places)),
        6..=9 => made(constant(asked, b, t)),
        15 => emit(asked, b, t.nodes, t.roots),
        16 => report(asked, b, t.roots),
        _ => made(perform(b, operation(asked), t.nodes, t.places)),
    }
}
