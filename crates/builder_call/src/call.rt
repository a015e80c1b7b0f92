// The ten calls that touch nodes and places alone, as one: for callers that take a call as data.
ghost use Rattle.node_table.specs.Hashing.{start_of};
ghost use Rattle.node_table.specs.Table.{table};
ghost use Rattle.builder.specs.Answers.{Gives};
ghost use Rattle.builder_call.specs.CallData.{call_of};

use builder::ir_builder::{Expr, IrBuilder, Made};
use ir::refusal::Refusal;

// A call with its arguments.
#[derive(Clone, Copy)]
pub enum Call {
    Main { offset: u8, col: usize },
    Aux { offset: u8, col: usize },
    Challenge { idx: usize },
    AlphaPower { idx: usize },
    TableOffset,
    Add { a: Expr, b: Expr },
    Sub { a: Expr, b: Expr },
    Mul { a: Expr, b: Expr },
    Neg { a: Expr },
    Embed { a: Expr },
}

pub fn perform(
    builder: IrBuilder,
    c: Call,
    nodes: &mut [u32],
    places: &mut [u32],
) -> Result<Made, Refusal>
    ensures { Gives (call_of start_of c (table nodes.old places.old builder.nodes)) builder result nodes.new places.new }
{
    match c {
        Call::Main { offset, col } => builder.main(nodes, places, offset, col),
        Call::Aux { offset, col } => builder.aux(nodes, places, offset, col),
        Call::Challenge { idx } => builder.challenge(nodes, places, idx),
        Call::AlphaPower { idx } => builder.alpha_power(nodes, places, idx),
        Call::TableOffset => builder.table_offset(nodes, places),
        Call::Add { a, b } => builder.add(nodes, places, a, b),
        Call::Sub { a, b } => builder.sub(nodes, places, a, b),
        Call::Mul { a, b } => builder.mul(nodes, places, a, b),
        Call::Neg { a } => builder.neg(nodes, places, a),
        Call::Embed { a } => builder.embed(nodes, places, a),
    }
}
