// Document 01's cases of the builder that no theorem's table holds: the last column that there is, and a constraint emitted
// past two gaps, with its program lowered.
#![tactic(auto)]

use blob_rules::blob::TableRooms;
use builder::ir_builder::{IrBuilder, Made};
use host_answer::answer::coded_refusal;
use ir::program::ProgramRef;
use ir::refusal::Refusal;
use lower::lower::lower;
use lower_parts::parts::Lists;
use std::io;

const NONE: IrBuilder = IrBuilder {
    nodes: 0,
    bases: 0,
    exts: 0,
    roots: 0,
};

fn after(b: IrBuilder, a: Result<Made, Refusal>) -> IrBuilder {
    match a {
        Ok(made) => made.builder,
        Err(_) => b,
    }
}

// The node's id, or the refusal's number in words.
fn say_answer(rt: &impl Print, a: Result<Made, Refusal>) -> io::Result<()> {
    match a {
        Ok(made) => println!(rt; " gives node {}", made.expr.id),
        Err(why) => println!(rt; " is refused by {}", coded_refusal(why)),
    }
}

// Columns of 16 bits.
fn column(rt: &impl Print, col: usize) -> io::Result<()> {
    let mut nodes = [0u32; 16];
    let mut places = [0u32; 8];
    let mut bases = [0u64; 2];
    let b = after(NONE, IrBuilder::new(&mut nodes, &mut places, &mut bases));
    print!(rt; "column {col}")?;
    say_answer(rt, b.main(&mut nodes, &mut places, 0, col))
}

fn say_words(rt: &impl Print, name: &str, words: &[u32]) -> io::Result<()> {
    print!(rt; "{name}")?;
    for word in words {
        print!(rt; " {word}")?;
    }
    println!(rt; "")
}

// The blob of a program of two nodes and three roots, over tables that are long enough.
fn say_lowered(
    rt: &impl Print,
    b: IrBuilder,
    nodes: &[u32],
    bases: &[u64],
    roots: &[u32],
) -> io::Result<()> {
    let mut used = [0u32; 4];
    let mut last_use = [0u32; 4];
    let mut is_root = [0u32; 4];
    let mut slot_of = [0u32; 4];
    let mut free = [0u32; 8];
    let mut out_nodes = [0u32; 8];
    let mut out_bases = [0u64; 4];
    let mut out_exts = [0u64; 3];
    let mut out_roots = [0u32; 3];
    let exts = [0u64; 3];
    let program = ProgramRef {
        counts: b.finish(3),
        nodes,
        bases,
        exts: &exts,
        roots,
    };
    let mut lists = Lists {
        used: &mut used,
        last_use: &mut last_use,
        is_root: &mut is_root,
        slot_of: &mut slot_of,
        free: &mut free,
    };
    let mut out = TableRooms {
        nodes: &mut out_nodes,
        bases: &mut out_bases,
        exts: &mut out_exts,
        roots: &mut out_roots,
    };
    match lower(&program, &mut lists, &mut out) {
        Ok(k) => {
            print!(rt; "lowered: nodes {}, base slots {}", k.nodes, k.base_slots)?;
            say_words(rt, ", roots in slots", &out_roots)?;
            say_words(rt, "words of its nodes:", &out_nodes)
        }
        Err(why) => { println!(rt; "lowering is refused by {}", coded_refusal(why)) }
    }
}

// A cell over fresh tables.
fn fresh_cell(nodes: &mut [u32], places: &mut [u32], bases: &mut [u64]) -> Result<Made, Refusal> {
    let b = after(
        NONE,
        IrBuilder::new(&mut nodes[..], &mut places[..], &mut bases[..]),
    );
    b.main(&mut nodes[..], &mut places[..], 0, 5)
}

fn emit_over(
    rt: &impl Print,
    cell: Result<Made, Refusal>,
    nodes: &[u32],
    bases: &[u64],
    roots: &mut [u32],
) -> io::Result<()> {
    let Ok(Made { expr, builder }) = cell else {
        return println!(rt; "the cell is refused");
    };
    let Ok(rooted) = builder.emit(nodes, &mut roots[..], 2, expr) else {
        return println!(rt; "the root is refused");
    };
    print!(rt; "emit(2) alone: {}", rooted.roots)?;
    say_words(rt, " roots:", roots)?;
    say_lowered(rt, rooted, nodes, bases, roots)
}

// emit(2) alone: constraints 0 and 1 have node 0, which then has a slot.
fn emit_past_gaps(rt: &impl Print) -> io::Result<()> {
    let mut nodes = [0u32; 16];
    let mut places = [0u32; 8];
    let mut bases = [0u64; 2];
    let mut roots = [7u32; 3];
    let cell = fresh_cell(&mut nodes, &mut places, &mut bases);
    emit_over(rt, cell, &nodes, &bases, &mut roots)
}

fn main(rt: HostRuntime) -> io::Result<()> {
    column(&rt, 65535)?;
    column(&rt, 65536)?;
    emit_past_gaps(&rt)
}
