// The five calls on a case, each held to the line. What is lent for writing is longer than the call needs, and what it
// has to leave is held too.
use super::line::{Case, NODE_WORDS, NODES, NONE, ROOTS};
use host_answer::answer::{coded_outcome, coded_refusal};
use interp::interp::{eval_program, eval_program_base, eval_program_verifier};
use ir::program::{Counts, check_program};
use ir::refusal::Refusal;
use reads::reads::next_row_trace_reads;
use sample::fault::Fault;
use sample::line::Line;
use sample::word::Word;
use values::frame::Inputs;

// Room for three words a constraint.
const EXT_WORDS: usize = 192;

// What a call writes values of: nothing where it refuses.
fn written(c: Counts, answer: Result<(), Refusal>) -> Counts {
    match answer {
        Ok(()) => c,
        Err(_) => NONE,
    }
}

fn check(line: &mut Line, case: &Case) -> Result<(), Fault> {
    let answer = check_program(case.counts, case.nodes, case.bases, case.exts, case.roots);
    line.hold(coded_outcome(answer))
}

fn reads(line: &mut Line, case: &Case) -> Result<(), Fault> {
    let mut out = [u32::KEPT; NODES];
    let columns = next_row_trace_reads(
        case.counts,
        case.shape.main,
        case.nodes,
        case.bases,
        case.exts,
        case.roots,
        &mut out,
    );
    match columns {
        Ok(count) => {
            line.hold(0)?;
            line.hold(count as u64)?;
            line.hold_written(&out, 0..count)
        }
        Err(why) => {
            line.hold(coded_refusal(why))?;
            line.hold_kept(&out)
        }
    }
}

// What an evaluator does not use of its room for values.
fn hold_unused(line: &Line, room: &[u64], nodes: usize) -> Result<(), Fault> {
    line.hold_kept(room.get(nodes.saturating_mul(4)..).unwrap_or(&[]))
}

// What the evaluators' leaves are read from: the main cells are those of the call.
fn inputs<'l>(case: &Case<'l, '_>, main: &'l [u64]) -> Inputs<'l> {
    Inputs {
        bases: case.bases,
        exts: case.exts,
        main,
        aux: case.aux,
        challenges: case.challenges,
        alphas: case.alphas,
        offset: case.offset,
    }
}

fn prover(line: &mut Line, case: &Case) -> Result<(), Fault> {
    let mut base = [u64::KEPT; ROOTS];
    let mut ext = [u64::KEPT; EXT_WORDS];
    let mut room = [u64::KEPT; NODE_WORDS];
    let answer = eval_program(
        case.counts,
        case.shape,
        &inputs(case, case.main),
        case.nodes,
        case.roots,
        &mut base,
        &mut ext,
        &mut room,
    );
    let w = written(case.counts, answer);
    let leading = w.num_base.min(w.roots);
    line.hold(coded_outcome(answer))?;
    line.hold_written(&base, 0..leading)?;
    line.hold_written(&ext, leading.saturating_mul(3)..w.roots.saturating_mul(3))?;
    hold_unused(line, &room, w.nodes)
}

// The main cells are the wide ones, and every constraint is written as extension.
fn verifier(line: &mut Line, case: &Case) -> Result<(), Fault> {
    let mut ext = [u64::KEPT; EXT_WORDS];
    let mut room = [u64::KEPT; NODE_WORDS];
    let answer = eval_program_verifier(
        case.counts,
        case.shape,
        &inputs(case, case.wide),
        case.nodes,
        case.roots,
        &mut ext,
        &mut room,
    );
    let w = written(case.counts, answer);
    line.hold(coded_outcome(answer))?;
    line.hold_written(&ext, 0..w.roots.saturating_mul(3))?;
    hold_unused(line, &room, w.nodes)
}

// One constraint over the first step's main cells; without steps there are none.
fn row(line: &mut Line, case: &Case, asked: usize) -> Result<(), Fault> {
    let width = if case.shape.steps == 0 {
        0
    } else {
        case.shape.main
    };
    let mut room = [u64::KEPT; NODE_WORDS];
    let evaluated = eval_program_base(
        case.counts,
        width,
        asked,
        case.nodes,
        case.bases,
        case.exts,
        case.roots,
        case.main.get(..width).unwrap_or(&[]),
        &mut room,
    );
    match evaluated {
        Ok(value) => {
            line.hold(0)?;
            line.hold(value)?;
            hold_unused(line, &room, case.counts.nodes)
        }
        Err(why) => {
            line.hold(coded_refusal(why))?;
            line.hold_kept(&room)
        }
    }
}

// All five, in the line's order.
pub fn hold_calls(line: &mut Line, case: &Case) -> Result<(), Fault> {
    check(line, case)?;
    reads(line, case)?;
    prover(line, case)?;
    verifier(line, case)?;
    for asked in 0..case.roots.len() {
        row(line, case, asked)?;
    }
    line.end()
}
