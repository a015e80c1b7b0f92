// Programs as calls, on numbers and word slices. An answer is one u64: the number of document 01's table, and 256
// times the place that it names.
ghost use Rattle.std.specs.Prelude.{[], ◌∷◌, ◌≡◌};
ghost use Rattle.ir.specs.Program.{checked};
ghost use Rattle.reads.specs.Reads.{ReadsAnswer};
ghost use Rattle.values.specs.Frame.{lent, row_lent};
ghost use Rattle.evaluation.specs.Evaluation.{ProverAnswer, VerifierAnswer, RowAnswer};
ghost use Rattle.host_answer.specs.Answer.{answer_of};
ghost use Rattle.host.specs.ProgramCalls.{CalledBase, CalledReads};
ghost use Rattle.host_answer.specs.Called.{Called};
ghost use Rattle.host_answer.specs.Numbers.{counts, shape};

use host_answer::answer::{coded_outcome, coded_refusal, ext_of};
use host_answer::numbers::{counts_of, shape_of};
use interp::interp::{eval_program, eval_program_base, eval_program_verifier};
use ir::program::check_program;
use reads::reads::next_row_trace_reads;
use values::frame::Inputs;

#[unsafe(no_mangle)]
pub extern "C" fn cir_check_program(
    n: usize,
    b: usize,
    x: usize,
    r: usize,
    leading: usize,
    nodes: &[u32],
    bases: &[u64],
    exts: &[u64],
    roots: &[u32],
) -> u64
    ensures { result ≡ answer_of (checked (record { counts = counts n b x r leading; nodes = nodes.now; bases = bases.now; exts = exts.now; roots = roots.now })) }
{
    let c = counts_of(n, b, x, r, leading);
    coded_outcome(check_program(c, nodes, bases, exts, roots))
}

#[unsafe(no_mangle)]
pub extern "C" fn cir_eval_program(
    n: usize,
    b: usize,
    x: usize,
    r: usize,
    leading: usize,
    steps: usize,
    width: usize,
    auxes: usize,
    rap: usize,
    powers: usize,
    o0: u64,
    o1: u64,
    o2: u64,
    nodes: &[u32],
    bases: &[u64],
    exts: &[u64],
    roots: &[u32],
    main: &[u64],
    aux: &[u64],
    challenges: &[u64],
    alphas: &[u64],
    base: &mut [u64],
    ext: &mut [u64],
    room: &mut [u64],
) -> u64
    ensures { Called (λ o. ProverAnswer (counts n b x r leading) (shape steps width auxes rap powers) nodes.now roots.now (lent bases.now exts.now main.now aux.now challenges.now alphas.now (o0 ∷ o1 ∷ o2 ∷ [])) o base.old base.new ext.old ext.new room.old room.new) result }
{
    let inputs = Inputs {
        bases,
        exts,
        main,
        aux,
        challenges,
        alphas,
        offset: ext_of(o0, o1, o2),
    };
    coded_outcome(eval_program(
        counts_of(n, b, x, r, leading),
        shape_of(steps, width, auxes, rap, powers),
        &inputs,
        nodes,
        roots,
        base,
        ext,
        room,
    ))
}

#[unsafe(no_mangle)]
pub extern "C" fn cir_eval_program_verifier(
    n: usize,
    b: usize,
    x: usize,
    r: usize,
    leading: usize,
    steps: usize,
    width: usize,
    auxes: usize,
    rap: usize,
    powers: usize,
    o0: u64,
    o1: u64,
    o2: u64,
    nodes: &[u32],
    bases: &[u64],
    exts: &[u64],
    roots: &[u32],
    main: &[u64],
    aux: &[u64],
    challenges: &[u64],
    alphas: &[u64],
    ext: &mut [u64],
    room: &mut [u64],
) -> u64
    ensures { Called (λ o. VerifierAnswer (counts n b x r leading) (shape steps width auxes rap powers) nodes.now roots.now (lent bases.now exts.now main.now aux.now challenges.now alphas.now (o0 ∷ o1 ∷ o2 ∷ [])) o ext.old ext.new room.old room.new) result }
{
    let inputs = Inputs {
        bases,
        exts,
        main,
        aux,
        challenges,
        alphas,
        offset: ext_of(o0, o1, o2),
    };
    coded_outcome(eval_program_verifier(
        counts_of(n, b, x, r, leading),
        shape_of(steps, width, auxes, rap, powers),
        &inputs,
        nodes,
        roots,
        ext,
        room,
    ))
}

#[unsafe(no_mangle)]
pub extern "C" fn cir_eval_program_base(
    n: usize,
    b: usize,
    x: usize,
    r: usize,
    leading: usize,
    width: usize,
    asked: usize,
    nodes: &[u32],
    bases: &[u64],
    exts: &[u64],
    roots: &[u32],
    row: &[u64],
    room: &mut [u64],
    value: &mut u64,
) -> u64
    ensures { CalledBase (λ o. RowAnswer (counts n b x r leading) width asked nodes.now roots.now (row_lent bases.now exts.now row.now) o room.old room.new) result value.old value.new }
{
    let c = counts_of(n, b, x, r, leading);
    match eval_program_base(c, width, asked, nodes, bases, exts, roots, row, room) {
        Ok(v) => {
            *value = v;
            0
        }
        Err(why) => coded_refusal(why),
    }
}

#[unsafe(no_mangle)]
pub extern "C" fn cir_next_row_trace_reads(
    n: usize,
    b: usize,
    x: usize,
    r: usize,
    leading: usize,
    width: usize,
    nodes: &[u32],
    bases: &[u64],
    exts: &[u64],
    roots: &[u32],
    out: &mut [u32],
    count: &mut u64,
) -> u64
    ensures { CalledReads (λ o. ReadsAnswer (record { counts = counts n b x r leading; nodes = nodes.now; bases = bases.now; exts = exts.now; roots = roots.now }) width out.old out.new o) result count.old count.new }
{
    let c = counts_of(n, b, x, r, leading);
    match next_row_trace_reads(c, width, nodes, bases, exts, roots, out) {
        Ok(listed) => {
            *count = listed as u64;
            0
        }
        Err(why) => coded_refusal(why),
    }
}
