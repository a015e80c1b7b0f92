// The three evaluators over lent memory. A refusal leaves every lent word as it was; the room of four words a
// node may hold anything on entry, and holds every node's class and limbs after success.
ghost use Rattle.std.specs.Prelude.{true, [], ◌≡◌, ℕ, ◌*◌, ◌<◌, ◌≤◌, ◌^◌, length, get_or};
ghost use Rattle.extension.specs.Tower.{goldilocks};
ghost use Rattle.ir.specs.Refusals.{said_of_outcome, first, gives};
ghost use Rattle.values.specs.Values.{values};
ghost use Rattle.values.specs.Frame.{lent_in, row_lent, leaves, frame_limits, row_limits};
ghost use Rattle.values.specs.Operations.{Ready};
ghost use Rattle.evaluation.specs.Writes.{RootsIn, Completes};
ghost use Rattle.evaluation.specs.Evaluation.{TablesOk, prover_rest, prover_rows, verifier_rest, verifier_rows, row_rest, row_rows, lengths, ProverAnswer, VerifierAnswer, RowAnswer};
ghost use Rattle.evaluation.specs.Attempt.{Sufficient, ProverAttempt};

use evaluation::evals::write_roots;
use evaluation::frame::Lengths;
use evaluation::refuse::{
    form_refusal, lowest_ext_root, memory_refusal, root_is_ext, roots_fit, short_evals,
};
use extension::extensions_goldilocks::Ext;
use field::goldilocks::Fp;
use ir::frame::Shape;
use ir::program::Counts;
use ir::refusal::Refusal;
use trial::trial::try_in;
use values::frame::{Inputs, Limits, Strides};
use values::run::run;

fn frame_limits(s: Shape) -> Limits
    ensures { result ≡ frame_limits s }
{
    Limits {
        steps: s.steps,
        main: s.main,
        aux: s.aux,
        challenges: s.challenges,
        alphas: s.alphas,
        offsets: 1,
    }
}

fn strides(s: Shape, wide: bool) -> Strides
    ensures { result ≡ record { wide = wide; main = s.main; aux = s.aux } }
{
    Strides {
        wide,
        main: s.main,
        aux: s.aux,
    }
}

// How much was lent.
fn lengths(inputs: &Inputs, nodes: &[u32], roots: &[u32], room: &[u64]) -> Lengths
    ensures { result ≡ lengths nodes.now roots.now (lent_in inputs.now) room.now }
{
    Lengths {
        nodes: nodes.len(),
        bases: inputs.bases.len(),
        exts: inputs.exts.len(),
        roots: roots.len(),
        main: inputs.main.len(),
        aux: inputs.aux.len(),
        challenges: inputs.challenges.len(),
        alphas: inputs.alphas.len(),
        room: room.len(),
    }
}

// 14, 7, 13 and 12, once the memory suffices.
fn prover_rest(
    c: Counts,
    s: Shape,
    base: usize,
    ext: usize,
    nodes: &[u32],
    roots: &[u32],
) -> Result<(), Refusal>
    requires { TablesOk c (length nodes.now) (length roots.now) }
    ensures { said_of_outcome result ≡ first (prover_rest c base ext (frame_limits s) nodes.now roots.now) (gives []) }
{
    if short_evals(c, base, ext) {
        return Err(Refusal::ShortEvals);
    }
    form_refusal(c, frame_limits(s), nodes, roots)?;
    match lowest_ext_root(c, nodes, roots) {
        Some(place) => Err(Refusal::ExtensionRoot { place }),
        None => Ok(()),
    }
}

fn prover_refusal(
    c: Counts,
    s: Shape,
    l: Lengths,
    base: usize,
    ext: usize,
    nodes: &[u32],
    roots: &[u32],
) -> Result<(), Refusal>
    requires { (l.nodes ≡ length nodes.now) × (l.roots ≡ length roots.now) }
    ensures { said_of_outcome result ≡ first (prover_rows c s l base ext (frame_limits s) nodes.now roots.now) (gives []) }
{
    memory_refusal(c, s, 1, l)?;
    prover_rest(c, s, base, ext, nodes, roots)
}

// The pass over the nodes, then the roots' values. Ten things that a caller lends apart: the program as one value would name the
// constants a second time, beside the inputs.
fn evaluate(
    n: usize,
    count: usize,
    leading: usize,
    t: Strides,
    inputs: &Inputs,
    nodes: &[u32],
    roots: &[u32],
    base: &mut [u64],
    ext: &mut [u64],
    room: &mut [u64],
)
    requires { Ready t nodes.now n (lent_in inputs.now) (length room.old) × RootsIn count leading roots.now (length room.old) (length base.old) (length ext.old) × ((r : ℕ) → r < count → get_or roots.now r 0 < n) }
    ensures { Completes (values goldilocks (leaves t (lent_in inputs.now)) nodes.now n) n leading count roots.now base.old base.new ext.old ext.new room.old room.new }
{
    run(n, t, inputs, nodes, room);
    write_roots(count, leading, roots, room, base, ext);
}

// Every refusal in its order, then the evaluation: a pass for each.
fn eval_in_steps(
    c: Counts,
    s: Shape,
    inputs: &Inputs,
    nodes: &[u32],
    roots: &[u32],
    base: &mut [u64],
    ext: &mut [u64],
    room: &mut [u64],
) -> Result<(), Refusal>
    ensures { ProverAnswer c s nodes.now roots.now (lent_in inputs.now) result base.old base.new ext.old ext.new room.old room.new }
{
    let l = lengths(inputs, nodes, roots, room);
    prover_refusal(c, s, l, base.len(), ext.len(), nodes, roots)?;
    evaluate(
        c.nodes,
        c.roots,
        c.num_base,
        strides(s, false),
        inputs,
        nodes,
        roots,
        base,
        ext,
        room,
    );
    Ok(())
}

// Whether the memory suffices, and the roots are as they have to be.
fn sufficient(
    c: Counts,
    s: Shape,
    l: Lengths,
    base: usize,
    ext: usize,
    nodes: &[u32],
    roots: &[u32],
) -> bool
    requires { (l.nodes ≡ length nodes.now) × (l.roots ≡ length roots.now) }
    ensures { result ≡ true → Sufficient c s l base ext nodes.now roots.now }
{
    memory_refusal(c, s, 1, l).is_ok() && roots_fit(c, base, ext, nodes, roots)
}

// The whole check and the evaluation with one pass over the nodes, in a room of N words. Where it says false, for a program that
// is refused, nothing was written.
fn attempt<const N: usize>(
    c: Counts,
    s: Shape,
    inputs: &Inputs,
    base: usize,
    ext: usize,
    nodes: &[u32],
    roots: &[u32],
    room: &mut [u64],
) -> bool
    requires { (4 * c.nodes ≤ N) × (N < 2 ^ 60) }
    ensures { ProverAttempt c s nodes.now roots.now (lent_in inputs.now) base ext room.old room.new result }
{
    let l = lengths(inputs, nodes, roots, room);
    sufficient(c, s, l, base, ext, nodes, roots)
        && try_in::<N>(c, frame_limits(s), strides(s, false), inputs, nodes, room)
}

// The same for more than 128 nodes, by size. A program that is larger than the largest room is not tried.
fn attempt_large(
    c: Counts,
    s: Shape,
    inputs: &Inputs,
    base: usize,
    ext: usize,
    nodes: &[u32],
    roots: &[u32],
    room: &mut [u64],
) -> bool
    ensures { ProverAttempt c s nodes.now roots.now (lent_in inputs.now) base ext room.old room.new result }
{
    if c.nodes <= 128 {
        false
    } else if c.nodes <= 1024 {
        attempt::<4096>(c, s, inputs, base, ext, nodes, roots, room)
    } else if c.nodes <= 8192 {
        attempt::<32768>(c, s, inputs, base, ext, nodes, roots, room)
    } else {
        false
    }
}

// A program of more than 128 nodes, or one that is refused. It has two callers, which keeps it apart in the compiled code: the
// stack of its largest room costs time in every call, and a small program does not pay for it.
fn eval_large(
    c: Counts,
    s: Shape,
    inputs: &Inputs,
    nodes: &[u32],
    roots: &[u32],
    base: &mut [u64],
    ext: &mut [u64],
    room: &mut [u64],
) -> Result<(), Refusal>
    ensures { ProverAnswer c s nodes.now roots.now (lent_in inputs.now) result base.old base.new ext.old ext.new room.old room.new }
{
    if attempt_large(c, s, inputs, base.len(), ext.len(), nodes, roots, room) {
        write_roots(c.roots, c.num_base, roots, room, base, ext);
        return Ok(());
    }
    eval_in_steps(c, s, inputs, nodes, roots, base, ext, room)
}

// A program of up to 128 nodes.
fn eval_small(
    c: Counts,
    s: Shape,
    inputs: &Inputs,
    nodes: &[u32],
    roots: &[u32],
    base: &mut [u64],
    ext: &mut [u64],
    room: &mut [u64],
) -> Result<(), Refusal>
    requires { c.nodes ≤ 128 }
    ensures { ProverAnswer c s nodes.now roots.now (lent_in inputs.now) result base.old base.new ext.old ext.new room.old room.new }
{
    if attempt::<512>(c, s, inputs, base.len(), ext.len(), nodes, roots, room) {
        write_roots(c.roots, c.num_base, roots, room, base, ext);
        return Ok(());
    }
    eval_large(c, s, inputs, nodes, roots, base, ext, room)
}

// The plain evaluator: base constraints into base_evals, the others into ext_evals.
pub fn eval_program(
    c: Counts,
    s: Shape,
    inputs: &Inputs,
    nodes: &[u32],
    roots: &[u32],
    base: &mut [u64],
    ext: &mut [u64],
    room: &mut [u64],
) -> Result<(), Refusal>
    ensures { ProverAnswer c s nodes.now roots.now (lent_in inputs.now) result base.old base.new ext.old ext.new room.old room.new }
{
    if c.nodes <= 128 {
        eval_small(c, s, inputs, nodes, roots, base, ext, room)
    } else {
        eval_large(c, s, inputs, nodes, roots, base, ext, room)
    }
}

// 14, 7 and 13, once the memory suffices.
fn verifier_rest(
    c: Counts,
    s: Shape,
    ext: usize,
    nodes: &[u32],
    roots: &[u32],
) -> Result<(), Refusal>
    requires { TablesOk c (length nodes.now) (length roots.now) }
    ensures { said_of_outcome result ≡ first (verifier_rest c ext (frame_limits s) nodes.now roots.now) (gives []) }
{
    let count = c.roots;
    if ext < 3 * count {
        return Err(Refusal::ShortEvals);
    }
    form_refusal(c, frame_limits(s), nodes, roots)
}

fn verifier_refusal(
    c: Counts,
    s: Shape,
    l: Lengths,
    ext: usize,
    nodes: &[u32],
    roots: &[u32],
) -> Result<(), Refusal>
    requires { (l.nodes ≡ length nodes.now) × (l.roots ≡ length roots.now) }
    ensures { said_of_outcome result ≡ first (verifier_rows c s l ext (frame_limits s) nodes.now roots.now) (gives []) }
{
    memory_refusal(c, s, 3, l)?;
    verifier_rest(c, s, ext, nodes, roots)
}

// The verifier's evaluator: main cells are extension values, and every constraint goes into ext_evals.
pub fn eval_program_verifier(
    c: Counts,
    s: Shape,
    inputs: &Inputs,
    nodes: &[u32],
    roots: &[u32],
    ext: &mut [u64],
    room: &mut [u64],
) -> Result<(), Refusal>
    ensures { VerifierAnswer c s nodes.now roots.now (lent_in inputs.now) result ext.old ext.new room.old room.new }
{
    let l = lengths(inputs, nodes, roots, room);
    verifier_refusal(c, s, l, ext.len(), nodes, roots)?;
    // No root is base here, so nothing is written to this.
    let mut none = [0u64; 1];
    evaluate(
        c.nodes,
        c.roots,
        0,
        strides(s, true),
        inputs,
        nodes,
        roots,
        &mut none,
        ext,
        room,
    );
    Ok(())
}

fn row_limits(width: usize) -> Limits
    ensures { result ≡ row_limits width }
{
    Limits {
        steps: 256,
        main: width,
        aux: 0,
        challenges: 0,
        alphas: 0,
        offsets: 0,
    }
}

// 6, 7, 13 and 12, once the memory suffices.
fn row_rest(
    c: Counts,
    width: usize,
    asked: usize,
    nodes: &[u32],
    roots: &[u32],
) -> Result<(), Refusal>
    requires { TablesOk c (length nodes.now) (length roots.now) }
    ensures { said_of_outcome result ≡ first (row_rest c asked (row_limits width) nodes.now roots.now) (gives []) }
{
    if c.roots <= asked {
        return Err(Refusal::NoConstraint);
    }
    form_refusal(c, row_limits(width), nodes, roots)?;
    let root = roots[asked] as usize;
    if root_is_ext(nodes, root) {
        Err(Refusal::ExtensionRoot { place: asked })
    } else {
        Ok(())
    }
}

fn row_refusal(
    c: Counts,
    width: usize,
    asked: usize,
    l: Lengths,
    nodes: &[u32],
    roots: &[u32],
) -> Result<(), Refusal>
    requires { (l.nodes ≡ length nodes.now) × (l.roots ≡ length roots.now) }
    ensures { said_of_outcome result ≡ first (row_rows c width asked l (row_limits width) nodes.now roots.now) (gives []) }
{
    let s = Shape {
        steps: 1,
        main: width,
        aux: 0,
        challenges: 0,
        alphas: 0,
    };
    memory_refusal(c, s, 1, l)?;
    row_rest(c, width, asked, nodes, roots)
}

// One constraint over one row of main cells, whose offset is ignored; the root has to be base.
pub fn eval_program_base(
    c: Counts,
    width: usize,
    asked: usize,
    nodes: &[u32],
    bases: &[u64],
    exts: &[u64],
    roots: &[u32],
    row: &[u64],
    room: &mut [u64],
) -> Result<u64, Refusal>
    ensures { RowAnswer c width asked nodes.now roots.now (row_lent bases.now exts.now row.now) result room.old room.new }
{
    // There are no other cells and no uniforms.
    let inputs = Inputs {
        bases,
        exts,
        main: row,
        aux: &[],
        challenges: &[],
        alphas: &[],
        offset: Ext { limbs: [0, 0, 0] },
    };
    let l = lengths(&inputs, nodes, roots, room);
    row_refusal(c, width, asked, l, nodes, roots)?;
    let t = Strides {
        wide: false,
        main: 0,
        aux: 0,
    };
    run(c.nodes, t, &inputs, nodes, room);
    let root = roots[asked] as usize;
    Ok(Fp::reduce(room[4 * root + 1]))
}
