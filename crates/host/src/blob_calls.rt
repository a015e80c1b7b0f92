// Blobs as calls, on numbers and word slices. An answer is one u64: the number of document 01's table, and 256 times the
// place that it names.
ghost use Rattle.std.specs.Prelude.{[], ◌∷◌};
ghost use Rattle.values.specs.Frame.{lent};
ghost use Rattle.blob_rules.specs.Check.{CheckAnswer};
ghost use Rattle.walk.specs.Walk.{WalkAnswer};
ghost use Rattle.host_answer.specs.Called.{Called};
ghost use Rattle.host_answer.specs.Numbers.{shape, blob_counts, blob};

use blob_rules::blob::BlobRef;
use device::check::check_blob;
use host_answer::answer::{coded_outcome, ext_of};
use host_answer::numbers::{blob_counts_of, shape_of};
use values::frame::Inputs;
use walk::walk::walk;

#[unsafe(no_mangle)]
pub extern "C" fn cir_check_blob(
    n: u32,
    b: u32,
    x: u32,
    r: u32,
    leading: u32,
    bs: u32,
    xs: u32,
    steps: usize,
    width: usize,
    auxes: usize,
    rap: usize,
    powers: usize,
    nodes: &[u32],
    roots: &[u32],
    marks: &mut [u8],
) -> u64
    ensures { Called (λ o. CheckAnswer (blob (blob_counts n b x r leading bs xs) nodes.now roots.now) (shape steps width auxes rap powers) o marks.old marks.new) result }
{
    let blob = BlobRef {
        counts: blob_counts_of(n, b, x, r, leading, bs, xs),
        nodes,
        roots,
    };
    let s = shape_of(steps, width, auxes, rap, powers);
    coded_outcome(check_blob(&blob, s, marks))
}

#[unsafe(no_mangle)]
pub extern "C" fn cir_walk(
    n: u32,
    b: u32,
    x: u32,
    r: u32,
    leading: u32,
    bs: u32,
    xs: u32,
    steps: usize,
    width: usize,
    auxes: usize,
    rap: usize,
    powers: usize,
    o0: u64,
    o1: u64,
    o2: u64,
    nodes: &[u32],
    bases: &[u64],
    exts: &[u64],
    roots: &[u32],
    main: &[u64],
    aux: &[u64],
    challenges: &[u64],
    alphas: &[u64],
    base: &mut [u64],
    ext: &mut [u64],
    marks: &mut [u8],
    slots: &mut [u64],
) -> u64
    ensures { Called (λ o. WalkAnswer (blob (blob_counts n b x r leading bs xs) nodes.now roots.now) (shape steps width auxes rap powers) (lent bases.now exts.now main.now aux.now challenges.now alphas.now (o0 ∷ o1 ∷ o2 ∷ [])) o base.old base.new ext.old ext.new marks.old marks.new slots.old slots.new) result }
{
    let blob = BlobRef {
        counts: blob_counts_of(n, b, x, r, leading, bs, xs),
        nodes,
        roots,
    };
    let inputs = Inputs {
        bases,
        exts,
        main,
        aux,
        challenges,
        alphas,
        offset: ext_of(o0, o1, o2),
    };
    let s = shape_of(steps, width, auxes, rap, powers);
    coded_outcome(walk(&blob, s, &inputs, base, ext, marks, slots))
}
