// What a step of the trial reads, computes and stores.
ghost use Rattle.std.specs.Prelude.{false, ◌&&◌, [], ◌∷◌, ◌≡◌, ◌+◌, ◌*◌, ◌<◌, ◌≤◌, eqb, length};
ghost use Rattle.std.proofs.lemmas.List.Edits.{sets};
ghost use Rattle.std.proofs.Math.Seq.{paste};
ghost use Rattle.laws.specs.Lists.{tabulate};
ghost use Rattle.extension.specs.Ext.{limb, Limbs, sums, minuses, scaled, product};
ghost use Rattle.values.specs.Values.{base, ext};
ghost use Rattle.values.specs.Frame.{lent_in};
ghost use Rattle.values.specs.Operations.{ext_op};
ghost use Rattle.values.specs.Room.{ValueIs};
ghost use Rattle.trial_parts.specs.Trial.{leaf_limit};
ghost use Rattle.trial_parts.specs.Step.{Clear, LowLimbs, entry_of, EntryIn};

use extension::extensions_goldilocks::Ext;
use field::goldilocks::Fp;
use ir::node::{OP_ADD, OP_ALPHA_POW, OP_CONST_EXT, OP_RAP_CHALLENGE, OP_SUB};
use ir::program::Counts;
use values::frame::{Inputs, Limits};
use values::run::store_value;
use values::value::{BASE, Value, ext_leaf, offset_leaf};

// A base value into the words of node i: the other three are 0 already.
pub fn put_base(room: &mut [u64], i: usize, v: u64)
    requires { Clear room.old i }
    ensures { room.new ≡ sets room.old (4 * i) (0 ∷ v ∷ 0 ∷ 0 ∷ []) }
{
    room[4 * i + 1] = v;
}

pub fn put_ext(room: &mut [u64], i: usize, limbs: Ext)
    requires { 4 * i + 4 ≤ length room.old }
    ensures { room.new ≡ sets room.old (4 * i) (1 ∷ tabulate 3 (limb limbs.limbs)) }
{
    store_value(room, i, Value::of_ext(limbs));
}

// An extension leaf's index is below this, but for cells.
#[tactic(auto, unfolding(crate::specs::Trial::leaf_limit))]
pub fn leaf_limit(c: Counts, m: Limits, tag: u32) -> usize
    ensures { result ≡ leaf_limit c m tag }
{
    match tag {
        OP_CONST_EXT => c.exts,
        OP_RAP_CHALLENGE => m.challenges,
        OP_ALPHA_POW => m.alphas,
        _ => m.offsets,
    }
}

#[tactic(auto, unfolding(crate::specs::Step::entry_of))]
pub fn entry(tag: u32, k: usize, inputs: &Inputs) -> Value
    requires { let l = lent_in inputs.now in EntryIn tag k (length l.exts) (length l.challenges) (length l.alphas) }
    ensures { let l = lent_in inputs.now in ValueIs (ext (entry_of tag k l.exts l.challenges l.alphas l.offset)) result.class result.limbs.limbs }
{
    match tag {
        OP_CONST_EXT => ext_leaf(inputs.exts, k),
        OP_RAP_CHALLENGE => ext_leaf(inputs.challenges, k),
        OP_ALPHA_POW => ext_leaf(inputs.alphas, k),
        _ => offset_leaf(inputs.offset),
    }
}

fn ext_sum(a: Ext, b: Ext) -> Ext
    requires { LowLimbs a.limbs × LowLimbs b.limbs }
    ensures { Limbs 3 (sums 3 a.limbs b.limbs) result.limbs }
{
    Ext {
        limbs: [
            Fp::add_reduced(a.limbs[0], b.limbs[0]),
            Fp::add_reduced(a.limbs[1], b.limbs[1]),
            Fp::add_reduced(a.limbs[2], b.limbs[2]),
        ],
    }
}

fn ext_difference(a: Ext, b: Ext) -> Ext
    requires { LowLimbs a.limbs × LowLimbs b.limbs }
    ensures { Limbs 3 (sums 3 a.limbs (minuses 3 b.limbs)) result.limbs }
{
    Ext {
        limbs: [
            Fp::sub_reduced(a.limbs[0], b.limbs[0]),
            Fp::sub_reduced(a.limbs[1], b.limbs[1]),
            Fp::sub_reduced(a.limbs[2], b.limbs[2]),
        ],
    }
}

fn ext_scaled(x: u64, b: Ext) -> Ext
    ensures { Limbs 3 (scaled 3 x b.limbs) result.limbs }
{
    Ext {
        limbs: [
            Fp::mul(x, b.limbs[0]),
            Fp::mul(x, b.limbs[1]),
            Fp::mul(x, b.limbs[2]),
        ],
    }
}

// An operand is often of the base, whose other limbs are 0: three products then, and not nine.
fn ext_product(a: Ext, b: Ext) -> Ext
    ensures { Limbs 3 (product a.limbs b.limbs) result.limbs }
{
    if a.limbs[1] == 0 && a.limbs[2] == 0 {
        return ext_scaled(a.limbs[0], b);
    }
    if b.limbs[1] == 0 && b.limbs[2] == 0 {
        return ext_scaled(b.limbs[0], a);
    }
    a.mul(b)
}

#[tactic(auto, unfolding(values::specs::Operations::ext_op))]
pub fn ext_binary(tag: u32, a: Ext, b: Ext) -> Ext
    requires { LowLimbs a.limbs × LowLimbs b.limbs }
    ensures { Limbs 3 (ext_op tag a.limbs b.limbs) result.limbs }
{
    match tag {
        OP_ADD => ext_sum(a, b),
        OP_SUB => ext_difference(a, b),
        _ => ext_product(a, b),
    }
}

// One test of three words in the compiled code: which of them is not 0 does not matter.
pub fn all_base(dim: u64, a: u64, b: u64) -> bool
    ensures { result ≡ (eqb dim 0 && (eqb a 0 && eqb b 0)) }
{
    dim == BASE && a == BASE && b == BASE
}

// The first count words; both may be longer.
pub fn copy_words(from: &[u64], to: &mut [u64], count: usize)
    requires { (count ≤ length from.now) × (count ≤ length to.old) }
    ensures { to.new ≡ paste to.old 0 from.now count }
{
    to[..count].copy_from_slice(&from[..count]);
}
