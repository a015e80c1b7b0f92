// Constants by value: 0 and p are one. A base constant is one word, an extension constant three.
ghost use Rattle.std.specs.Prelude.{◌≡◌, ◌+◌, ◌/◌, ◌%◌, ◌<◌, ◌≤◌, ℕ, Bool, List, eqb, length};
ghost use Rattle.field.specs.Base.{p};
ghost use Rattle.ir.specs.Words.{const_base, const_ext};
ghost use Rattle.const_table.specs.Positions.{same_base, same_ext, with_base, with_ext, found, crowded_b};

use extension::extensions_goldilocks::Ext;
use field::goldilocks::Fp;
use ir::node::{DIM_BASE, DIM_EXT, OP_CONST_BASE, OP_CONST_EXT};
use ir::program::MOST;

// A value that a table of constants holds, and the node that stands for it.
pub trait Constant: Copy {
    ghost TAG: { ℕ };

    ghost DIM: { ℕ };

    ghost fits: { List ℕ → ℕ };

    ghost same: { Self → List ℕ → ℕ → Bool };

    ghost written: { Self → List ℕ → ℕ → List ℕ };

    const TAG: u32;

    const DIM: u32;

    // How many constants the words hold.
    fn fits(words: &[u64]) -> usize
        ensures { result ≡ fits words.now };

    // Whether constant j has this value.
    fn is_at(self, words: &[u64], j: usize) -> bool
        requires { j < fits words.now }
        ensures { result ≡ same self words.now j };

    // Makes this value constant m.
    fn write(self, words: &mut [u64], m: usize)
        requires { m < fits words.old }
        ensures { words.new ≡ written self words.old m };
}

// Whether two words stand for one element; the equality of u64 is that of the words.
pub fn same_value(a: u64, b: u64) -> bool
    ensures { result ≡ eqb (a % p) (b % p) }
{
    Fp::reduce(a) == Fp::reduce(b)
}

impl Constant for u64 {
    ghost TAG = { const_base };

    ghost DIM = { 0 };

    ghost fits = { length };

    ghost same = { λ v bs j. same_base bs v j };

    ghost written = { λ v bs m. with_base bs m v };

    const TAG: u32 = OP_CONST_BASE;

    const DIM: u32 = DIM_BASE;

    fn fits(words: &[u64]) -> usize {
        words.len()
    }

    fn is_at(self, words: &[u64], j: usize) -> bool {
        same_value(words[j], self)
    }

    fn write(self, words: &mut [u64], m: usize) {
        words[m] = Fp::reduce(self);
    }
}

impl Constant for Ext {
    ghost TAG = { const_ext };

    ghost DIM = { 1 };

    ghost fits = { λ xs. length xs / 3 };

    ghost same = { λ v xs j. same_ext xs v.limbs j };

    ghost written = { λ v xs m. with_ext xs m v.limbs };

    const TAG: u32 = OP_CONST_EXT;

    const DIM: u32 = DIM_EXT;

    fn fits(words: &[u64]) -> usize {
        words.len() / 3
    }

    // Limb by limb.
    fn is_at(self, words: &[u64], j: usize) -> bool {
        let o = 3 * j;
        same_value(words[o], self.limbs[0])
            && same_value(words[o + 1], self.limbs[1])
            && same_value(words[o + 2], self.limbs[2])
    }

    fn write(self, words: &mut [u64], m: usize) {
        let o = 3 * m;
        words[o] = Fp::reduce(self.limbs[0]);
        words[o + 1] = Fp::reduce(self.limbs[1]);
        words[o + 2] = Fp::reduce(self.limbs[2]);
    }
}

// The first of m constants with the value of v. The words that are lent are room for more.
pub fn position<C: Constant>(words: &[u64], m: usize, v: C) -> Option<usize>
    requires { m ≤ C.fits words.now }
    ensures { result ≡ found (C.same v words.now) m }
{
    for j in 0..m {
        if v.is_at(words, j) {
            return Some(j);
        }
    }
    None
}

// Whether a constant is new and its table is full.
#[tactic(auto, unfolding(crate::specs::Positions::crowded_b))]
pub fn crowded(new: bool, fits: usize, m: usize) -> bool
    ensures { result ≡ crowded_b new fits m }
{
    new && fits.min(MOST) <= m
}
