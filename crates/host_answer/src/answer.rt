// An answer as one u64: the number of document 01's table, and 256 times the place that it names.
ghost use Rattle.std.specs.Prelude.{[], ◌∷◌, ◌≡◌, ◌+◌, ◌*◌, ◌%◌};
ghost use Rattle.ir.specs.Refusals.{said_of, said_of_outcome};
ghost use Rattle.host_answer.specs.Answer.{answer_of};

use extension::extensions_goldilocks::Ext;
use ir::refusal::Refusal;

// A place fits: no table has more than 2^32 entries.
fn coded(number: u8, place: usize) -> u64
    ensures { result ≡ number + 256 * (place % 281474976710656) }
{
    (number as u64) + 256 * ((place % 281474976710656) as u64)
}

pub fn coded_refusal(why: Refusal) -> u64
    ensures { result ≡ answer_of (said_of why) }
{
    match why {
        Refusal::ShortMemory => coded(1, 0),
        Refusal::OverLimit => coded(2, 0),
        Refusal::ForeignHandle => coded(3, 0),
        Refusal::NodesFull => coded(4, 0),
        Refusal::ConstantsFull => coded(5, 0),
        Refusal::NoConstraint => coded(6, 0),
        Refusal::IllFormed { place } => coded(7, place),
        Refusal::TooManyNodes => coded(8, 0),
        Refusal::TooManyRoots => coded(9, 0),
        Refusal::ShortOutput => coded(10, 0),
        Refusal::IllegalBlob { place } => coded(11, place),
        Refusal::ExtensionRoot { place } => coded(12, place),
        Refusal::LeafOutside { place } => coded(13, place),
        Refusal::ShortEvals => coded(14, 0),
        Refusal::BadFraming => coded(15, 0),
    }
}

pub fn coded_outcome(o: Result<(), Refusal>) -> u64
    ensures { result ≡ answer_of (said_of_outcome o) }
{
    match o {
        Ok(()) => 0,
        Err(why) => coded_refusal(why),
    }
}

// An extension value from its limbs.
pub fn ext_of(l0: u64, l1: u64, l2: u64) -> Ext
    ensures { result.limbs ≡ l0 ∷ l1 ∷ l2 ∷ [] }
{
    Ext {
        limbs: [l0, l1, l2],
    }
}
