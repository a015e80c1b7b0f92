// The Goldilocks field: every u64 word stands for its remainder by p.
// Callers see the sums, differences and products that the contracts state, and the laws in proofs/.
#![tactic(auto)]

pub mod goldilocks;
