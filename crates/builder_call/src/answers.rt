// Whether a call was done, by its answer.
ghost use Rattle.std.specs.Prelude.{◌≡◌, eqb};
ghost use Rattle.builder.specs.Answers.{said_of_answer};
ghost use Rattle.builder.specs.Roots.{said_of_emitted};

use builder::ir_builder::{IrBuilder, Made};
use ir::refusal::Refusal;

#[tactic(auto, using(builder::proofs::AnswerLaws::made_said))]
pub fn is_made(made: Result<Made, Refusal>) -> bool
    ensures { result ≡ eqb (said_of_answer made).number 0 }
{
    made.is_ok()
}

#[tactic(auto, using(builder::proofs::AnswerLaws::rooted_said))]
pub fn is_rooted(rooted: Result<IrBuilder, Refusal>) -> bool
    ensures { result ≡ eqb (said_of_emitted rooted).number 0 }
{
    rooted.is_ok()
}
