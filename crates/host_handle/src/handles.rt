// The handle and the counts that a builder's call hands out, on 0 alone.
ghost use Rattle.std.specs.Prelude.{◌≡◌};
ghost use Rattle.builder.specs.Answers.{said_of_answer, builder_after};
ghost use Rattle.host_handle.specs.Handles.{handle, lent_counts, Handed};

use builder::ir_builder::{IrBuilder, Made};
use host_answer::answer::coded_refusal;
use ir::refusal::Refusal;

// Counts that a call is not lent are 0: it does not look at them.
pub fn builder_of(n: usize, b: usize, x: usize, r: usize) -> IrBuilder
    ensures { result ≡ lent_counts n b x r }
{
    IrBuilder {
        nodes: n,
        bases: b,
        exts: x,
        roots: r,
    }
}

// The counts after a call: as before where it refuses.
pub fn after(was: IrBuilder, made: Result<Made, Refusal>) -> IrBuilder
    ensures { result ≡ builder_after was made }
{
    match made {
        Ok(made) => made.builder,
        Err(_) => was,
    }
}

// The handle is written on 0 alone.
pub fn hand(made: Result<Made, Refusal>, id: &mut u32, dim: &mut u32) -> u64
    ensures { Handed (said_of_answer made) result id.old id.new dim.old dim.new }
{
    match made {
        Ok(Made { expr, .. }) => {
            *id = expr.id;
            *dim = expr.dim;
            0
        }
        Err(why) => coded_refusal(why),
    }
}
