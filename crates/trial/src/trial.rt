// The trial: one pass that tests each node and evaluates it at once, into a room of its own. The lent room is written only
// when every node has passed, so that a refusal leaves it as it was.
ghost use Rattle.std.specs.Prelude.{◌*◌, ◌<◌, ◌≤◌, ◌^◌, length};
ghost use Rattle.values.specs.Frame.{lent_in};
ghost use Rattle.trial_parts.specs.Trial.{Tryable, Trial};

use super::step::pass;
use ir::program::Counts;
use trial_parts::parts::copy_words;
use values::frame::{Inputs, Limits, Strides};

// In a room of N words, four for each node. It is cleared first, which takes time in proportion to N.
pub fn try_in<const N: usize>(
    c: Counts,
    m: Limits,
    s: Strides,
    inputs: &Inputs,
    nodes: &[u32],
    room: &mut [u64],
) -> bool
    requires { Tryable s m c (lent_in inputs.now) (length nodes.now) (length room.old) × (4 * c.nodes ≤ N) × (N < 2 ^ 60) }
    ensures { Trial s m c (lent_in inputs.now) nodes.now room.old room.new result }
{
    let mut own = [0u64; N];
    if !pass(c, m, s, inputs, nodes, &mut own[..]) {
        return false;
    }
    copy_words(&own[..], room, 4 * c.nodes);
    true
}
