// The forward pass over the nodes, which the three evaluators share.
ghost use Rattle.std.specs.Prelude.{◌∷◌, ◌≡◌, ◌+◌, ◌*◌, ◌≤◌, length};
ghost use Rattle.std.proofs.lemmas.List.Edits.{sets};
ghost use Rattle.laws.specs.Lists.{tabulate};
ghost use Rattle.extension.specs.Ext.{limb};
ghost use Rattle.extension.specs.Tower.{goldilocks};
ghost use Rattle.values.specs.Values.{values};
ghost use Rattle.values.specs.Frame.{lent_in, leaves};
ghost use Rattle.values.specs.Room.{RoomHolds};
ghost use Rattle.values.specs.Operations.{LowBefore, NodeReady, Computes, Ready};

use super::frame::{Inputs, Strides};
use super::value::{Value, leaf, operation};
use ir::node::OP_ADD;

fn node_value(
    i: usize,
    tag: u32,
    x: u32,
    y: u32,
    s: Strides,
    inputs: &Inputs,
    room: &[u64],
) -> Value
    requires { (4 * i ≤ length room.now) × NodeReady s (lent_in inputs.now) i tag x y × LowBefore room.now i }
    ensures { Computes s (lent_in inputs.now) room.now tag x y result.class result.limbs.limbs }
{
    if tag < OP_ADD {
        leaf(tag, x, y, s, inputs)
    } else {
        operation(tag, x as usize, y as usize, room)
    }
}

pub fn store_value(room: &mut [u64], i: usize, v: Value)
    requires { 4 * i + 4 ≤ length room.old }
    ensures { room.new ≡ sets room.old (4 * i) (v.class ∷ tabulate 3 (limb v.limbs.limbs)) }
{
    let at = 4 * i;
    let limbs = v.limbs;
    room[at] = v.class;
    limbs.store(room, at + 1);
}

// Every node's value into the room, in order: a node reads only nodes before it. Lent words may be more than n nodes, and the
// definitions speak of the first n.
pub fn run(n: usize, s: Strides, inputs: &Inputs, nodes: &[u32], room: &mut [u64])
    requires { Ready s nodes.now n (lent_in inputs.now) (length room.old) }
    ensures { RoomHolds (values goldilocks (leaves s (lent_in inputs.now)) nodes.now n) n room.old room.new }
{
    for i in 0..n {
        let at = 4 * i;
        let v = node_value(i, nodes[at], nodes[at + 1], nodes[at + 2], s, inputs, room);
        store_value(room, i, v);
    }
}
