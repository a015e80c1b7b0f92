// The calls that make a node: 1 where a room is too short for its bytes, then the call's own numbers. The bytes change on 0
// alone.
ghost use Rattle.node_table.specs.Hashing.{start_of};
ghost use Rattle.builder_call.specs.CallData.{call_of};
ghost use Rattle.byte_words.specs.Rooms.{lent};
ghost use Rattle.builder_bytes.specs.Promises.{held_table, GivesBytes};

use builder::ir_builder::{IrBuilder, Made};
use builder_call::answers::is_made;
use builder_call::call::{Call, perform};
use byte_words::rooms::{pack_front, short_rooms};
use byte_words::words::unpack;
use ir::refusal::Refusal;

// The rooms nw and pw take the words of nodes and places.
pub fn call_bytes(
    builder: IrBuilder,
    c: Call,
    nodes: &mut [u8],
    places: &mut [u8],
    nw: &mut [u32],
    pw: &mut [u32],
) -> Result<Made, Refusal>
    ensures { GivesBytes (call_of start_of c (held_table (lent nodes.old nw.old) (lent places.old pw.old) builder.nodes)) builder (lent nodes.old nw.old) (lent places.old pw.old) result (lent nodes.new nw.new) (lent places.new pw.new) }
{
    if short_rooms(&nodes[..], &nw[..], &places[..], &pw[..]) {
        return Err(Refusal::ShortMemory);
    }
    unpack(&nodes[..], &mut nw[..]);
    unpack(&places[..], &mut pw[..]);
    let n = nodes.len() / 4;
    let p = places.len() / 4;
    let r = perform(builder, c, &mut nw[..n], &mut pw[..p]);
    let done = is_made(r);
    pack_front(done, &nw[..], nodes);
    pack_front(done, &pw[..], places);
    r
}
