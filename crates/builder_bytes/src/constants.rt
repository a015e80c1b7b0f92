// The calls that make a constant, the fresh builder among them: 1 where a room is too short for its bytes, then the call's own
// numbers. The rooms nw, pw and cw take the words of nodes, places and constants. The bytes change on 0 alone.
ghost use Rattle.node_table.specs.Hashing.{start_of};
ghost use Rattle.builder.specs.Consts.{const_of, const_ext_of, with_bases, with_exts, empty, new_of};
ghost use Rattle.byte_words.specs.Rooms.{lent, held};
ghost use Rattle.builder_bytes.specs.Promises.{held_table, InternsBytes, OnWords};

use builder::ir_builder::{IrBuilder, Made};
use builder_call::answers::is_made;
use byte_words::rooms::{is_tight, pack_front, short_rooms};
use byte_words::words::unpack;
use extension::extensions_goldilocks::Ext;
use ir::refusal::Refusal;

// A call on the words that three lent tables hold.
fn on_words<F: FnOnce(&mut [u32], &mut [u32], &mut [u64]) -> Result<Made, Refusal>>(
    nodes: &mut [u8],
    places: &mut [u8],
    consts: &mut [u8],
    nw: &mut [u32],
    pw: &mut [u32],
    cw: &mut [u64],
    call: F,
) -> Result<Made, Refusal>
    requires { F.IsAlwaysCallable call }
    ensures { OnWords (F.post call) (lent nodes.old nw.old) (lent places.old pw.old) (lent consts.old cw.old) result (lent nodes.new nw.new) (lent places.new pw.new) (lent consts.new cw.new) }
{
    if short_rooms(&nodes[..], &nw[..], &places[..], &pw[..]) || is_tight(&consts[..], &cw[..]) {
        return Err(Refusal::ShortMemory);
    }
    unpack(&nodes[..], &mut nw[..]);
    unpack(&places[..], &mut pw[..]);
    unpack(&consts[..], &mut cw[..]);
    let n = nodes.len() / 4;
    let p = places.len() / 4;
    let k = consts.len() / 8;
    let r = call(&mut nw[..n], &mut pw[..p], &mut cw[..k]);
    let done = is_made(r);
    pack_front(done, &nw[..], nodes);
    pack_front(done, &pw[..], places);
    pack_front(done, &cw[..], consts);
    r
}

// Tables and working rooms one by one, as C lends them and as a refusal leaves them.
pub fn const_base_bytes(
    builder: IrBuilder,
    nodes: &mut [u8],
    places: &mut [u8],
    bases: &mut [u8],
    nw: &mut [u32],
    pw: &mut [u32],
    cw: &mut [u64],
    v: u64,
) -> Result<Made, Refusal>
    ensures { InternsBytes with_bases (const_of start_of (held_table (lent nodes.old nw.old) (lent places.old pw.old) builder.nodes) (held 8 (lent bases.old cw.old)) builder.bases v) builder (lent nodes.old nw.old) (lent places.old pw.old) (lent bases.old cw.old) result (lent nodes.new nw.new) (lent places.new pw.new) (lent bases.new cw.new) }
{
    on_words(
        nodes,
        places,
        bases,
        nw,
        pw,
        cw,
        |n, p, b| builder.const_base(n, p, b, v),
    )
}

pub fn const_ext_bytes(
    builder: IrBuilder,
    nodes: &mut [u8],
    places: &mut [u8],
    exts: &mut [u8],
    nw: &mut [u32],
    pw: &mut [u32],
    cw: &mut [u64],
    v: Ext,
) -> Result<Made, Refusal>
    ensures { InternsBytes with_exts (const_ext_of start_of (held_table (lent nodes.old nw.old) (lent places.old pw.old) builder.nodes) (held 8 (lent exts.old cw.old)) builder.exts v.limbs) builder (lent nodes.old nw.old) (lent places.old pw.old) (lent exts.old cw.old) result (lent nodes.new nw.new) (lent places.new pw.new) (lent exts.new cw.new) }
{
    on_words(
        nodes,
        places,
        exts,
        nw,
        pw,
        cw,
        |n, p, x| builder.const_ext(n, p, x, v),
    )
}

pub fn new_bytes(
    nodes: &mut [u8],
    places: &mut [u8],
    bases: &mut [u8],
    nw: &mut [u32],
    pw: &mut [u32],
    cw: &mut [u64],
) -> Result<Made, Refusal>
    ensures { InternsBytes with_bases (new_of start_of (held 4 (lent nodes.old nw.old)) (held 4 (lent places.old pw.old)) (held 8 (lent bases.old cw.old))) empty (lent nodes.old nw.old) (lent places.old pw.old) (lent bases.old cw.old) result (lent nodes.new nw.new) (lent places.new pw.new) (lent bases.new cw.new) }
{
    on_words(
        nodes,
        places,
        bases,
        nw,
        pw,
        cw,
        |n, p, b| IrBuilder::new(n, p, b),
    )
}
