// Roots and the gap report: 1 where a room is too short for its bytes, then the call's own numbers. What is only read stays as
// bytes; what is written changes on 0 alone.
ghost use Rattle.builder.specs.Roots.{emit_of};
ghost use Rattle.byte_words.specs.Rooms.{lent, held};
ghost use Rattle.builder_bytes.specs.Promises.{EmitBytes, GapsBytes};

use builder::ir_builder::{Expr, IrBuilder};
use builder_call::answers::is_rooted;
use byte_words::rooms::{pack_front, short_rooms};
use byte_words::words::unpack;
use gaps::gaps::gap_report;
use ir::refusal::Refusal;

// The rooms nw and tw take the words of nodes and roots.
pub fn emit_bytes(
    builder: IrBuilder,
    nodes: &[u8],
    roots: &mut [u8],
    nw: &mut [u32],
    tw: &mut [u32],
    c: usize,
    e: Expr,
) -> Result<IrBuilder, Refusal>
    ensures { EmitBytes (emit_of (held 4 (lent nodes.now nw.old)) builder.nodes (held 4 (lent roots.old tw.old)) builder.roots c e) builder (lent nodes.now nw.old) (lent roots.old tw.old) result (lent nodes.now nw.new) (lent roots.new tw.new) }
{
    if short_rooms(nodes, &nw[..], &roots[..], &tw[..]) {
        return Err(Refusal::ShortMemory);
    }
    unpack(nodes, &mut nw[..]);
    unpack(&roots[..], &mut tw[..]);
    let n = nodes.len() / 4;
    let k = roots.len() / 4;
    let r = builder.emit(&nw[..n], &mut tw[..k], c, e);
    let done = is_rooted(r);
    pack_front(done, &tw[..], roots);
    r
}

// The rooms tw and ow take the words of roots and of the report, which is of eight bytes a number.
pub fn gap_report_bytes(
    builder: IrBuilder,
    roots: &[u8],
    out: &mut [u8],
    tw: &mut [u32],
    ow: &mut [u64],
) -> Result<usize, Refusal>
    ensures { GapsBytes builder.roots (lent roots.now tw.old) (lent out.old ow.old) result (lent roots.now tw.new) (lent out.new ow.new) }
{
    if short_rooms(roots, &tw[..], &out[..], &ow[..]) {
        return Err(Refusal::ShortMemory);
    }
    unpack(roots, &mut tw[..]);
    unpack(&out[..], &mut ow[..]);
    let k = roots.len() / 4;
    let m = out.len() / 8;
    let r = gap_report(builder, &tw[..k], &mut ow[..m]);
    pack_front(r.is_ok(), &ow[..], out);
    r
}
