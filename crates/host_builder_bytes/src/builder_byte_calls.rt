// The builder's calls on numbers and byte slices. As the calls on words, with tables as little-endian words and a room lent
// beside each: 1 where a room is too short for its bytes, before the call's own numbers. The bytes change on 0 alone.
ghost use Rattle.std.specs.Prelude.{[], ◌∷◌};
ghost use Rattle.builder.specs.declared.ir_builder.IrBuilder.{IrBuilder};
ghost use Rattle.node_table.specs.Hashing.{start_of};
ghost use Rattle.field.specs.Base.{signed};
ghost use Rattle.builder.specs.Calls.{challenge_of, alpha_power_of, table_offset_of, main_cell_of, aux_cell_of, add_of, sub_of, mul_of, neg_of, embed_of};
ghost use Rattle.builder_call.specs.CallData.{call_of};
ghost use Rattle.builder.specs.Consts.{const_of, const_ext_of, with_bases, with_exts, empty, new_of};
ghost use Rattle.builder.specs.Roots.{emit_of};
ghost use Rattle.byte_words.specs.Rooms.{lent, held};
ghost use Rattle.builder_bytes.specs.Promises.{held_table, GivesBytes, InternsBytes, EmitBytes, GapsBytes};
ghost use Rattle.host_handle.specs.Handles.{handle, lent_counts};
ghost use Rattle.host_builder_bytes.specs.BuilderByteCalls.{HandsNodeBytes, HandsConstBytes, HandsRootBytes, HandsGapsBytes};

use builder::ir_builder::Expr;
use builder_bytes::calls::call_bytes;
use builder_bytes::constants::{const_base_bytes, const_ext_bytes, new_bytes};
use builder_bytes::roots::{emit_bytes, gap_report_bytes};
use builder_call::call::Call;
use field::goldilocks::Fp;
use host_answer::answer::{coded_refusal, ext_of};
use host_handle::handles::{after, builder_of, hand};

// What C lends to a call that makes a node, in the order of the exported functions.
fn node_bytes(
    n: &mut usize,
    nodes: &mut [u8],
    places: &mut [u8],
    nw: &mut [u32],
    pw: &mut [u32],
    call: Call,
    id: &mut u32,
    dim: &mut u32,
) -> u64
    ensures { HandsNodeBytes (λ o. GivesBytes (call_of start_of call (held_table (lent nodes.old nw.old) (lent places.old pw.old) n.old)) (lent_counts n.old 0 0 0) (lent nodes.old nw.old) (lent places.old pw.old) o (lent nodes.new nw.new) (lent places.new pw.new)) (lent_counts n.old 0 0 0) result id.old id.new dim.old dim.new n.new }
{
    let was = builder_of(*n, 0, 0, 0);
    let made = call_bytes(was, call, nodes, places, nw, pw);
    *n = after(was, made).nodes;
    hand(made, id, dim)
}

// What C lends to a call that makes a constant, in the order of the exported functions.
fn const_bytes(
    n: &mut usize,
    b: &mut usize,
    nodes: &mut [u8],
    places: &mut [u8],
    bases: &mut [u8],
    nw: &mut [u32],
    pw: &mut [u32],
    cw: &mut [u64],
    v: u64,
    id: &mut u32,
    dim: &mut u32,
) -> u64
    ensures { HandsConstBytes (λ o. InternsBytes with_bases (const_of start_of (held_table (lent nodes.old nw.old) (lent places.old pw.old) n.old) (held 8 (lent bases.old cw.old)) b.old v) (lent_counts n.old b.old 0 0) (lent nodes.old nw.old) (lent places.old pw.old) (lent bases.old cw.old) o (lent nodes.new nw.new) (lent places.new pw.new) (lent bases.new cw.new)) (lent_counts n.old b.old 0 0) (λ (after : IrBuilder). after.bases) result id.old id.new dim.old dim.new n.new b.new }
{
    let was = builder_of(*n, *b, 0, 0);
    let made = const_base_bytes(was, nodes, places, bases, nw, pw, cw, v);
    let counts = after(was, made);
    *n = counts.nodes;
    *b = counts.bases;
    hand(made, id, dim)
}

// The counts at entry are not looked at.
#[unsafe(no_mangle)]
pub extern "C" fn cir_builder_new_bytes(
    n: &mut usize,
    b: &mut usize,
    nodes: &mut [u8],
    places: &mut [u8],
    bases: &mut [u8],
    nw: &mut [u32],
    pw: &mut [u32],
    cw: &mut [u64],
    id: &mut u32,
    dim: &mut u32,
) -> u64
    ensures { HandsConstBytes (λ o. InternsBytes with_bases (new_of start_of (held 4 (lent nodes.old nw.old)) (held 4 (lent places.old pw.old)) (held 8 (lent bases.old cw.old))) empty (lent nodes.old nw.old) (lent places.old pw.old) (lent bases.old cw.old) o (lent nodes.new nw.new) (lent places.new pw.new) (lent bases.new cw.new)) (lent_counts n.old b.old 0 0) (λ (after : IrBuilder). after.bases) result id.old id.new dim.old dim.new n.new b.new }
{
    let was = builder_of(*n, *b, 0, 0);
    let made = new_bytes(nodes, places, bases, nw, pw, cw);
    let counts = after(was, made);
    *n = counts.nodes;
    *b = counts.bases;
    hand(made, id, dim)
}

#[unsafe(no_mangle)]
pub extern "C" fn cir_builder_main_bytes(
    n: &mut usize,
    nodes: &mut [u8],
    places: &mut [u8],
    nw: &mut [u32],
    pw: &mut [u32],
    offset: u8,
    col: usize,
    id: &mut u32,
    dim: &mut u32,
) -> u64
    ensures { HandsNodeBytes (λ o. GivesBytes (main_cell_of start_of (held_table (lent nodes.old nw.old) (lent places.old pw.old) n.old) offset col) (lent_counts n.old 0 0 0) (lent nodes.old nw.old) (lent places.old pw.old) o (lent nodes.new nw.new) (lent places.new pw.new)) (lent_counts n.old 0 0 0) result id.old id.new dim.old dim.new n.new }
{
    node_bytes(
        n,
        nodes,
        places,
        nw,
        pw,
        Call::Main { offset, col },
        id,
        dim,
    )
}

#[unsafe(no_mangle)]
pub extern "C" fn cir_builder_aux_bytes(
    n: &mut usize,
    nodes: &mut [u8],
    places: &mut [u8],
    nw: &mut [u32],
    pw: &mut [u32],
    offset: u8,
    col: usize,
    id: &mut u32,
    dim: &mut u32,
) -> u64
    ensures { HandsNodeBytes (λ o. GivesBytes (aux_cell_of start_of (held_table (lent nodes.old nw.old) (lent places.old pw.old) n.old) offset col) (lent_counts n.old 0 0 0) (lent nodes.old nw.old) (lent places.old pw.old) o (lent nodes.new nw.new) (lent places.new pw.new)) (lent_counts n.old 0 0 0) result id.old id.new dim.old dim.new n.new }
{
    node_bytes(n, nodes, places, nw, pw, Call::Aux { offset, col }, id, dim)
}

#[unsafe(no_mangle)]
pub extern "C" fn cir_builder_challenge_bytes(
    n: &mut usize,
    nodes: &mut [u8],
    places: &mut [u8],
    nw: &mut [u32],
    pw: &mut [u32],
    idx: usize,
    id: &mut u32,
    dim: &mut u32,
) -> u64
    ensures { HandsNodeBytes (λ o. GivesBytes (challenge_of start_of (held_table (lent nodes.old nw.old) (lent places.old pw.old) n.old) idx) (lent_counts n.old 0 0 0) (lent nodes.old nw.old) (lent places.old pw.old) o (lent nodes.new nw.new) (lent places.new pw.new)) (lent_counts n.old 0 0 0) result id.old id.new dim.old dim.new n.new }
{
    node_bytes(n, nodes, places, nw, pw, Call::Challenge { idx }, id, dim)
}

#[unsafe(no_mangle)]
pub extern "C" fn cir_builder_alpha_power_bytes(
    n: &mut usize,
    nodes: &mut [u8],
    places: &mut [u8],
    nw: &mut [u32],
    pw: &mut [u32],
    idx: usize,
    id: &mut u32,
    dim: &mut u32,
) -> u64
    ensures { HandsNodeBytes (λ o. GivesBytes (alpha_power_of start_of (held_table (lent nodes.old nw.old) (lent places.old pw.old) n.old) idx) (lent_counts n.old 0 0 0) (lent nodes.old nw.old) (lent places.old pw.old) o (lent nodes.new nw.new) (lent places.new pw.new)) (lent_counts n.old 0 0 0) result id.old id.new dim.old dim.new n.new }
{
    node_bytes(n, nodes, places, nw, pw, Call::AlphaPower { idx }, id, dim)
}

#[unsafe(no_mangle)]
pub extern "C" fn cir_builder_table_offset_bytes(
    n: &mut usize,
    nodes: &mut [u8],
    places: &mut [u8],
    nw: &mut [u32],
    pw: &mut [u32],
    id: &mut u32,
    dim: &mut u32,
) -> u64
    ensures { HandsNodeBytes (λ o. GivesBytes (table_offset_of start_of (held_table (lent nodes.old nw.old) (lent places.old pw.old) n.old)) (lent_counts n.old 0 0 0) (lent nodes.old nw.old) (lent places.old pw.old) o (lent nodes.new nw.new) (lent places.new pw.new)) (lent_counts n.old 0 0 0) result id.old id.new dim.old dim.new n.new }
{
    node_bytes(n, nodes, places, nw, pw, Call::TableOffset, id, dim)
}

#[unsafe(no_mangle)]
pub extern "C" fn cir_builder_const_base_bytes(
    n: &mut usize,
    b: &mut usize,
    nodes: &mut [u8],
    places: &mut [u8],
    bases: &mut [u8],
    nw: &mut [u32],
    pw: &mut [u32],
    cw: &mut [u64],
    v: u64,
    id: &mut u32,
    dim: &mut u32,
) -> u64
    ensures { HandsConstBytes (λ o. InternsBytes with_bases (const_of start_of (held_table (lent nodes.old nw.old) (lent places.old pw.old) n.old) (held 8 (lent bases.old cw.old)) b.old v) (lent_counts n.old b.old 0 0) (lent nodes.old nw.old) (lent places.old pw.old) (lent bases.old cw.old) o (lent nodes.new nw.new) (lent places.new pw.new) (lent bases.new cw.new)) (lent_counts n.old b.old 0 0) (λ (after : IrBuilder). after.bases) result id.old id.new dim.old dim.new n.new b.new }
{
    const_bytes(n, b, nodes, places, bases, nw, pw, cw, v, id, dim)
}

#[unsafe(no_mangle)]
pub extern "C" fn cir_builder_const_signed_bytes(
    n: &mut usize,
    b: &mut usize,
    nodes: &mut [u8],
    places: &mut [u8],
    bases: &mut [u8],
    nw: &mut [u32],
    pw: &mut [u32],
    cw: &mut [u64],
    v: i64,
    id: &mut u32,
    dim: &mut u32,
) -> u64
    ensures { HandsConstBytes (λ o. InternsBytes with_bases (const_of start_of (held_table (lent nodes.old nw.old) (lent places.old pw.old) n.old) (held 8 (lent bases.old cw.old)) b.old (signed v)) (lent_counts n.old b.old 0 0) (lent nodes.old nw.old) (lent places.old pw.old) (lent bases.old cw.old) o (lent nodes.new nw.new) (lent places.new pw.new) (lent bases.new cw.new)) (lent_counts n.old b.old 0 0) (λ (after : IrBuilder). after.bases) result id.old id.new dim.old dim.new n.new b.new }
{
    let w = Fp::from_i64(v);
    const_bytes(n, b, nodes, places, bases, nw, pw, cw, w, id, dim)
}

#[unsafe(no_mangle)]
pub extern "C" fn cir_builder_one_bytes(
    n: &mut usize,
    b: &mut usize,
    nodes: &mut [u8],
    places: &mut [u8],
    bases: &mut [u8],
    nw: &mut [u32],
    pw: &mut [u32],
    cw: &mut [u64],
    id: &mut u32,
    dim: &mut u32,
) -> u64
    ensures { HandsConstBytes (λ o. InternsBytes with_bases (const_of start_of (held_table (lent nodes.old nw.old) (lent places.old pw.old) n.old) (held 8 (lent bases.old cw.old)) b.old 1) (lent_counts n.old b.old 0 0) (lent nodes.old nw.old) (lent places.old pw.old) (lent bases.old cw.old) o (lent nodes.new nw.new) (lent places.new pw.new) (lent bases.new cw.new)) (lent_counts n.old b.old 0 0) (λ (after : IrBuilder). after.bases) result id.old id.new dim.old dim.new n.new b.new }
{
    const_bytes(n, b, nodes, places, bases, nw, pw, cw, 1, id, dim)
}

#[unsafe(no_mangle)]
pub extern "C" fn cir_builder_const_ext_bytes(
    n: &mut usize,
    x: &mut usize,
    nodes: &mut [u8],
    places: &mut [u8],
    exts: &mut [u8],
    nw: &mut [u32],
    pw: &mut [u32],
    cw: &mut [u64],
    l0: u64,
    l1: u64,
    l2: u64,
    id: &mut u32,
    dim: &mut u32,
) -> u64
    ensures { HandsConstBytes (λ o. InternsBytes with_exts (const_ext_of start_of (held_table (lent nodes.old nw.old) (lent places.old pw.old) n.old) (held 8 (lent exts.old cw.old)) x.old (l0 ∷ l1 ∷ l2 ∷ [])) (lent_counts n.old 0 x.old 0) (lent nodes.old nw.old) (lent places.old pw.old) (lent exts.old cw.old) o (lent nodes.new nw.new) (lent places.new pw.new) (lent exts.new cw.new)) (lent_counts n.old 0 x.old 0) (λ (after : IrBuilder). after.exts) result id.old id.new dim.old dim.new n.new x.new }
{
    let was = builder_of(*n, 0, *x, 0);
    let v = ext_of(l0, l1, l2);
    let made = const_ext_bytes(was, nodes, places, exts, nw, pw, cw, v);
    let counts = after(was, made);
    *n = counts.nodes;
    *x = counts.exts;
    hand(made, id, dim)
}

#[unsafe(no_mangle)]
pub extern "C" fn cir_builder_add_bytes(
    n: &mut usize,
    nodes: &mut [u8],
    places: &mut [u8],
    nw: &mut [u32],
    pw: &mut [u32],
    ida: u32,
    dima: u32,
    idb: u32,
    dimb: u32,
    id: &mut u32,
    dim: &mut u32,
) -> u64
    ensures { HandsNodeBytes (λ o. GivesBytes (add_of start_of (held_table (lent nodes.old nw.old) (lent places.old pw.old) n.old) (handle ida dima) (handle idb dimb)) (lent_counts n.old 0 0 0) (lent nodes.old nw.old) (lent places.old pw.old) o (lent nodes.new nw.new) (lent places.new pw.new)) (lent_counts n.old 0 0 0) result id.old id.new dim.old dim.new n.new }
{
    let a = Expr { id: ida, dim: dima };
    let b = Expr { id: idb, dim: dimb };
    node_bytes(n, nodes, places, nw, pw, Call::Add { a, b }, id, dim)
}

#[unsafe(no_mangle)]
pub extern "C" fn cir_builder_sub_bytes(
    n: &mut usize,
    nodes: &mut [u8],
    places: &mut [u8],
    nw: &mut [u32],
    pw: &mut [u32],
    ida: u32,
    dima: u32,
    idb: u32,
    dimb: u32,
    id: &mut u32,
    dim: &mut u32,
) -> u64
    ensures { HandsNodeBytes (λ o. GivesBytes (sub_of start_of (held_table (lent nodes.old nw.old) (lent places.old pw.old) n.old) (handle ida dima) (handle idb dimb)) (lent_counts n.old 0 0 0) (lent nodes.old nw.old) (lent places.old pw.old) o (lent nodes.new nw.new) (lent places.new pw.new)) (lent_counts n.old 0 0 0) result id.old id.new dim.old dim.new n.new }
{
    let a = Expr { id: ida, dim: dima };
    let b = Expr { id: idb, dim: dimb };
    node_bytes(n, nodes, places, nw, pw, Call::Sub { a, b }, id, dim)
}

#[unsafe(no_mangle)]
pub extern "C" fn cir_builder_mul_bytes(
    n: &mut usize,
    nodes: &mut [u8],
    places: &mut [u8],
    nw: &mut [u32],
    pw: &mut [u32],
    ida: u32,
    dima: u32,
    idb: u32,
    dimb: u32,
    id: &mut u32,
    dim: &mut u32,
) -> u64
    ensures { HandsNodeBytes (λ o. GivesBytes (mul_of start_of (held_table (lent nodes.old nw.old) (lent places.old pw.old) n.old) (handle ida dima) (handle idb dimb)) (lent_counts n.old 0 0 0) (lent nodes.old nw.old) (lent places.old pw.old) o (lent nodes.new nw.new) (lent places.new pw.new)) (lent_counts n.old 0 0 0) result id.old id.new dim.old dim.new n.new }
{
    let a = Expr { id: ida, dim: dima };
    let b = Expr { id: idb, dim: dimb };
    node_bytes(n, nodes, places, nw, pw, Call::Mul { a, b }, id, dim)
}

#[unsafe(no_mangle)]
pub extern "C" fn cir_builder_neg_bytes(
    n: &mut usize,
    nodes: &mut [u8],
    places: &mut [u8],
    nw: &mut [u32],
    pw: &mut [u32],
    ida: u32,
    dima: u32,
    id: &mut u32,
    dim: &mut u32,
) -> u64
    ensures { HandsNodeBytes (λ o. GivesBytes (neg_of start_of (held_table (lent nodes.old nw.old) (lent places.old pw.old) n.old) (handle ida dima)) (lent_counts n.old 0 0 0) (lent nodes.old nw.old) (lent places.old pw.old) o (lent nodes.new nw.new) (lent places.new pw.new)) (lent_counts n.old 0 0 0) result id.old id.new dim.old dim.new n.new }
{
    let a = Expr { id: ida, dim: dima };
    node_bytes(n, nodes, places, nw, pw, Call::Neg { a }, id, dim)
}

#[unsafe(no_mangle)]
pub extern "C" fn cir_builder_embed_bytes(
    n: &mut usize,
    nodes: &mut [u8],
    places: &mut [u8],
    nw: &mut [u32],
    pw: &mut [u32],
    ida: u32,
    dima: u32,
    id: &mut u32,
    dim: &mut u32,
) -> u64
    ensures { HandsNodeBytes (λ o. GivesBytes (embed_of start_of (held_table (lent nodes.old nw.old) (lent places.old pw.old) n.old) (handle ida dima)) (lent_counts n.old 0 0 0) (lent nodes.old nw.old) (lent places.old pw.old) o (lent nodes.new nw.new) (lent places.new pw.new)) (lent_counts n.old 0 0 0) result id.old id.new dim.old dim.new n.new }
{
    let a = Expr { id: ida, dim: dima };
    node_bytes(n, nodes, places, nw, pw, Call::Embed { a }, id, dim)
}

#[unsafe(no_mangle)]
pub extern "C" fn cir_builder_emit_bytes(
    n: usize,
    k: &mut usize,
    nodes: &[u8],
    roots: &mut [u8],
    nw: &mut [u32],
    tw: &mut [u32],
    c: usize,
    id: u32,
    dim: u32,
) -> u64
    ensures { HandsRootBytes (λ o. EmitBytes (emit_of (held 4 (lent nodes.now nw.old)) n (held 4 (lent roots.old tw.old)) k.old c (handle id dim)) (lent_counts n 0 0 k.old) (lent nodes.now nw.old) (lent roots.old tw.old) o (lent nodes.now nw.new) (lent roots.new tw.new)) (lent_counts n 0 0 k.old) result k.new }
{
    let was = builder_of(n, 0, 0, *k);
    match emit_bytes(was, nodes, roots, nw, tw, c, Expr { id, dim }) {
        Ok(builder) => {
            *k = builder.roots;
            0
        }
        Err(why) => coded_refusal(why),
    }
}

#[unsafe(no_mangle)]
pub extern "C" fn cir_builder_gaps_bytes(
    k: usize,
    roots: &[u8],
    out: &mut [u8],
    tw: &mut [u32],
    ow: &mut [u64],
    count: &mut u64,
) -> u64
    ensures { HandsGapsBytes (λ o. GapsBytes k (lent roots.now tw.old) (lent out.old ow.old) o (lent roots.now tw.new) (lent out.new ow.new)) result count.old count.new }
{
    match gap_report_bytes(builder_of(0, 0, 0, k), roots, out, tw, ow) {
        Ok(listed) => {
            *count = listed as u64;
            0
        }
        Err(why) => coded_refusal(why),
    }
}
