// The builder's calls, on numbers and word slices. A call is lent the tables and counts that it touches and no others. An
// answer is one u64: the number of document 01's table; no call here names a place. The counts at the end and a handle's
// dim are the host's already, so that `finish`, `len` and `dim` have no call.
ghost use Rattle.std.specs.Prelude.{[], ◌∷◌};
ghost use Rattle.field.specs.Base.{signed};
ghost use Rattle.node_table.specs.Hashing.{start_of};
ghost use Rattle.node_table.specs.Table.{table};
ghost use Rattle.builder.specs.Calls.{challenge_of, alpha_power_of, table_offset_of, main_cell_of, aux_cell_of, add_of, sub_of, mul_of, neg_of, embed_of};
ghost use Rattle.builder_call.specs.CallData.{call_of};
ghost use Rattle.builder.specs.Consts.{const_of, const_ext_of, new_of};
ghost use Rattle.builder.specs.Roots.{emit_of};
ghost use Rattle.host_builder.specs.BuilderCalls.{started_of, HandsNode, HandsConst, HandsRoot, HandsGaps};
ghost use Rattle.host_handle.specs.Handles.{handle};

use builder::ir_builder::{Expr, IrBuilder};
use builder_call::call::{Call, perform};
use field::goldilocks::Fp;
use gaps::gaps::gap_report;
use host_answer::answer::{coded_refusal, ext_of};
use host_handle::handles::{after, builder_of, hand};

// Every caller names `call` outright, so that the compiler leaves no test of it.
fn node_call(
    n: &mut usize,
    nodes: &mut [u32],
    places: &mut [u32],
    call: Call,
    id: &mut u32,
    dim: &mut u32,
) -> u64
    ensures { HandsNode (call_of start_of call (table nodes.old places.old n.old)) (table nodes.new places.new n.new) result id.old id.new dim.old dim.new }
{
    let was = builder_of(*n, 0, 0, 0);
    let made = perform(was, call, nodes, places);
    *n = after(was, made).nodes;
    hand(made, id, dim)
}

// What C lends to a call that makes a constant, in the order of the exported functions.
fn const_call(
    n: &mut usize,
    b: &mut usize,
    nodes: &mut [u32],
    places: &mut [u32],
    bases: &mut [u64],
    v: u64,
    id: &mut u32,
    dim: &mut u32,
) -> u64
    ensures { HandsConst (const_of start_of (table nodes.old places.old n.old) bases.old b.old v) (table nodes.new places.new n.new) bases.new b.new result id.old id.new dim.old dim.new }
{
    let was = builder_of(*n, *b, 0, 0);
    let made = was.const_base(nodes, places, bases, v);
    let counts = after(was, made);
    *n = counts.nodes;
    *b = counts.bases;
    hand(made, id, dim)
}

// The counts at entry are not looked at.
#[unsafe(no_mangle)]
pub extern "C" fn cir_builder_new(
    n: &mut usize,
    b: &mut usize,
    nodes: &mut [u32],
    places: &mut [u32],
    bases: &mut [u64],
    id: &mut u32,
    dim: &mut u32,
) -> u64
    ensures { HandsConst (started_of (new_of start_of nodes.old places.old bases.old) n.old b.old) (table nodes.new places.new n.new) bases.new b.new result id.old id.new dim.old dim.new }
{
    let was = builder_of(*n, *b, 0, 0);
    let made = IrBuilder::new(nodes, places, bases);
    let counts = after(was, made);
    *n = counts.nodes;
    *b = counts.bases;
    hand(made, id, dim)
}

#[unsafe(no_mangle)]
pub extern "C" fn cir_builder_main(
    n: &mut usize,
    nodes: &mut [u32],
    places: &mut [u32],
    offset: u8,
    col: usize,
    id: &mut u32,
    dim: &mut u32,
) -> u64
    ensures { HandsNode (main_cell_of start_of (table nodes.old places.old n.old) offset col) (table nodes.new places.new n.new) result id.old id.new dim.old dim.new }
{
    node_call(n, nodes, places, Call::Main { offset, col }, id, dim)
}

#[unsafe(no_mangle)]
pub extern "C" fn cir_builder_aux(
    n: &mut usize,
    nodes: &mut [u32],
    places: &mut [u32],
    offset: u8,
    col: usize,
    id: &mut u32,
    dim: &mut u32,
) -> u64
    ensures { HandsNode (aux_cell_of start_of (table nodes.old places.old n.old) offset col) (table nodes.new places.new n.new) result id.old id.new dim.old dim.new }
{
    node_call(n, nodes, places, Call::Aux { offset, col }, id, dim)
}

#[unsafe(no_mangle)]
pub extern "C" fn cir_builder_challenge(
    n: &mut usize,
    nodes: &mut [u32],
    places: &mut [u32],
    idx: usize,
    id: &mut u32,
    dim: &mut u32,
) -> u64
    ensures { HandsNode (challenge_of start_of (table nodes.old places.old n.old) idx) (table nodes.new places.new n.new) result id.old id.new dim.old dim.new }
{
    node_call(n, nodes, places, Call::Challenge { idx }, id, dim)
}

#[unsafe(no_mangle)]
pub extern "C" fn cir_builder_alpha_power(
    n: &mut usize,
    nodes: &mut [u32],
    places: &mut [u32],
    idx: usize,
    id: &mut u32,
    dim: &mut u32,
) -> u64
    ensures { HandsNode (alpha_power_of start_of (table nodes.old places.old n.old) idx) (table nodes.new places.new n.new) result id.old id.new dim.old dim.new }
{
    node_call(n, nodes, places, Call::AlphaPower { idx }, id, dim)
}

#[unsafe(no_mangle)]
pub extern "C" fn cir_builder_table_offset(
    n: &mut usize,
    nodes: &mut [u32],
    places: &mut [u32],
    id: &mut u32,
    dim: &mut u32,
) -> u64
    ensures { HandsNode (table_offset_of start_of (table nodes.old places.old n.old)) (table nodes.new places.new n.new) result id.old id.new dim.old dim.new }
{
    node_call(n, nodes, places, Call::TableOffset, id, dim)
}

#[unsafe(no_mangle)]
pub extern "C" fn cir_builder_const_base(
    n: &mut usize,
    b: &mut usize,
    nodes: &mut [u32],
    places: &mut [u32],
    bases: &mut [u64],
    v: u64,
    id: &mut u32,
    dim: &mut u32,
) -> u64
    ensures { HandsConst (const_of start_of (table nodes.old places.old n.old) bases.old b.old v) (table nodes.new places.new n.new) bases.new b.new result id.old id.new dim.old dim.new }
{
    const_call(n, b, nodes, places, bases, v, id, dim)
}

#[unsafe(no_mangle)]
pub extern "C" fn cir_builder_const_signed(
    n: &mut usize,
    b: &mut usize,
    nodes: &mut [u32],
    places: &mut [u32],
    bases: &mut [u64],
    v: i64,
    id: &mut u32,
    dim: &mut u32,
) -> u64
    ensures { HandsConst (const_of start_of (table nodes.old places.old n.old) bases.old b.old (signed v)) (table nodes.new places.new n.new) bases.new b.new result id.old id.new dim.old dim.new }
{
    const_call(n, b, nodes, places, bases, Fp::from_i64(v), id, dim)
}

#[unsafe(no_mangle)]
pub extern "C" fn cir_builder_const_ext(
    n: &mut usize,
    x: &mut usize,
    nodes: &mut [u32],
    places: &mut [u32],
    exts: &mut [u64],
    l0: u64,
    l1: u64,
    l2: u64,
    id: &mut u32,
    dim: &mut u32,
) -> u64
    ensures { HandsConst (const_ext_of start_of (table nodes.old places.old n.old) exts.old x.old (l0 ∷ l1 ∷ l2 ∷ [])) (table nodes.new places.new n.new) exts.new x.new result id.old id.new dim.old dim.new }
{
    let was = builder_of(*n, 0, *x, 0);
    let made = was.const_ext(nodes, places, exts, ext_of(l0, l1, l2));
    let counts = after(was, made);
    *n = counts.nodes;
    *x = counts.exts;
    hand(made, id, dim)
}

#[unsafe(no_mangle)]
pub extern "C" fn cir_builder_one(
    n: &mut usize,
    b: &mut usize,
    nodes: &mut [u32],
    places: &mut [u32],
    bases: &mut [u64],
    id: &mut u32,
    dim: &mut u32,
) -> u64
    ensures { HandsConst (const_of start_of (table nodes.old places.old n.old) bases.old b.old 1) (table nodes.new places.new n.new) bases.new b.new result id.old id.new dim.old dim.new }
{
    const_call(n, b, nodes, places, bases, 1, id, dim)
}

#[unsafe(no_mangle)]
pub extern "C" fn cir_builder_add(
    n: &mut usize,
    nodes: &mut [u32],
    places: &mut [u32],
    ida: u32,
    dima: u32,
    idb: u32,
    dimb: u32,
    id: &mut u32,
    dim: &mut u32,
) -> u64
    ensures { HandsNode (add_of start_of (table nodes.old places.old n.old) (handle ida dima) (handle idb dimb)) (table nodes.new places.new n.new) result id.old id.new dim.old dim.new }
{
    let a = Expr { id: ida, dim: dima };
    let b = Expr { id: idb, dim: dimb };
    node_call(n, nodes, places, Call::Add { a, b }, id, dim)
}

#[unsafe(no_mangle)]
pub extern "C" fn cir_builder_sub(
    n: &mut usize,
    nodes: &mut [u32],
    places: &mut [u32],
    ida: u32,
    dima: u32,
    idb: u32,
    dimb: u32,
    id: &mut u32,
    dim: &mut u32,
) -> u64
    ensures { HandsNode (sub_of start_of (table nodes.old places.old n.old) (handle ida dima) (handle idb dimb)) (table nodes.new places.new n.new) result id.old id.new dim.old dim.new }
{
    let a = Expr { id: ida, dim: dima };
    let b = Expr { id: idb, dim: dimb };
    node_call(n, nodes, places, Call::Sub { a, b }, id, dim)
}

#[unsafe(no_mangle)]
pub extern "C" fn cir_builder_mul(
    n: &mut usize,
    nodes: &mut [u32],
    places: &mut [u32],
    ida: u32,
    dima: u32,
    idb: u32,
    dimb: u32,
    id: &mut u32,
    dim: &mut u32,
) -> u64
    ensures { HandsNode (mul_of start_of (table nodes.old places.old n.old) (handle ida dima) (handle idb dimb)) (table nodes.new places.new n.new) result id.old id.new dim.old dim.new }
{
    let a = Expr { id: ida, dim: dima };
    let b = Expr { id: idb, dim: dimb };
    node_call(n, nodes, places, Call::Mul { a, b }, id, dim)
}

#[unsafe(no_mangle)]
pub extern "C" fn cir_builder_neg(
    n: &mut usize,
    nodes: &mut [u32],
    places: &mut [u32],
    ida: u32,
    dima: u32,
    id: &mut u32,
    dim: &mut u32,
) -> u64
    ensures { HandsNode (neg_of start_of (table nodes.old places.old n.old) (handle ida dima)) (table nodes.new places.new n.new) result id.old id.new dim.old dim.new }
{
    let a = Expr { id: ida, dim: dima };
    node_call(n, nodes, places, Call::Neg { a }, id, dim)
}

#[unsafe(no_mangle)]
pub extern "C" fn cir_builder_embed(
    n: &mut usize,
    nodes: &mut [u32],
    places: &mut [u32],
    ida: u32,
    dima: u32,
    id: &mut u32,
    dim: &mut u32,
) -> u64
    ensures { HandsNode (embed_of start_of (table nodes.old places.old n.old) (handle ida dima)) (table nodes.new places.new n.new) result id.old id.new dim.old dim.new }
{
    let a = Expr { id: ida, dim: dima };
    node_call(n, nodes, places, Call::Embed { a }, id, dim)
}

#[unsafe(no_mangle)]
pub extern "C" fn cir_builder_emit(
    n: usize,
    k: &mut usize,
    nodes: &[u32],
    roots: &mut [u32],
    c: usize,
    id: u32,
    dim: u32,
) -> u64
    ensures { HandsRoot (emit_of nodes.now n roots.old k.old c (handle id dim)) roots.new k.new result }
{
    let was = builder_of(n, 0, 0, *k);
    match was.emit(nodes, roots, c, Expr { id, dim }) {
        Ok(builder) => {
            *k = builder.roots;
            0
        }
        Err(why) => coded_refusal(why),
    }
}

#[unsafe(no_mangle)]
pub extern "C" fn cir_builder_gaps(k: usize, roots: &[u32], out: &mut [u64], count: &mut u64) -> u64
    ensures { HandsGaps roots.now k out.old out.new result count.old count.new }
{
    match gap_report(builder_of(0, 0, 0, k), roots, out) {
        Ok(listed) => {
            *count = listed as u64;
            0
        }
        Err(why) => coded_refusal(why),
    }
}
