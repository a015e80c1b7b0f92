// The builder's calls: leaves, arithmetic and roots. A builder is its counts; its tables are lent to each call, and
// hold any words.
ghost use Rattle.std.specs.Prelude.{cond, [], ◌≡◌, ◌*◌, ◌≤◌, min, length};
ghost use Rattle.field.specs.Base.{signed};
ghost use Rattle.ir.specs.Program.{most};
ghost use Rattle.node_table.specs.Words.{words_of, node};
ghost use Rattle.node_table.specs.Hashing.{start_of};
ghost use Rattle.node_table.specs.Table.{table};
ghost use Rattle.const_table.specs.Positions.{scan};
ghost use Rattle.builder.specs.Answers.{short_b, stranger_b, made, Gives};
ghost use Rattle.builder.specs.Calls.{uniform_of, cell_of, binary_of, unary_of, challenge_of, alpha_power_of, table_offset_of, main_cell_of, aux_cell_of, add_of, sub_of, mul_of, neg_of, embed_of};
ghost use Rattle.builder.specs.Consts.{intern_of, Keeps, const_of, const_ext_of, with_bases, with_exts, Interns, empty, new_of};
ghost use Rattle.builder.specs.Roots.{emit_of, EmitGives, finished};

use const_table::constants::{Constant, crowded, position};
use extension::extensions_goldilocks::Ext;
use field::goldilocks::Fp;
use ir::node::{
    DIM_BASE, DIM_EXT, OP_ADD, OP_ALPHA_POW, OP_EMBED, OP_MUL, OP_NEG, OP_RAP_CHALLENGE, OP_SUB,
    OP_TABLE_OFFSET, OP_VAR, Var, pack_var,
};
use ir::program::{Counts, MOST, joined_dim};
use ir::refusal::Refusal;
use node_table::table::{Node, Placed, push, room};
use node_table::tests::{is_no_node, past_index};

// How many of each the lent tables hold.
#[derive(Clone, Copy)]
pub struct IrBuilder {
    pub nodes: usize,
    pub bases: usize,
    pub exts: usize,
    pub roots: usize,
}

// A handle to a node: its id and its dim.
#[derive(Clone, Copy)]
pub struct Expr {
    pub id: u32,
    pub dim: u32,
}

// What a call made: the node's handle, and the builder after it.
#[derive(Clone, Copy)]
pub struct Made {
    pub expr: Expr,
    pub builder: IrBuilder,
}

// What `intern` made: where the node of a constant stands, and how many constants its table has now.
#[derive(Clone, Copy)]
struct Kept {
    placed: Placed,
    constants: usize,
}

// By division: the count is any number.
#[tactic(auto, unfolding(crate::specs::Answers::short_b))]
pub fn short_nodes(nodes: usize, places: usize, n: usize) -> bool
    ensures { result ≡ short_b nodes places n }
{
    nodes / 4 < n || places < n
}

// Whether a handle is no node's of this builder, which has n and room for more.
#[tactic(auto, unfolding(crate::specs::Answers::stranger_b))]
pub fn is_foreign(nodes: &[u32], n: usize, e: Expr) -> bool
    requires { 4 * n ≤ length nodes.now }
    ensures { result ≡ stranger_b nodes.now n e }
{
    is_no_node(nodes, n, e.id, e.dim)
}

fn cell_dim(main: bool) -> u32
    ensures { result ≡ cond main 0 1 }
{
    if main { DIM_BASE } else { DIM_EXT }
}

// The node of a constant, shared by value, where there are n nodes and m constants. A new constant is written once its
// node has a place, so that a refusal leaves none behind.
#[tactic(auto, using(const_table::proofs::PositionLaws::place_of, const_table::proofs::PositionLaws::place_low, const_table::proofs::PositionLaws::is_new, const_table::proofs::PositionLaws::new_space, crate::proofs::AnswerLaws::long_nodes), unfolding(crate::specs::Consts::intern_of))]
fn intern<C: Constant>(
    n: usize,
    nodes: &mut [u32],
    places: &mut [u32],
    m: usize,
    words: &mut [u64],
    v: C,
) -> Result<Kept, Refusal>
    ensures { Keeps (intern_of start_of (table nodes.old places.old n) C.TAG C.DIM (C.fits words.old) m (scan (C.same v words.old) (min m most) 0) words.old (C.written v words.old m)) C.DIM n m result nodes.new places.new words.new }
{
    let fits = C::fits(words);
    if short_nodes(nodes.len(), places.len(), n) || fits < m {
        return Err(Refusal::ShortMemory);
    }
    let known = m.min(MOST);
    let at = position(words, known, v);
    let new = at.is_none();
    if crowded(new, fits, m) {
        return Err(Refusal::ConstantsFull);
    }
    let leaf = Node {
        tag: C::TAG,
        x: at.unwrap_or(known) as u32,
        y: 0,
        dim: C::DIM,
    };
    let placed = push(nodes, n, places, leaf).ok_or(Refusal::NodesFull)?;
    if new {
        v.write(words, m);
    }
    Ok(Kept {
        placed,
        constants: m + usize::from(new),
    })
}

impl Expr {
    pub fn dim(self) -> u32
        ensures { result ≡ self.dim }
    {
        self.dim
    }
}

impl IrBuilder {
    // A fresh builder: every lent place is free, and node 0 is the base constant 0.
    #[tactic(auto, using(crate::proofs::RootLaws::all_cleared), unfolding(crate::specs::Consts::new_of))]
    pub fn new(nodes: &mut [u32], places: &mut [u32], bases: &mut [u64]) -> Result<Made, Refusal>
        ensures { Interns with_bases (new_of start_of nodes.old places.old bases.old) empty result nodes.new places.new bases.new }
    {
        if bases.is_empty() {
            return Err(Refusal::ConstantsFull);
        }
        if room(nodes.len(), places.len()) == 0 {
            return Err(Refusal::NodesFull);
        }
        places.fill(0);
        let none = IrBuilder {
            nodes: 0,
            bases: 0,
            exts: 0,
            roots: 0,
        };
        none.const_base(nodes, places, bases, 0)
    }

    // How every call that makes a node ends.
    fn place(self, nodes: &mut [u32], places: &mut [u32], w: Node) -> Result<Made, Refusal>
        requires { 4 * self.nodes ≤ length nodes.old }
        ensures { Gives (made start_of [] (table nodes.old places.old self.nodes) (words_of w)) self result nodes.new places.new }
    {
        let placed = push(nodes, self.nodes, places, w).ok_or(Refusal::NodesFull)?;
        Ok(Made {
            expr: Expr {
                id: placed.id,
                dim: w.dim,
            },
            builder: IrBuilder {
                nodes: placed.count,
                ..self
            },
        })
    }

    // A challenge or an alpha power.
    #[tactic(auto, using(crate::proofs::AnswerLaws::long_nodes), unfolding(crate::specs::Calls::uniform_of))]
    fn uniform(
        self,
        tag: u32,
        nodes: &mut [u32],
        places: &mut [u32],
        index: usize,
    ) -> Result<Made, Refusal>
        ensures { Gives (uniform_of start_of tag (table nodes.old places.old self.nodes) index) self result nodes.new places.new }
    {
        if short_nodes(nodes.len(), places.len(), self.nodes) {
            return Err(Refusal::ShortMemory);
        }
        if past_index(index) {
            return Err(Refusal::OverLimit);
        }
        let w = Node {
            tag,
            x: index as u32,
            y: 0,
            dim: DIM_EXT,
        };
        self.place(nodes, places, w)
    }

    pub fn challenge(
        self,
        nodes: &mut [u32],
        places: &mut [u32],
        idx: usize,
    ) -> Result<Made, Refusal>
        ensures { Gives (challenge_of start_of (table nodes.old places.old self.nodes) idx) self result nodes.new places.new }
    {
        self.uniform(OP_RAP_CHALLENGE, nodes, places, idx)
    }

    pub fn alpha_power(
        self,
        nodes: &mut [u32],
        places: &mut [u32],
        idx: usize,
    ) -> Result<Made, Refusal>
        ensures { Gives (alpha_power_of start_of (table nodes.old places.old self.nodes) idx) self result nodes.new places.new }
    {
        self.uniform(OP_ALPHA_POW, nodes, places, idx)
    }

    // The table offset L/N.
    #[tactic(auto, using(crate::proofs::AnswerLaws::long_nodes), unfolding(crate::specs::Calls::table_offset_of))]
    pub fn table_offset(self, nodes: &mut [u32], places: &mut [u32]) -> Result<Made, Refusal>
        ensures { Gives (table_offset_of start_of (table nodes.old places.old self.nodes)) self result nodes.new places.new }
    {
        if short_nodes(nodes.len(), places.len(), self.nodes) {
            return Err(Refusal::ShortMemory);
        }
        let w = Node {
            tag: OP_TABLE_OFFSET,
            x: 0,
            y: 0,
            dim: DIM_EXT,
        };
        self.place(nodes, places, w)
    }

    // A read of a trace cell at row 0.
    #[tactic(auto, using(crate::proofs::AnswerLaws::long_nodes), unfolding(crate::specs::Calls::cell_of))]
    fn cell(
        self,
        main: bool,
        nodes: &mut [u32],
        places: &mut [u32],
        offset: u8,
        col: usize,
    ) -> Result<Made, Refusal>
        ensures { Gives (cell_of start_of main (table nodes.old places.old self.nodes) offset col) self result nodes.new places.new }
    {
        if short_nodes(nodes.len(), places.len(), self.nodes) {
            return Err(Refusal::ShortMemory);
        }
        if past_index(col) {
            return Err(Refusal::OverLimit);
        }
        let packed = pack_var(Var {
            main,
            offset,
            row: 0,
            col: col as u16,
        });
        let w = Node {
            tag: OP_VAR,
            x: packed.a,
            y: packed.b,
            dim: cell_dim(main),
        };
        self.place(nodes, places, w)
    }

    pub fn main(
        self,
        nodes: &mut [u32],
        places: &mut [u32],
        offset: u8,
        col: usize,
    ) -> Result<Made, Refusal>
        ensures { Gives (main_cell_of start_of (table nodes.old places.old self.nodes) offset col) self result nodes.new places.new }
    {
        self.cell(true, nodes, places, offset, col)
    }

    pub fn aux(
        self,
        nodes: &mut [u32],
        places: &mut [u32],
        offset: u8,
        col: usize,
    ) -> Result<Made, Refusal>
        ensures { Gives (aux_cell_of start_of (table nodes.old places.old self.nodes) offset col) self result nodes.new places.new }
    {
        self.cell(false, nodes, places, offset, col)
    }

    #[tactic(auto, using(crate::proofs::AnswerLaws::long_nodes), unfolding(crate::specs::Calls::binary_of))]
    fn binary(
        self,
        tag: u32,
        nodes: &mut [u32],
        places: &mut [u32],
        a: Expr,
        b: Expr,
    ) -> Result<Made, Refusal>
        ensures { Gives (binary_of start_of tag (table nodes.old places.old self.nodes) a b) self result nodes.new places.new }
    {
        let n = self.nodes;
        if short_nodes(nodes.len(), places.len(), n) {
            return Err(Refusal::ShortMemory);
        }
        if is_foreign(nodes, n, a) || is_foreign(nodes, n, b) {
            return Err(Refusal::ForeignHandle);
        }
        let w = Node {
            tag,
            x: a.id,
            y: b.id,
            dim: joined_dim(a.dim, b.dim),
        };
        self.place(nodes, places, w)
    }

    pub fn add(
        self,
        nodes: &mut [u32],
        places: &mut [u32],
        a: Expr,
        b: Expr,
    ) -> Result<Made, Refusal>
        ensures { Gives (add_of start_of (table nodes.old places.old self.nodes) a b) self result nodes.new places.new }
    {
        self.binary(OP_ADD, nodes, places, a, b)
    }

    pub fn sub(
        self,
        nodes: &mut [u32],
        places: &mut [u32],
        a: Expr,
        b: Expr,
    ) -> Result<Made, Refusal>
        ensures { Gives (sub_of start_of (table nodes.old places.old self.nodes) a b) self result nodes.new places.new }
    {
        self.binary(OP_SUB, nodes, places, a, b)
    }

    pub fn mul(
        self,
        nodes: &mut [u32],
        places: &mut [u32],
        a: Expr,
        b: Expr,
    ) -> Result<Made, Refusal>
        ensures { Gives (mul_of start_of (table nodes.old places.old self.nodes) a b) self result nodes.new places.new }
    {
        self.binary(OP_MUL, nodes, places, a, b)
    }

    #[tactic(auto, using(crate::proofs::AnswerLaws::long_nodes), unfolding(crate::specs::Calls::unary_of))]
    fn unary(
        self,
        tag: u32,
        dim: u32,
        nodes: &mut [u32],
        places: &mut [u32],
        a: Expr,
    ) -> Result<Made, Refusal>
        ensures { Gives (unary_of start_of tag dim (table nodes.old places.old self.nodes) a) self result nodes.new places.new }
    {
        let n = self.nodes;
        if short_nodes(nodes.len(), places.len(), n) {
            return Err(Refusal::ShortMemory);
        }
        if is_foreign(nodes, n, a) {
            return Err(Refusal::ForeignHandle);
        }
        let w = Node {
            tag,
            x: a.id,
            y: 0,
            dim,
        };
        self.place(nodes, places, w)
    }

    // Keeps its operand's dim.
    pub fn neg(self, nodes: &mut [u32], places: &mut [u32], a: Expr) -> Result<Made, Refusal>
        ensures { Gives (neg_of start_of (table nodes.old places.old self.nodes) a) self result nodes.new places.new }
    {
        self.unary(OP_NEG, a.dim, nodes, places, a)
    }

    // Extension, also of an extension value.
    pub fn embed(self, nodes: &mut [u32], places: &mut [u32], a: Expr) -> Result<Made, Refusal>
        ensures { Gives (embed_of start_of (table nodes.old places.old self.nodes) a) self result nodes.new places.new }
    {
        self.unary(OP_EMBED, DIM_EXT, nodes, places, a)
    }

    // The root of constraint c; constraints before it that have none get node 0. A second root replaces the first.
    #[tactic(auto, using(crate::proofs::RootLaws::range_cleared), unfolding(crate::specs::Roots::emit_of, crate::specs::Roots::cleared_from))]
    pub fn emit(
        self,
        nodes: &[u32],
        roots: &mut [u32],
        c: usize,
        e: Expr,
    ) -> Result<IrBuilder, Refusal>
        ensures { EmitGives (emit_of nodes.now self.nodes roots.old self.roots c e) self result roots.new }
    {
        let n = self.nodes;
        let k = self.roots;
        if nodes.len() / 4 < n || roots.len() < k {
            return Err(Refusal::ShortMemory);
        }
        if is_foreign(nodes, n, e) {
            return Err(Refusal::ForeignHandle);
        }
        if roots.len() <= c {
            return Err(Refusal::NoConstraint);
        }
        if k < c {
            roots[k..c].fill(0);
        }
        roots[c] = e.id;
        Ok(IrBuilder {
            roots: k.max(c + 1),
            ..self
        })
    }

    // The program's counts, over the tables as they stand.
    pub fn finish(self, num_base: usize) -> Counts
        ensures { result ≡ finished self num_base }
    {
        Counts {
            nodes: self.nodes,
            bases: self.bases,
            exts: self.exts,
            roots: self.roots,
            num_base,
        }
    }

    // How many nodes there are.
    pub fn len(self) -> usize
        ensures { result ≡ self.nodes }
    {
        self.nodes
    }

    // A base constant, reduced and shared by value.
    #[tactic(auto, unfolding(const_table::specs::Positions::position_of))]
    pub fn const_base(
        self,
        nodes: &mut [u32],
        places: &mut [u32],
        bases: &mut [u64],
        v: u64,
    ) -> Result<Made, Refusal>
        ensures { Interns with_bases (const_of start_of (table nodes.old places.old self.nodes) bases.old self.bases v) self result nodes.new places.new bases.new }
    {
        let kept = intern(self.nodes, nodes, places, self.bases, bases, v)?;
        Ok(Made {
            expr: Expr {
                id: kept.placed.id,
                dim: DIM_BASE,
            },
            builder: IrBuilder {
                nodes: kept.placed.count,
                bases: kept.constants,
                ..self
            },
        })
    }

    // An extension constant, likewise. What the two share is intern; each has its own table and count.
    #[tactic(auto, unfolding(const_table::specs::Positions::ext_position_of))]
    pub fn const_ext(
        self,
        nodes: &mut [u32],
        places: &mut [u32],
        exts: &mut [u64],
        v: Ext,
    ) -> Result<Made, Refusal>
        ensures { Interns with_exts (const_ext_of start_of (table nodes.old places.old self.nodes) exts.old self.exts v.limbs) self result nodes.new places.new exts.new }
    {
        let kept = intern(self.nodes, nodes, places, self.exts, exts, v)?;
        Ok(Made {
            expr: Expr {
                id: kept.placed.id,
                dim: DIM_EXT,
            },
            builder: IrBuilder {
                nodes: kept.placed.count,
                exts: kept.constants,
                ..self
            },
        })
    }

    // A negative constant is p - |v|.
    pub fn const_signed(
        self,
        nodes: &mut [u32],
        places: &mut [u32],
        bases: &mut [u64],
        v: i64,
    ) -> Result<Made, Refusal>
        ensures { Interns with_bases (const_of start_of (table nodes.old places.old self.nodes) bases.old self.bases (signed v)) self result nodes.new places.new bases.new }
    {
        self.const_base(nodes, places, bases, Fp::from_i64(v))
    }

    pub fn one(
        self,
        nodes: &mut [u32],
        places: &mut [u32],
        bases: &mut [u64],
    ) -> Result<Made, Refusal>
        ensures { Interns with_bases (const_of start_of (table nodes.old places.old self.nodes) bases.old self.bases 1) self result nodes.new places.new bases.new }
    {
        self.const_base(nodes, places, bases, 1)
    }
}
