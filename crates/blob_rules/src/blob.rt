// A blob's words: four u32 words a node, op, a, b and res; and its counts. The tags are those of a program's nodes.
ghost use Rattle.std.specs.Prelude.{◌≡◌, ◌+◌, ◌*◌, ◌≤◌, length};
ghost use Rattle.blob_rules.specs.Blob.{instr_at, instr_of, is_ext, slot_of, kind_of, payload_of};

// What a blob's tables hold, num_base as the caller has it, and how many slots of each class there are.
#[derive(Clone, Copy)]
pub struct BlobCounts {
    pub nodes: u32,
    pub bases: u32,
    pub exts: u32,
    pub roots: u32,
    pub num_base: u32,
    pub base_slots: u32,
    pub ext_slots: u32,
}

// A blob as it is lent: its counts, and the words of its nodes and of its roots.
#[derive(Clone, Copy)]
pub struct BlobRef<'a> {
    pub counts: BlobCounts,
    pub nodes: &'a [u32],
    pub roots: &'a [u32],
}

// The words of one node.
#[derive(Clone, Copy)]
pub struct NodeWords {
    pub op: u32,
    pub a: u32,
    pub b: u32,
    pub res: u32,
}

impl NodeWords {
    // Those of node i.
    pub fn at(nodes: &[u32], i: usize) -> NodeWords
        requires { 4 * i + 4 ≤ length nodes.now }
        ensures { instr_of result ≡ instr_at nodes.now i }
    {
        let first = 4 * i;
        NodeWords {
            op: nodes[first],
            a: nodes[first + 1],
            b: nodes[first + 2],
            res: nodes[first + 3],
        }
    }
}

// The rooms that are lent for a blob's tables.
#[derive(Drop)]
pub struct TableRooms<'a> {
    pub nodes: &'a mut [u32],
    pub bases: &'a mut [u64],
    pub exts: &'a mut [u64],
    pub roots: &'a mut [u32],
}

// An operand is its kind times 2^29 plus a payload. The kinds, numbers as the tags are, for an operand is a word of the blob:
// a base slot,
pub const OPK_BASE_SLOT: u32 = 0;

// an extension slot,
pub const OPK_EXT_SLOT: u32 = 1;

// an index into the base constants,
pub const OPK_BASE_CONST: u32 = 2;

// into the extension constants,
pub const OPK_EXT_CONST: u32 = 3;

// into the challenges,
pub const OPK_RAP: u32 = 4;

// into the alpha powers;
pub const OPK_ALPHA: u32 = 5;

// and the table offset, with payload 0.
pub const OPK_OFFSET: u32 = 6;

pub const OPK_STEP: u32 = 536870912;

// Bit 31 of a result word or a root word: set for an extension slot.
pub const RES_EXT_BIT: u32 = 2147483648;

pub fn is_ext(w: u32) -> bool
    ensures { result ≡ is_ext w }
{
    RES_EXT_BIT <= w
}

pub fn slot_of(w: u32) -> u32
    ensures { result ≡ slot_of w }
{
    w % RES_EXT_BIT
}

pub fn kind_of(w: u32) -> u32
    ensures { result ≡ kind_of w }
{
    w / OPK_STEP
}

pub fn payload_of(w: u32) -> u32
    ensures { result ≡ payload_of w }
{
    w % OPK_STEP
}
