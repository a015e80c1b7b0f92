// Form A as calls: a blob written, a file read, and its listing. An answer is one u64: the number of document 01's table.
ghost use Rattle.host_answer.specs.Numbers.{blob_counts};
ghost use Rattle.host_stored.specs.StoredCalls.{tables, WritesFile, ReadsFile, ListsFile};

use blob_rules::blob::{BlobCounts, TableRooms};
use host_answer::answer::coded_refusal;
use ir::refusal::Refusal;
use listing::listing::list_stored;
use stored::read::read_stored;
use stored::write::{TablesRef, write_stored};

// The listing of the longest file fits.
const LISTING_ROOM: usize = 524288;

// The file's length is written on 0 alone.
#[unsafe(no_mangle)]
pub extern "C" fn cir_write_stored(
    n: u32,
    b: u32,
    x: u32,
    r: u32,
    leading: u32,
    bs: u32,
    xs: u32,
    nodes: &[u32],
    bases: &[u64],
    exts: &[u64],
    roots: &[u32],
    file: &mut [u8],
    length: &mut u64,
) -> u64
    ensures { WritesFile (blob_counts n b x r leading bs xs) (tables nodes.now bases.now exts.now roots.now) file.old length.old result file.new length.new }
{
    let c = BlobCounts {
        nodes: n,
        bases: b,
        exts: x,
        roots: r,
        num_base: leading,
        base_slots: bs,
        ext_slots: xs,
    };
    let tables = TablesRef {
        nodes,
        bases,
        exts,
        roots,
    };
    match write_stored(c, &tables, file) {
        Ok(bytes) => {
            *length = bytes as u64;
            0
        }
        Err(why) => coded_refusal(why),
    }
}

// The counts are written on 0 alone.
#[unsafe(no_mangle)]
pub extern "C" fn cir_read_stored(
    file: &[u8],
    nodes: &mut [u32],
    bases: &mut [u64],
    exts: &mut [u64],
    roots: &mut [u32],
    n: &mut u32,
    b: &mut u32,
    x: &mut u32,
    r: &mut u32,
    leading: &mut u32,
    bs: &mut u32,
    xs: &mut u32,
) -> u64
    ensures { ReadsFile file.now (tables nodes.old bases.old exts.old roots.old) (blob_counts n.old b.old x.old r.old leading.old bs.old xs.old) result (tables nodes.new bases.new exts.new roots.new) (blob_counts n.new b.new x.new r.new leading.new bs.new xs.new) }
{
    let mut rooms = TableRooms {
        nodes,
        bases,
        exts,
        roots,
    };
    match read_stored(file, &mut rooms) {
        Ok(c) => {
            *n = c.nodes;
            *b = c.bases;
            *x = c.exts;
            *r = c.roots;
            *leading = c.num_base;
            *bs = c.base_slots;
            *xs = c.ext_slots;
            0
        }
        Err(why) => coded_refusal(why),
    }
}

// The listing's length is written on 0 alone.
#[unsafe(no_mangle)]
pub extern "C" fn cir_list_stored(file: &[u8], out: &mut [u8], length: &mut u64) -> u64
    ensures { ListsFile file.now out.old length.old result out.new length.new }
{
    if out.len() < LISTING_ROOM {
        return coded_refusal(Refusal::ShortOutput);
    }
    *length = list_stored(file, out) as u64;
    0
}
