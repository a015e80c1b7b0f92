// Lowering over bytes: a program's tables as little-endian words, its blob in stored form A.
ghost use Rattle.std.specs.Prelude.{◌≡◌};
ghost use Rattle.ir.specs.Program.{program_of};
ghost use Rattle.blob_rules.specs.Blob.{SameRooms};
ghost use Rattle.lower_parts.specs.Inner.{SameLists};
ghost use Rattle.lower_parts.specs.Answer.{lists_of, output_of};
ghost use Rattle.stored.specs.Answer.{rooms_of, put};
ghost use Rattle.bytewise.specs.Lowering.{bytes_of, short_for, refused_early, why_early, Roomy, words_of, LowerFile, LowerStored};

use blob_rules::blob::TableRooms;
use byte_words::words::unpack;
use ir::program::{Counts, ProgramRef, too_many_nodes, too_many_roots};
use ir::refusal::Refusal;
use lower::lower::lower;
use lower_parts::parts::Lists;
use stored::write::{TablesRef, write_stored};

// A program's four tables as bytes.
#[derive(Clone, Copy)]
pub struct TableBytes<'a> {
    pub nodes: &'a [u8],
    pub bases: &'a [u8],
    pub exts: &'a [u8],
    pub roots: &'a [u8],
}

// A room has fewer words than its table.
fn short_rooms(tables: &TableBytes, rooms: &TableRooms) -> bool
    ensures { result ≡ short_for (bytes_of tables.now) (rooms_of rooms.now) }
{
    rooms.nodes.len() < tables.nodes.len() / 4
        || rooms.bases.len() < tables.bases.len() / 8
        || rooms.exts.len() < tables.exts.len() / 8
        || rooms.roots.len() < tables.roots.len() / 4
}

// 8, 9, or a room that is too short.
fn refused_early(c: Counts, tables: &TableBytes, rooms: &TableRooms) -> bool
    ensures { result ≡ refused_early c (bytes_of tables.now) (rooms_of rooms.now) }
{
    too_many_nodes(c) || too_many_roots(c) || short_rooms(tables, rooms)
}

// Which of the three it is.
fn early_refusal(c: Counts) -> Refusal
    ensures { result ≡ why_early c }
{
    if too_many_nodes(c) {
        return Refusal::TooManyNodes;
    }
    if too_many_roots(c) {
        return Refusal::TooManyRoots;
    }
    Refusal::ShortMemory
}

fn unpack_tables(tables: &TableBytes, rooms: &mut TableRooms)
    requires { Roomy (bytes_of tables.now) (rooms_of rooms.old) }
    ensures unpacked { rooms_of rooms.new ≡ put (words_of (bytes_of tables.now)) (rooms_of rooms.old) }
    ensures same_rooms { SameRooms rooms.new rooms.old }
{
    unpack(tables.nodes, rooms.nodes);
    unpack(tables.bases, rooms.bases);
    unpack(tables.exts, rooms.exts);
    unpack(tables.roots, rooms.roots);
}

// Lowers words, then writes the file.
fn lower_file(
    p: &ProgramRef,
    lists: &mut Lists,
    out: &mut TableRooms,
    file: &mut [u8],
) -> Result<usize, Refusal>
    ensures answer { LowerFile (program_of p.now) (lists_of lists.old) (output_of out.old) file.old result (lists_of lists.new) (output_of out.new) file.new }
    ensures same_lists { SameLists lists.new lists.old }
    ensures same_rooms { SameRooms out.new out.old }
{
    let counts = lower(p, lists, out)?;
    // By `&mut *`, since the borrow checker does not cover two `&*` into one `&mut` value.
    let tables = TablesRef {
        nodes: &mut *out.nodes,
        bases: &mut *out.bases,
        exts: &mut *out.exts,
        roots: &mut *out.roots,
    };
    write_stored(counts, &tables, file)
}

// Lowering's own: 8, 9, 1, also where a room is too short for its table's words, 7, 10; then 10 where the file has no room.
// The answer has the file's length in bytes.
pub fn lower_stored(
    c: Counts,
    tables: &TableBytes,
    rooms: &mut TableRooms,
    lists: &mut Lists,
    out: &mut TableRooms,
    file: &mut [u8],
) -> Result<usize, Refusal>
    ensures answer { LowerStored c (bytes_of tables.now) (rooms_of rooms.old) (lists_of lists.old) (output_of out.old) file.old result (rooms_of rooms.new) (lists_of lists.new) (output_of out.new) file.new }
    ensures same_places { SameRooms rooms.new rooms.old × SameLists lists.new lists.old × SameRooms out.new out.old }
{
    if refused_early(c, tables, rooms) {
        return Err(early_refusal(c));
    }
    unpack_tables(tables, rooms);
    // Whole slices first: of a part of a lent field the check does not tell that it stays.
    let words = TablesRef {
        nodes: &mut *rooms.nodes,
        bases: &mut *rooms.bases,
        exts: &mut *rooms.exts,
        roots: &mut *rooms.roots,
    };
    let program = ProgramRef {
        counts: c,
        nodes: &words.nodes[..tables.nodes.len() / 4],
        bases: &words.bases[..tables.bases.len() / 8],
        exts: &words.exts[..tables.exts.len() / 8],
        roots: &words.roots[..tables.roots.len() / 4],
    };
    lower_file(&program, lists, out, file)
}
