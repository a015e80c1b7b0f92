// Reading stored form A: its framing is judged, and nothing else.
ghost use Rattle.std.specs.Prelude.{◌≡◌, ◌*◌, ◌≤◌, length};
ghost use Rattle.std.proofs.lemmas.List.Edits.{sets};
ghost use Rattle.stored_parts.specs.Form.{words, below_p, distance, tables_in};
ghost use Rattle.stored_parts.specs.Rooms.{Long};
ghost use Rattle.blob_rules.specs.Blob.{SameRooms};
ghost use Rattle.stored.specs.Answer.{rooms_of, put, ReadAnswer};

use blob_rules::blob::{BlobCounts, TableRooms};
use ir::refusal::Refusal;
use stored_parts::form::short_tables;
use stored_parts::reading::{bad_framing, counts_in, read_constants, read_words};

// So many words, at the front of their room: of a part of a lent room that a value holds, nothing is known afterwards.
fn read_front(bytes: &[u8], count: usize, room: &mut [u32])
    requires { (count ≤ length room.old) × (4 * count ≤ length bytes.now) }
    ensures { room.new ≡ sets room.old 0 (words 4 count bytes.now) }
{
    read_words(bytes, &mut room[..count]);
}

// And so many constants.
fn read_constant_front(bytes: &[u8], count: usize, room: &mut [u64])
    requires { (count ≤ length room.old) × (8 * count ≤ length bytes.now) }
    ensures { room.new ≡ sets room.old 0 (below_p (words 8 count bytes.now)) }
{
    read_constants(bytes, &mut room[..count]);
}

fn read_tables(file: &[u8], c: BlobCounts, rooms: &mut TableRooms)
    requires { Long c (rooms_of rooms.old) × (4 * distance c ≤ length file.now) }
    ensures tables_read { rooms_of rooms.new ≡ put (tables_in c file.now) (rooms_of rooms.old) }
    ensures same_rooms { SameRooms rooms.new rooms.old }
{
    let n = c.nodes as usize;
    let b = c.bases as usize;
    let x = c.exts as usize;
    read_front(file, 4 * n, rooms.nodes);
    read_constant_front(&file[16 * n..], b, rooms.bases);
    read_constant_front(&file[16 * n + 8 * b..], 3 * x, rooms.exts);
    read_front(
        &file[16 * n + 8 * b + 24 * x..],
        c.roots as usize,
        rooms.roots,
    );
}

pub fn read_stored(file: &[u8], rooms: &mut TableRooms) -> Result<BlobCounts, Refusal>
    ensures answer { ReadAnswer file.now (rooms_of rooms.old) result (rooms_of rooms.new) }
    ensures same_rooms { SameRooms rooms.new rooms.old }
{
    if bad_framing(file) {
        return Err(Refusal::BadFraming);
    }
    let c = counts_in(file);
    if short_tables(
        c,
        rooms.nodes.len(),
        rooms.bases.len(),
        rooms.exts.len(),
        rooms.roots.len(),
    ) {
        return Err(Refusal::ShortOutput);
    }
    read_tables(file, c, rooms);
    Ok(c)
}
