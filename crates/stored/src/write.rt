// Writing stored form A.
ghost use Rattle.std.specs.Prelude.{◌≡◌, ◌*◌, ◌≤◌, length};
ghost use Rattle.std.proofs.lemmas.List.Edits.{sets};
ghost use Rattle.stored_parts.specs.Form.{distance, named, body};
ghost use Rattle.stored_parts.specs.Rooms.{Long};
ghost use Rattle.stored.specs.Answer.{lent_tables, WriteAnswer};

use blob_rules::blob::BlobCounts;
use ir::refusal::Refusal;
use stored_parts::form::{TRAILER_BYTES, body_words, no_room, short_tables};
use stored_parts::writing::{write_constants, write_trailer, write_words};

// A blob's four tables as they are lent for writing.
#[derive(Clone, Copy)]
pub struct TablesRef<'a> {
    pub nodes: &'a [u32],
    pub bases: &'a [u64],
    pub exts: &'a [u64],
    pub roots: &'a [u32],
}

fn write_body(c: BlobCounts, tables: &TablesRef, out: &mut [u8])
    requires { Long c (lent_tables tables.now) × (4 * distance c ≤ length out.old) }
    ensures { out.new ≡ sets out.old 0 (body (named c (lent_tables tables.now))) }
{
    let n = 4 * (c.nodes as usize);
    let b = c.bases as usize;
    let x = 3 * (c.exts as usize);
    write_words(&mut out[..], &tables.nodes[..n]);
    write_constants(&mut out[4 * n..], &tables.bases[..b]);
    write_constants(&mut out[4 * n + 8 * b..], &tables.exts[..x]);
    write_words(
        &mut out[4 * n + 8 * b + 8 * x..],
        &tables.roots[..c.roots as usize],
    );
}

pub fn write_stored(c: BlobCounts, tables: &TablesRef, out: &mut [u8]) -> Result<usize, Refusal>
    ensures { WriteAnswer c (lent_tables tables.now) out.old result out.new }
{
    if short_tables(
        c,
        tables.nodes.len(),
        tables.bases.len(),
        tables.exts.len(),
        tables.roots.len(),
    ) {
        return Err(Refusal::ShortMemory);
    }
    let words = body_words(c);
    if no_room(words, out.len()) {
        return Err(Refusal::ShortOutput);
    }
    write_body(c, tables, &mut out[..]);
    write_trailer(&mut out[4 * words..], c, words as u32);
    Ok(4 * words + TRAILER_BYTES)
}
