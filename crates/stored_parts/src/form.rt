// What writing and reading share: how long a body is, whether tables are long enough, and whether a file has room or fits its trailer.
ghost use Rattle.std.specs.Prelude.{◌≡◌};
ghost use Rattle.stored_parts.specs.Form.{distance, words, misframed};
ghost use Rattle.stored_parts.specs.Rooms.{short, no_room};

use blob_rules::blob::BlobCounts;

// The trailer: eight words of 4 bytes.
pub const TRAILER_BYTES: usize = 32;

// From the trailer back to the first byte, in words of 4 bytes. Counts of 32 bits keep it far below 64.
pub fn body_words(c: BlobCounts) -> usize
    ensures { result ≡ distance c }
{
    4 * (c.nodes as usize) + 2 * (c.bases as usize) + 6 * (c.exts as usize) + c.roots as usize
}

pub fn short_tables(c: BlobCounts, nodes: usize, bases: usize, exts: usize, roots: usize) -> bool
    ensures { result ≡ short c nodes bases exts roots }
{
    nodes < 4 * (c.nodes as usize)
        || bases < c.bases as usize
        || exts < 3 * (c.exts as usize)
        || roots < c.roots as usize
}

// The length is judged once the distance is known to be the body's, and so to fit 32 bits.
pub fn is_misframed(words: usize, told: u32, len: usize) -> bool
    ensures { result ≡ misframed words told len }
{
    told as usize != words || len != 4 * words + TRAILER_BYTES
}

pub fn no_room(words: usize, room: usize) -> bool
    ensures { result ≡ no_room words room }
{
    words > u32::MAX as usize || room < 4 * words + TRAILER_BYTES
}
