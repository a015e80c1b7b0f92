// Words, constants and the trailer of a file.
ghost use Rattle.std.specs.Prelude.{◌≡◌, ◌*◌, ◌<◌, ◌≤◌, length};
ghost use Rattle.stored_parts.specs.Form.{words, below_p, trailer_word, counts_in, bad_framing};

use super::form::{TRAILER_BYTES, body_words, is_misframed};
use blob_rules::blob::BlobCounts;
use field::goldilocks::Fp;
use little_endian::bytes::Word;

// As many words as the room takes.
pub fn read_words<W: Word>(bytes: &[u8], to: &mut [W])
    requires { W.BYTES * length to.old ≤ length bytes.now }
    ensures { W.numbers to.new ≡ words W.BYTES (length to.old) bytes.now }
{
    for i in 0..to.len() {
        to[i] = W::read_at(bytes, W::BYTES * i);
    }
}

// As many constants as the room takes, put below p. One function for these and for words would take what is done to each as a
// closure, and its law, which is longer than both.
pub fn read_constants(bytes: &[u8], to: &mut [u64])
    requires { 8 * length to.old ≤ length bytes.now }
    ensures { to.new ≡ below_p (words 8 (length to.old) bytes.now) }
{
    for i in 0..to.len() {
        to[i] = Fp::reduce(u64::read_at(bytes, 8 * i));
    }
}

fn trailer_word(file: &[u8], k: usize) -> u32
    requires { (32 ≤ length file.now) × (k < 8) }
    ensures { result ≡ trailer_word file.now k }
{
    u32::read_at(file, file.len() - TRAILER_BYTES + 4 * k)
}

pub fn counts_in(file: &[u8]) -> BlobCounts
    requires { 32 ≤ length file.now }
    ensures { result ≡ counts_in file.now }
{
    BlobCounts {
        nodes: trailer_word(file, 0),
        bases: trailer_word(file, 1),
        exts: trailer_word(file, 2),
        roots: trailer_word(file, 3),
        num_base: trailer_word(file, 4),
        base_slots: trailer_word(file, 5),
        ext_slots: trailer_word(file, 6),
    }
}

pub fn bad_framing(file: &[u8]) -> bool
    ensures { result ≡ bad_framing file.now }
{
    file.len() < TRAILER_BYTES
        || is_misframed(
            body_words(counts_in(file)),
            trailer_word(file, 7),
            file.len(),
        )
}
