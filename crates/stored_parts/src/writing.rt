// Words, constants and the trailer into a file.
ghost use Rattle.std.specs.Prelude.{◌≡◌, ◌*◌, ◌≤◌, length};
ghost use Rattle.std.proofs.lemmas.List.Edits.{sets};
ghost use Rattle.stored_parts.specs.Form.{spread, below_p, distance, trailer_words};

use blob_rules::blob::BlobCounts;
use field::goldilocks::Fp;
use little_endian::bytes::Word;

pub fn write_words<W: Word>(out: &mut [u8], words: &[W])
    requires { W.BYTES * length words.now ≤ length out.old }
    ensures { out.new ≡ sets out.old 0 (spread W.BYTES (W.numbers words.now)) }
{
    for (i, word) in words.iter().enumerate() {
        word.write_at(&mut out[..], W::BYTES * i);
    }
}

// Constants are put below p.
pub fn write_constants(out: &mut [u8], words: &[u64])
    requires { 8 * length words.now ≤ length out.old }
    ensures { out.new ≡ sets out.old 0 (spread 8 (below_p words.now)) }
{
    for (i, word) in words.iter().enumerate() {
        Fp::reduce(*word).write_at(&mut out[..], 8 * i);
    }
}

// The counts, and the distance of a body of so many words.
pub fn write_trailer(out: &mut [u8], c: BlobCounts, words: u32)
    requires { (32 ≤ length out.old) × (words ≡ distance c) }
    ensures { out.new ≡ sets out.old 0 (spread 4 (trailer_words c)) }
{
    let fields: [u32; 8] = [
        c.nodes,
        c.bases,
        c.exts,
        c.roots,
        c.num_base,
        c.base_slots,
        c.ext_slots,
        words,
    ];
    write_words(out, &fields[..]);
}
