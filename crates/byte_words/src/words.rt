// Words from bytes, little-endian. Bytes hold as many words as are whole.
ghost use Rattle.std.specs.Prelude.{◌≡◌, ◌≤◌, length};
ghost use Rattle.std.proofs.lemmas.List.Edits.{sets};
ghost use Rattle.byte_words.specs.Words.{whole, words_in};

use little_endian::bytes::Word;
use stored_parts::reading::read_words;

pub fn unpack<W: Word>(bytes: &[u8], to: &mut [W])
    requires { whole W.BYTES bytes.now ≤ length to.old }
    ensures { W.numbers to.new ≡ sets (W.numbers to.old) 0 (words_in W.BYTES bytes.now) }
{
    let count = bytes.len() / W::BYTES;
    read_words(bytes, &mut to[..count]);
}
