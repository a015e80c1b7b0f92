// What the calls on bytes share: rooms that are too short, and words packed back.
ghost use Rattle.std.specs.Prelude.{◌||◌, cond, ◌≡◌, ◌≤◌, length, take};
ghost use Rattle.std.proofs.lemmas.List.Edits.{sets};
ghost use Rattle.stored_parts.specs.Form.{spread};
ghost use Rattle.byte_words.specs.Words.{whole};
ghost use Rattle.byte_words.specs.Rooms.{short_room};

use little_endian::bytes::Word;
use stored_parts::writing::write_words;

// The room has fewer words than the bytes.
pub fn is_tight<W: Word>(bytes: &[u8], room: &[W]) -> bool
    ensures { result ≡ short_room W.BYTES (length bytes.now) (length room.now) }
{
    room.len() < bytes.len() / W::BYTES
}

// Bytes and their room, twice.
pub fn short_rooms<V: Word, W: Word>(a: &[u8], aw: &[V], b: &[u8], bw: &[W]) -> bool
    ensures { result ≡ (short_room V.BYTES (length a.now) (length aw.now) || short_room W.BYTES (length b.now) (length bw.now)) }
{
    is_tight(a, aw) || is_tight(b, bw)
}

// The front of a room, as many words as the bytes hold; on a refusal the bytes stay.
pub fn pack_front<W: Word>(done: bool, room: &[W], bytes: &mut [u8])
    requires { whole W.BYTES bytes.old ≤ length room.now }
    ensures { bytes.new ≡ cond done (sets bytes.old 0 (spread W.BYTES (W.numbers (take (whole W.BYTES bytes.old) room.now)))) bytes.old }
{
    if done {
        let count = bytes.len() / W::BYTES;
        write_words(bytes, &room[..count]);
    }
}
