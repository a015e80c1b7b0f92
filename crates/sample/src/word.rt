// Words that a call may write, and the room for them.
ghost use Rattle.std.specs.Prelude.{◌≡◌, length, IfOk};

use super::fault::Fault;

pub trait Word: Copy + PartialEq + Into<u64> {
    // What a word holds before the call.
    const KEPT: Self;

    ghost KEPT: { Self };
}

impl Word for u64 {
    // No call writes it, since it is above p.
    const KEPT: u64 = 0xFFFF_FFFF_FFFF_FFFE;

    ghost KEPT = { 18446744073709551614 };
}

impl Word for u32 {
    // No column, no slot and no operand of a lawful kind is so large.
    const KEPT: u32 = 0xFFFF_FFFE;

    ghost KEPT = { 4294967294 };
}

impl Word for u8 {
    // A call leaves a byte as 0 or not at all.
    const KEPT: u8 = 0xFE;

    ghost KEPT = { 254 };
}

// The first words of a room, to be lent to a call.
pub fn lent<W: Word>(room: &mut [W], count: usize) -> Result<&mut [W], Fault>
    ensures { IfOk result (λ part. length part.now ≡ count) }
{
    room.get_mut(..count).ok_or(Fault::NoRoom)
}

// Copies words of 32 bits to the start of a room.
pub fn narrow<'a>(words: &[u64], room: &'a mut [u32]) -> Result<&'a [u32], Fault> {
    let narrowed = lent(room, words.len())?;
    for (short, word) in narrowed.iter_mut().zip(words) {
        *short = u32::try_from(*word).map_err(|_| Fault::NoRoom)?;
    }
    Ok(narrowed)
}
