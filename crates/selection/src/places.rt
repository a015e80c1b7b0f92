// The places of a list whose items pass a test, as words in a lent room.
ghost use Rattle.std.specs.Prelude.{◌≡◌, ℕ, ◌<◌, Bool, length, map};
ghost use Rattle.selection.specs.Places.{places, Listed};

use ir::refusal::Refusal;

// Ascending, from the start of the room: how many, or 10 where the room is shorter, and then nothing is written. What an item
// adds to the count is added without a branch, which would be wrong half of the time where items pass at random.
pub fn list_places<T: Copy, W: Copy, F: Fn(T) -> bool, G: Fn(usize) -> W>(
    items: &[T],
    test: F,
    word: G,
    out: &mut [W],
) -> Result<usize, Refusal>
    ghost says: { (T → Bool) × (ℕ → W) }
    requires tests { (x : T) → F.pre test x }
    requires tells { (x : T) (b : Bool) → F.post test x b → b ≡ says.0 x }
    requires words { (i : ℕ) → i < length items.now → G.pre word i }
    requires wrote { (i : ℕ) (v : W) → G.post word i v → v ≡ says.1 i }
    ensures { Listed (map says.1 (places says.0 items.now)) out.old out.new result }
{
    let mut count: usize = 0;
    for place in 0..items.len() {
        count += usize::from(test(items[place]));
    }
    if out.len() < count {
        return Err(Refusal::ShortOutput);
    }
    let mut at: usize = 0;
    for (i, item) in items.iter().enumerate() {
        if test(*item) {
            out[at] = word(i);
            at += 1;
        }
    }
    Ok(count)
}
