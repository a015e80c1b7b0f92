// Words at a place in bytes, little-endian.
ghost use Rattle.std.specs.Prelude.{List, ℕ, ◌≡◌, ◌+◌, ◌<◌, ◌≤◌, length, map, take, drop};
ghost use Rattle.std.proofs.lemmas.List.Edits.{sets};
ghost use Rattle.little_endian.specs.Bytes.{le_value, le_bytes};
ghost use Rattle.std.proofs.Common.{rules};
ghost use Rattle.std.proofs.lemmas.List.{map-id};

// A type of numbers that are read from bytes and written into them, the lowest byte first.
pub trait Word: Copy {
    // How many bytes a word has.
    ghost BYTES: { ℕ };

    const BYTES: usize;

    // The number that a word is, and the numbers that a row of words is.
    ghost number: { Self → ℕ };

    ghost numbers: { List Self → List ℕ };

    fn read_at(s: &[u8], at: usize) -> Self
        requires { at + BYTES ≤ length s.now }
        ensures { number result ≡ le_value (take BYTES (drop at s.now)) };

    fn write_at(self, s: &mut [u8], at: usize)
        requires { at + BYTES ≤ length s.old }
        ensures { s.new ≡ sets s.old at (le_bytes BYTES (number self)) };

    ghost some_bytes: { 0 < BYTES };

    ghost one_by_one: { (ws : List Self) → map number ws ≡ numbers ws };
}

impl Word for u32 {
    ghost BYTES = { 4 };

    const BYTES: usize = 4;

    ghost number = { λ w. w };

    ghost numbers = { λ ws. ws };

    ghost some_bytes = { Prim.search rules };

    ghost one_by_one = { map-id };

    fn read_at(s: &[u8], at: usize) -> u32 {
        u32::from_le_bytes([s[at], s[at + 1], s[at + 2], s[at + 3]])
    }

    fn write_at(self, s: &mut [u8], at: usize) {
        s[at..at + 4].copy_from_slice(&self.to_le_bytes());
    }
}

impl Word for u64 {
    ghost BYTES = { 8 };

    const BYTES: usize = 8;

    ghost number = { λ w. w };

    ghost numbers = { λ ws. ws };

    ghost some_bytes = { Prim.search rules };

    ghost one_by_one = { map-id };

    fn read_at(s: &[u8], at: usize) -> u64 {
        u64::from_le_bytes([
            s[at],
            s[at + 1],
            s[at + 2],
            s[at + 3],
            s[at + 4],
            s[at + 5],
            s[at + 6],
            s[at + 7],
        ])
    }

    fn write_at(self, s: &mut [u8], at: usize) {
        s[at..at + 8].copy_from_slice(&self.to_le_bytes());
    }
}
