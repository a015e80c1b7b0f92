// The listing of a blob that is stored in form A, as `blob-list` prints it.
ghost use Rattle.std.specs.Prelude.{◌∷◌, [], ◌++◌, ◌≡◌, ℕ, List, ◌+◌, ◌-◌, ◌*◌, ◌/◌, ◌<◌, ◌≤◌, length, get_or, take, drop};
ghost use Rattle.stored_parts.specs.Form.{words, below_p, tables_in};
ghost use Rattle.listing.specs.Listing.{decimal, ending, numbers, line, lines, refused_name, listing, blob_list, Listable, Holds, SectionsOf, Adds, Puts};

use blob_rules::blob::BlobCounts;
use field::goldilocks::Fp;
use itoa::write_digits;
use little_endian::bytes::Word;
use stored_parts::reading::{bad_framing, counts_in};

// Numbers that stand in a file.
trait Table {
    ghost numbers: { Self → List ℕ };

    fn len(&self) -> usize
        ensures { result ≡ length (numbers self.now) };

    fn number(&self, i: usize) -> u64
        requires { i < length (numbers self.now) }
        ensures { result ≡ get_or (numbers self.now) i 0 };
}

// Words of 4 bytes.
#[derive(Drop)]
struct WordTable<'a>(&'a [u8]);

impl Table for WordTable<'_> {
    ghost numbers = { λ t. words 4 (length t.0.now / 4) t.0.now };

    fn len(&self) -> usize {
        self.0.len() / 4
    }

    fn number(&self, i: usize) -> u64 {
        u64::from(u32::read_at(self.0, 4 * i))
    }
}

// Words of 8 bytes, put below p.
#[derive(Drop)]
struct ConstantTable<'a>(&'a [u8]);

impl Table for ConstantTable<'_> {
    ghost numbers = { λ t. below_p (words 8 (length t.0.now / 8) t.0.now) };

    fn len(&self) -> usize {
        self.0.len() / 8
    }

    fn number(&self, i: usize) -> u64 {
        Fp::reduce(u64::read_at(self.0, 8 * i))
    }
}

// A blob's parts in its file: the bytes of each table, and those of the counts.
#[derive(Drop)]
struct Sections<'a> {
    nodes: &'a [u8],
    bases: &'a [u8],
    exts: &'a [u8],
    roots: &'a [u8],
    counts: &'a [u8],
}

impl<'a> Sections<'a> {
    // The counts are the trailer's first seven words.
    fn of(file: &'a [u8], c: BlobCounts) -> Sections<'a>
        requires { Holds file.now c }
        ensures { SectionsOf file.now c result }
    {
        let (nodes, rest) = file.split_at(16 * (c.nodes as usize));
        let (bases, rest) = rest.split_at(8 * (c.bases as usize));
        let (exts, rest) = rest.split_at(24 * (c.exts as usize));
        let (roots, trailer) = rest.split_at(4 * (c.roots as usize));
        let (counts, _) = trailer.split_at(28);
        Sections {
            nodes,
            bases,
            exts,
            roots,
            counts,
        }
    }
}

fn digit_count(n: u64) -> usize
    ensures { result ≡ length (decimal n) }
{
    n.max(1).ilog10() as usize + 1
}

// The digits are written where they stay, so that none is copied; most numbers of a blob have one. A put of a number answers the
// place after it, which stands in no memory while a line's numbers are put.
fn put_number(n: u64, out: &mut [u8], at: usize) -> usize
    requires { at + 20 ≤ length out.old }
    ensures { Puts out.old at 20 (decimal n) out.new result }
{
    if n < 10 {
        out[at] = b'0' + n as u8;
        return at + 1;
    }
    let end = at + digit_count(n);
    write_digits(n, out, end);
    end
}

// A number that `left` more follow: a newline ends the last.
fn put_ended(n: u64, left: usize, out: &mut [u8], at: usize) -> usize
    requires { at + 21 ≤ length out.old }
    ensures { Puts out.old at 21 (decimal n ++ (ending left ∷ [])) out.new result }
{
    let end = put_number(n, out, at);
    out[end] = if left == 0 { b'\n' } else { b' ' };
    end + 1
}

// Text that stands in a room, from its start up to a length.
#[derive(Drop)]
struct Text<'a> {
    room: &'a mut [u8],
    len: usize,
}

impl Text<'_> {
    // A text of a fixed length is stored without a call.
    fn put<const N: usize>(&mut self, text: &[u8; N])
        requires { self.old.len + length text.now ≤ length self.old.room.now }
        ensures { Adds (length text.now) text.now self.old self.new }
    {
        let end = self.len + text.len();
        self.room[self.len..end].copy_from_slice(text);
        self.len = end;
    }

    // A table's numbers from one place up to another, as those that end a line.
    fn put_numbers<T: Table>(&mut self, table: &T, from: usize, end: usize)
        requires in_table { (from ≤ end) × (end ≤ length (T.numbers table.now)) }
        requires room { self.old.len + 21 * (end - from) ≤ length self.old.room.now }
        ensures { Adds (21 * (end - from)) (numbers 0 (take (end - from) (drop from (T.numbers table.now)))) self.old self.new }
    {
        let mut at = self.len;
        for i in from..end {
            at = put_ended(table.number(i), end - 1 - i, self.room, at);
        }
        self.len = at;
    }

    // A table's lines: in each a name, and then the next n numbers.
    fn put_lines<T: Table, const N: usize>(&mut self, name: &[u8; N], n: usize, table: &T)
        requires some { 0 < n }
        requires room { self.old.len + (length name.now + 21 * n) * (length (T.numbers table.now) / n) ≤ length self.old.room.now }
        ensures { Adds ((length name.now + 21 * n) * (length (T.numbers table.now) / n)) (lines name.now n (length (T.numbers table.now) / n) (T.numbers table.now)) self.old self.new }
    {
        for i in 0..table.len() / n {
            self.put(name);
            self.put_numbers(table, n * i, n * i + n);
        }
    }

    fn put_refused(&mut self, number: u64)
        requires { self.old.len + 29 ≤ length self.old.room.now }
        ensures { Adds 29 (line refused_name (number ∷ [])) self.old self.new }
    {
        self.put(b"refused ");
        self.len = put_ended(number, 0, self.room, self.len);
    }

    fn put_blob(&mut self, file: &[u8], c: BlobCounts)
        requires start { self.old.len ≡ 0 }
        requires fits { Listable file.now c (length self.old.room.now) }
        ensures { Adds 524288 (listing c (tables_in c file.now)) self.old self.new }
    {
        let blob = Sections::of(file, c);
        self.put_lines(b"blob ", 7, &WordTable(blob.counts));
        self.put_lines(b"node ", 4, &WordTable(blob.nodes));
        self.put_lines(b"const ", 1, &ConstantTable(blob.bases));
        self.put_lines(b"ext ", 3, &ConstantTable(blob.exts));
        self.put_lines(b"root ", 1, &WordTable(blob.roots));
        self.put(b"end\n");
    }
}

// The longest file that is listed.
pub const LONGEST_FILE: usize = 65536;

// What `blob-list` prints of a file.
pub fn list_stored(file: &[u8], out: &mut [u8]) -> usize
    requires { 524288 ≤ length out.old }
    ensures { Puts out.old 0 524288 (blob_list file.now) out.new result }
{
    let mut text = Text { room: out, len: 0 };
    if LONGEST_FILE < file.len() {
        text.put_refused(1);
        return text.len;
    }
    if bad_framing(file) {
        text.put_refused(15);
        return text.len;
    }
    text.put_blob(file, counts_in(file));
    text.len
}
