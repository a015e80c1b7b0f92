// Lists the blob that stands in stored form A on standard input, or says why there is none.
#![tactic(auto)]

ghost use Rattle.std.specs.Prelude.{◌<◌, ◌≤◌, length, IfSome, OnOk};
ghost use Rattle.std.specs.Io.KnownBytes.{Appends};
ghost use Rattle.listing.specs.Listing.{blob_list};

use listing::listing::list_stored;
use sample::input::fill;
use std::io;
use std::io::{Read, Write};

// Lists the file that an input holds to its end, over a room for it and one for its listing. The first is longer than the
// longest file that is listed, so that a longer one is seen.
fn list_over<R: Read, W: Write>(
    input: &mut R,
    output: &mut W,
    file: &mut [u8],
    text: &mut [u8],
) -> io::Result<()>
    requires file_room { 65536 < length file.old }
    requires text_room { 524288 ≤ length text.old }
    ensures { OnOk result (IfSome (R.remaining input.old) (λ given. Appends (W.contents output.old) (W.contents output.new) (blob_list given))) }
{
    let length = fill(input, &mut file[..])?;
    let end = list_stored(&file[..length], &mut text[..]);
    output.write_all(&text[..end])
}

// The same over rooms of its own.
fn list<R: Read, W: Write>(input: &mut R, output: &mut W) -> io::Result<()>
    ensures { OnOk result (IfSome (R.remaining input.old) (λ given. Appends (W.contents output.old) (W.contents output.new) (blob_list given))) }
{
    let mut file = [0u8; 65537];
    let mut text = [0u8; 524288];
    list_over(input, output, &mut file, &mut text)
}

// What standard input gives is known to no clause, so of this run `list` promises nothing: tests hold what it prints.
fn main(rt: HostRuntime) -> io::Result<()> {
    list(&mut rt.reader(), &mut io::writer(&rt))
}
