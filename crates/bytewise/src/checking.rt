// The blob check over stored form A.
ghost use Rattle.blob_rules.specs.Blob.{SameRooms};
ghost use Rattle.stored.specs.Answer.{rooms_of};
ghost use Rattle.bytewise.specs.Checking.{CheckStored};

use blob_rules::blob::{BlobRef, TableRooms};
use device::check::check_blob;
use ir::frame::Shape;
use ir::refusal::Refusal;
use stored::read::read_stored;

// 15 and 10, then the check's own: 2, 1, 11, 12.
pub fn check_stored(
    s: Shape,
    file: &[u8],
    rooms: &mut TableRooms,
    marks: &mut [u8],
) -> Result<(), Refusal>
    ensures answer { CheckStored s file.now (rooms_of rooms.old) marks.old result (rooms_of rooms.new) marks.new }
    ensures same_rooms { SameRooms rooms.new rooms.old }
{
    let counts = read_stored(file, rooms)?;
    let blob = BlobRef {
        counts,
        nodes: &mut *rooms.nodes,
        roots: &mut *rooms.roots,
    };
    check_blob(&blob, s, marks)
}
