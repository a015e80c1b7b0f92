// Why a call refuses: one case for each row of document 01's table. A case with a place names what is at fault: in 7
// and 11 the lowest node, else the lowest root; in 12 the constraint; in 13 the lowest node.
#[derive(Clone, Copy, Debug, PartialEq, Eq)]
pub enum Refusal {
    // 1: lent memory is shorter than counts or shape need.
    ShortMemory,
    // 2: an index or a part of the shape is over its limit.
    OverLimit,
    // 3: a handle's id is not below the node count, or its dim is not that node's.
    ForeignHandle,
    // 4: a new node, and none fits.
    NodesFull,
    // 5: a new constant, and its table is full.
    ConstantsFull,
    // 6: a constraint number at or past the root room, or the root count.
    NoConstraint,
    // 7: the program is not well-formed.
    IllFormed { place: usize },
    // 8: too many nodes or constants.
    TooManyNodes,
    // 9: num_base or the root count does not fit 32 bits.
    TooManyRoots,
    // 10: output room is too short, or a stored body has over 4,294,967,295 words.
    ShortOutput,
    // 11: the blob is illegal.
    IllegalBlob { place: usize },
    // 12: a root that has to be base is extension.
    ExtensionRoot { place: usize },
    // 13: a leaf is outside the frame.
    LeafOutside { place: usize },
    // 14: eval buffers are too short.
    ShortEvals,
    // 15: a stored form is under 32 bytes, or its distance or length is not as its counts say.
    BadFraming,
}
