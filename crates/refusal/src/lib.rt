#![tactic(auto)]

// Why a call was refused. One enum for every layer, so that a refusal passes from layer to layer as it is.
//
// The discriminant of a case is its number in listings. Where several cases apply to one call, the one with the
// lowest number is the answer. A refused call changes nothing.
#[derive(Clone, Copy, PartialEq, Eq, Debug)]
pub enum Refusal {
    // A new patch of 0 bytes, or of more than the largest slot holds.
    Size = 1,
    // There is no such class of slots.
    Class = 2,
    // The address lies past the last span.
    Address = 3,
    // A command list has a byte that is no command letter where a command begins.
    Command = 4,
    // A command list ends within a command's operands.
    Cut = 5,
    // The stretch asked for passes the end of the frame.
    Edge = 6,
    // A memory, a row or a buffer has a length that the call cannot use.
    Row = 7,
    // Two elements that stand at one place do not join.
    Clash = 8,
    // The label is live already.
    Taken = 9,
    // The label is not live.
    Absent = 10,
    // The stretch asked for passes the end of the patch.
    Past = 11,
    // A span is needed, and none is idle.
    Spans = 12,
    // A frame is needed, and none is spare.
    Frames = 13,
    // No live patch holds the address and the whole stretch from there.
    Stray = 14,
    // The frame is not out.
    NotOut = 15,
}
