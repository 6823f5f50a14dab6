// The laws of a pool, over every list of calls.
//
// Each function does nothing; its contract is a law, and its proof is the law's proof. The laws hold at every geometry,
// over every bank's meaning, every lawful pairing in every condition (of the type C) and every seed. What they speak of,
// plays, histories, books, readings and counts, is defined in specs/.
#![tactic(auto)]

ghost use Rattle.laws.specs.Laws.{ReadingLaw, SameReadingsLaw, FrameLaw, ShapeLaw, AddressLaw, TotalLaw, RefusalLaw, MergeLaw, CountLaw};

// After every list of calls exactly the book's labels are accepted, each with its string's length and, by read and by
// fetch at its first address, its string's bytes.
pub fn reading_law<C>()
    ensures { ReadingLaw C }
{}

// Two pools, after any lists of calls, give equal readings exactly when their books are equal.
pub fn same_readings_law<C, D>()
    ensures { SameReadingsLaw C D }
{}

// Two pools started alike and given lists of calls alike in all but the bytes written hold equal bytes in every frame
// exactly when their readings are equal.
pub fn frame_law<C, D>()
    ensures { FrameLaw C D }
{}

// After every list of calls the pool's tables and its bank fit together: no two live patches share a byte, every set
// mask bit has one owner, no frame that is out is empty, and bytes that no live patch owns are zero.
pub fn shape_law<C>()
    ensures { ShapeLaw C }
{}

// A live patch keeps its address through every call but its own delete.
pub fn address_law<C>()
    ensures { AddressLaw C }
{}

// The ways that the definitions of the calls have only to be total are never taken.
pub fn total_law<C>()
    ensures { TotalLaw C }
{}

// A refused call leaves the whole pool as it was.
pub fn refusal_law<C>()
    ensures { RefusalLaw C }
{}

// What mesh answers is what it did, and each merge copies at most half a frame.
pub fn merge_law<C>()
    ensures { MergeLaw C }
{}

// Frames out, merges and frames emptied are as many as spans opened, each summed from the answers given; and frames out
// are no more than the different spans in which a label of the book has its first address.
pub fn count_law<C>()
    ensures { CountLaw C }
{}
