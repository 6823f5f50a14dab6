// A shuffle by draws.
ghost use Rattle.std.specs.Prelude.{◌≡◌, ◌+◌, ◌%◌, ◌<◌, length};
ghost use Rattle.std.specs.List.{swap};
ghost use Rattle.std.specs.List.Sorted.{IsPermutation};
ghost use Rattle.draws.specs.Draws.{next};
ghost use Rattle.draws.specs.Shuffle.{shuffled};

use crate::Draws;

// Shuffles a row: for i from the last place down to 1 draws r, and exchanges the entries i and r mod (i + 1).
// The row afterwards has the same entries, in an order that exchanges reach, so none is lost and none comes twice.
// The loop goes by place, since a turn exchanges two places of the row, and an iterator lends one entry at a time.
pub fn shuffle<T>(row: &mut [T], draws: &mut Draws)
    ensures exchanges { (row.new, draws.new.state) ≡ shuffled row.old draws.old.state }
    ensures same { IsPermutation row.old row.new }
{
    for i in (1..row.len()).rev() {
        exchange(row, i, draws);
    }
}

// One turn of a shuffle: draws r, and exchanges the entries i and r mod (i + 1).
fn exchange<T>(row: &mut [T], i: usize, draws: &mut Draws)
    requires { i < length row.old }
    ensures row { row.new ≡ swap row.old i (next draws.old.state % (i + 1)) }
    ensures state { draws.new.state ≡ next draws.old.state }
{
    let r = draws.draw() as usize;
    row.swap(i, r % (i + 1));
}
