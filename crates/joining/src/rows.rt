// The joining of two rows: one text for every kind of element that joins.
ghost use Rattle.std.specs.Prelude.{◌≡◌, true, length, is_some, Ok};
ghost use Rattle.joining.specs.Rows.{rows as row_join, rows_joined, RowsKeepLaws};

use crate::element::Join;
use refusal::Refusal;

// Joins the second row to the first, place by place: ROW where their lengths differ, CLASH where some place clashes.
// A refusal leaves the first row as it was, so every place is tested before one is written.
pub fn join_rows<T: Join + Copy>(first: &mut [T], second: &[T]) -> Result<(), Refusal>
    ensures { (result, first.new) ≡ rows_joined T.joined first.old second.now }
{
    if first.len() != second.len() {
        return Err(Refusal::Row);
    }
    if !rows_join(first, second) {
        return Err(Refusal::Clash);
    }
    write_joined(first, second);
    Ok(())
}

// Whether two rows of one length join.
fn rows_join<T: Join + Copy>(first: &[T], second: &[T]) -> bool
    requires { length first.now ≡ length second.now }
    ensures { result ≡ is_some (row_join T.joined first.now second.now) }
{
    first.iter().zip(second).all(|(a, b)| a.join(*b).is_some())
}

// Writes the join over each element of the first row. The rows have been found to join.
fn write_joined<T: Join + Copy>(first: &mut [T], second: &[T])
    requires same { length first.old ≡ length second.now }
    requires joins { is_some (row_join T.joined first.old second.now) ≡ true }
    ensures { (Ok tt, first.new) ≡ rows_joined T.joined first.old second.now }
{
    // After a loop over `first.iter_mut().zip(second)`, a proof knows no element of the first row (tried).
    for (i, a) in first.iter_mut().enumerate() {
        *a = a.join(second[i]).unwrap_or(*a);
    }
}

// Rows of elements that keep the laws keep them too.
pub fn rows_keep_the_laws<T: Join>()
    ensures { RowsKeepLaws T.joined T.empty }
{}
