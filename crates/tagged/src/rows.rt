// Rows: four bytes for each variable, high byte first, in variable order; read, written, and tested for refusal 14.
ghost use Rattle.std.specs.Prelude.{◌≡◌, ◌≤◌, length};
ghost use Rattle.std.proofs.lemmas.List.Edits.{sets};
ghost use Rattle.tagged.specs.Limits.{most_variables};
ghost use Rattle.tagged.specs.Rows.{row_bytes, row_numbers, rows_fit, row_answer};

use crate::answers::{Refusal, Rule};
use crate::bytes::{four_of, from, put_four};
use words::fits;

// Has each row one number per variable, and fits every number of the row that is read?
fn rows_fit(widths: &[u8], row: &[u8], next_length: usize) -> bool
    requires { length widths.now ≤ most_variables }
    ensures { result ≡ rows_fit widths.now row.now next_length }
{
    if row.len() != 4 * widths.len() || next_length != 4 * widths.len() {
        return false;
    }
    for (at, width) in widths.iter().enumerate() {
        if !fits(*width, four_of(from(row, 4 * at))) {
            return false;
        }
    }
    true
}

// Refusal 14, or acceptance.
#[tactic(auto, unfolding(crate::specs::Rows::row_answer))]
pub fn row_answer(widths: &[u8], row: &[u8], next_length: usize) -> Result<(), Refusal>
    requires { length widths.now ≤ most_variables }
    ensures { result ≡ row_answer widths.now row.now next_length }
{
    if rows_fit(widths, row, next_length) {
        Ok(())
    } else {
        Err(Refusal {
            rule: Rule::Row,
            place: 0,
        })
    }
}

// Reads as many numbers of a row as there are values; what is missing counts as 0.
pub fn read_row(row: &[u8], values: &mut [u32])
    requires { length values.old ≤ 65536 }
    ensures { values.new ≡ row_numbers (length values.old) row.now }
{
    for at in 0..values.len() {
        values[at] = four_of(from(row, 4 * at));
    }
}

// Writes the values as a row, so far as there is room.
pub fn write_row(values: &[u32], next: &mut [u8])
    requires { length values.now ≤ 65536 }
    ensures { next.new ≡ sets next.old 0 (row_bytes values.now) }
{
    let mut place: usize = 0;
    for value in values {
        place = put_four(next, place, *value);
    }
}
