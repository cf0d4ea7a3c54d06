// Refusal 1: a file's length, and its outer field's.
ghost use Rattle.std.specs.Prelude.{◌≡◌};
ghost use Rattle.tagged.specs.Files.{file_answer, outer_fits};

use crate::answers::{Refusal, Rule};
use crate::bytes::{get_or, number_of_two};
use crate::limits::SHORTEST_FILE;
use words::limits::Limited;

// Refusal 1 of a file that may have at most `LONGEST` bytes, or acceptance.
#[tactic(auto, unfolding(crate::specs::Files::file_answer, crate::specs::Files::outer_answer))]
pub fn file_answer<const LONGEST: usize>(file: &[u8]) -> Result<(), Refusal>
    ensures { result ≡ file_answer LONGEST file.now }
{
    if Limited::<SHORTEST_FILE, LONGEST>::new(file.len()).is_some() && outer_fits(file) {
        Ok(())
    } else {
        Err(Refusal {
            rule: Rule::FileLength,
            place: 0,
        })
    }
}

// The outer length has to be the rest of the file.
#[tactic(auto, unfolding(crate::specs::Bytes::number_of_two))]
fn outer_fits(file: &[u8]) -> bool
    ensures { result ≡ outer_fits file.now }
{
    number_of_two(get_or(file, 1, 0), get_or(file, 2, 0)) + 3 == file.len()
}
