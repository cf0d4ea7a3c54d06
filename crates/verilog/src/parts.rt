// Where a variable's name stands in a file, for the listing.
ghost use Rattle.std.specs.Prelude.{◌≡◌, ◌^◌, ◌≤◌, length};
ghost use Rattle.verilog.specs.Parts.{name_part};

use tagged::bytes::from;
use tagged::parts::{Part, name_in};

// The part of a file that holds the name of the variable of this number; without such a variable, nothing at its end.
#[tactic(auto, unfolding(crate::specs::Parts::name_part))]
pub fn name_part(file: &[u8], number: usize) -> Part
    requires { length file.now ≤ 2 ^ 40 }
    ensures { result ≡ name_part number file.now }
{
    name_in(from(file, 3), 3, number)
}
