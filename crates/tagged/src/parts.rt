// Parts of a file, for the listing.
ghost use Rattle.std.specs.Prelude.{◌≡◌, ◌+◌, ◌^◌, ◌≤◌, length};
ghost use Rattle.tagged.specs.Parts.{name_in};

use crate::bytes::from;
use crate::declarations::fixed_bytes;
use crate::sorts::Sort;
use crate::walk::fields_of;

// From a first byte to the byte past the last.
#[derive(Clone, Copy, Debug, PartialEq, Eq, Hash)]
pub struct Part {
    pub start: usize,
    pub end: usize,
}

// The part of a name, by its variable's number, in a list of declarations whose first byte stands at `base`; without such a variable, nothing at the
// end of the list.
#[tactic(auto, using(crate::proofs::DeclarationWalks::declared_fields, crate::proofs::DeclarationWalks::declared_here, crate::proofs::DeclarationWalks::declared_end, crate::proofs::DeclarationWalks::declared_none, crate::proofs::DeclarationLaws::name_in_lem, crate::proofs::DeclarationLaws::not_declaration), unfolding(crate::specs::Parts::name_in, crate::specs::Parts::first_name))]
pub fn name_in(list: &[u8], base: usize, number: usize) -> Part
    requires { base + length list.now ≤ 2 ^ 40 }
    ensures { result ≡ name_in base number list.now }
{
    let mut left = number;
    for field in fields_of(list, base) {
        let Sort::Declaration(sort) = field.sort else {
            break;
        };
        if left == 0 {
            let end = field.place + 3 + field.payload.len();
            let name = from(field.payload, fixed_bytes(sort));
            return Part {
                start: end - name.len(),
                end,
            };
        }
        left -= 1;
    }
    let end = base + list.len();
    Part { start: end, end }
}
