// Where a cell stands in a file, for the listing.
ghost use Rattle.std.specs.Prelude.{◌≡◌, ◌+◌, ◌^◌, ◌≤◌, length};
ghost use Rattle.netlist.specs.Parts.{part_in, cell_part};

use tagged::bytes::from;
use tagged::declarations::declared_bytes;
use tagged::parts::Part;
use tagged::sorts::Sort;
use tagged::walk::fields_of;

// The part of a cell, in a list of cells whose first byte stands at `base`; without such a cell, nothing at the end of the list.
#[tactic(auto, using(crate::proofs::Listed::cells_fields, crate::proofs::Listed::cell_here, crate::proofs::Listed::cells_end, crate::proofs::Listed::cells_none, crate::proofs::FormLaws::not_cell), unfolding(crate::specs::Parts::part_in, crate::specs::Parts::first_part))]
fn part_in(list: &[u8], base: usize, number: usize) -> Part
    requires { base + length list.now ≤ 2 ^ 40 }
    ensures { result ≡ part_in base number list.now }
{
    let mut left = number;
    for field in fields_of(list, base) {
        let Sort::Cell(_) = field.sort else {
            break;
        };
        if left == 0 {
            return Part {
                start: field.place,
                end: field.place + 3 + field.payload.len(),
            };
        }
        left -= 1;
    }
    let end = base + list.len();
    Part { start: end, end }
}

// The part of a file that holds the cell of this number; without such a cell, nothing at its end.
#[tactic(auto, using(crate::proofs::PartLaws::bytes_short, crate::proofs::PartLaws::part_of_file))]
pub fn cell_part(file: &[u8], number: usize) -> Part
    requires { length file.now ≤ 2 ^ 40 }
    ensures { result ≡ cell_part number file.now }
{
    let payload = from(file, 3);
    let bytes = declared_bytes(payload);
    part_in(from(payload, bytes), 3 + bytes, number)
}
