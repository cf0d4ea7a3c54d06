// The listing: the bytes behind an operand, as a part of one of two lent files.
#![tactic(auto)]

ghost use Rattle.std.specs.Prelude.{◌≡◌};
ghost use Rattle.listing.specs.Listing.{settled_part, module_part, netlist_part, listed_part, part_bytes, listed_bytes};

use netlist::parts::cell_part;
use tagged::bytes::{from, front};
use tagged::parts::Part;
use verilog::parts::name_part;

// Which file a part lies in, with its first byte and the byte past its last.
#[derive(Clone, Copy, Debug, PartialEq, Eq, Hash)]
pub enum Listed {
    Module(usize, usize),
    Netlist(usize, usize),
}

// A part that holds nothing is the one at the front of its file.
#[tactic(auto, unfolding(crate::specs::Listing::settled_part))]
fn settled(part: Part) -> Part
    ensures { result ≡ settled_part part }
{
    if part.start == part.end {
        Part { start: 0, end: 0 }
    } else {
        part
    }
}

// The part of a module's file that holds a variable's name.
#[tactic(auto, using(crate::proofs::ListingSteps::module_short), unfolding(crate::specs::Listing::module_part))]
fn module_part(file: &[u8], number: u32) -> Part
    ensures { result ≡ module_part file.now number }
{
    match verilog_check::check(file) {
        Ok(()) => settled(name_part(file, number as usize)),
        Err(_) => Part { start: 0, end: 0 },
    }
}

// The part of a netlist's file that holds a cell's field.
#[tactic(auto, using(crate::proofs::ListingSteps::netlist_short), unfolding(crate::specs::Listing::netlist_part))]
fn netlist_part(file: &[u8], number: u32) -> Part
    ensures { result ≡ netlist_part file.now number }
{
    match netlist::read(file) {
        Ok(()) => settled(cell_part(file, number as usize)),
        Err(_) => Part { start: 0, end: 0 },
    }
}

// Where the bytes behind an operand lie, by its kind (1 a variable, 2 a cell) and its number.
#[tactic(auto, unfolding(crate::specs::Listing::listed_part))]
pub fn find_part(module: &[u8], netlist: &[u8], kind: u8, number: u32) -> Listed
    ensures { result ≡ listed_part «module».now netlist.now kind number }
{
    match kind {
        1 => {
            let part = module_part(module, number);
            Listed::Module(part.start, part.end)
        }
        2 => {
            let part = netlist_part(netlist, number);
            Listed::Netlist(part.start, part.end)
        }
        _ => Listed::Module(0, 0),
    }
}

// A part of a file, so far as the file reaches.
#[tactic(auto, unfolding(crate::specs::Listing::part_bytes))]
fn part_of(file: &[u8], start: usize, end: usize) -> &[u8]
    ensures { result.now ≡ part_bytes file.now start end }
{
    if start <= end {
        front(from(file, start), end - start)
    } else {
        &file[0..0]
    }
}

// The bytes behind an operand: for a variable its name in the module's file, for a cell its field in the netlist's file; an empty
// part where that file is refused or the operand names nothing.
#[tactic(auto, unfolding(crate::specs::Listing::listed_bytes))]
pub fn listing<'a>(module: &'a [u8], netlist: &'a [u8], kind: u8, number: u32) -> &'a [u8]
    ensures { result.now ≡ listed_bytes «module».now netlist.now kind number }
{
    match find_part(module, netlist, kind, number) {
        Listed::Module(start, end) => part_of(module, start, end),
        Listed::Netlist(start, end) => part_of(netlist, start, end),
    }
}
