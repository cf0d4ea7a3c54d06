// Operands, cells and drives read from parts of a netlist file, by total functions: what is missing counts as 0.
ghost use Rattle.std.specs.Prelude.{◌≡◌, drop};
ghost use Rattle.netlist.specs.Reading.{operand_of, operand_in, cell_in, drive_in};

use crate::{Cell, Drive, Operand};
use tagged::bytes::{four_of, from, get_or, number_of_four};
use tagged::sorts::CellSort;

// The operand of this kind and width.
fn operand_of(kind: u8, width: u8, number: u32) -> Operand
    ensures { result ≡ operand_of kind width number }
{
    match kind {
        0 => Operand::Constant(width, number),
        1 => Operand::Variable(width, number),
        _ => Operand::Cell(width, number),
    }
}

// The operand in the first six bytes; what is missing counts as 0.
#[tactic(auto, unfolding(crate::specs::Reading::operand_in, tagged::specs::Bytes::four_of))]
pub fn operand_in(part: &[u8]) -> Operand
    ensures { result ≡ operand_in part.now }
{
    match part {
        &[kind, width, a, b, c, d, ..] => operand_of(kind, width, number_of_four(a, b, c, d)),
        _ => operand_of(
            get_or(part, 0, 0),
            get_or(part, 1, 0),
            four_of(from(part, 2)),
        ),
    }
}

// The operand that starts at an index of a payload.
fn operand_at(payload: &[u8], start: usize) -> Operand
    ensures { result ≡ operand_in (drop start payload.now) }
{
    operand_in(from(payload, start))
}

// The cell in a payload.
pub fn cell_in(sort: CellSort, payload: &[u8]) -> Cell
    ensures { result ≡ cell_in sort payload.now }
{
    let width = get_or(payload, 0, 0);
    let first = operand_at(payload, 1);
    match sort {
        CellSort::One(op) => Cell::One(op, width, first),
        CellSort::Two(op) => Cell::Two(op, width, first, operand_at(payload, 7)),
        CellSort::Mux => Cell::Mux(
            width,
            first,
            operand_at(payload, 7),
            operand_at(payload, 13),
        ),
        CellSort::Put => Cell::Put(width, first, get_or(payload, 7, 0), operand_at(payload, 8)),
        CellSort::FixedBit => Cell::FixedBit(width, first, get_or(payload, 7, 0)),
        CellSort::ChosenBit => Cell::ChosenBit(width, first, operand_at(payload, 7)),
    }
}

// The drive in a payload.
pub fn drive_in(payload: &[u8]) -> Drive
    ensures { result ≡ drive_in payload.now }
{
    Drive {
        variable: get_or(payload, 0, 0),
        operand: operand_at(payload, 1),
    }
}
