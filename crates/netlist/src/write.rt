// Writing operands, cells, drives and the outer header into a lent buffer: only where there is room, and always advancing.
ghost use Rattle.std.specs.Prelude.{◌≡◌, [], ◌∷◌, ◌+◌, ◌*◌, ◌^◌, ◌≤◌, length};
ghost use Rattle.tagged.specs.Bytes.{two_bytes, four_bytes, Wrote};
ghost use Rattle.tagged.specs.Sorts.{tag_of, cell_tag};
ghost use Rattle.tagged.specs.Fields.{all_bytes_of};
ghost use Rattle.tagged.specs.declared.sorts.Sort.TheVariants as Sort;
ghost use Rattle.netlist.specs.Lists.{present};
ghost use Rattle.netlist.specs.Form.{operand_bytes, slot_bytes, cell_bytes, drive_bytes};

use crate::{Cell, Drive, Operand, Slot};
use tagged::bytes::{put_byte, put_four, put_two};
use tagged::sorts::CellSort;
use words::{OneOperand, TwoOperand};

// The tag of a drive.
const DRIVE: u8 = 0x40;

// The tag of a netlist, the outer field.
const NETLIST: u8 = 0x81;

// The tag of a cell of one operand.
fn tag_of_one(op: OneOperand) -> u8
    ensures { result ≡ cell_tag (CellSort.One op) }
{
    match op {
        OneOperand::Not => 0x30,
        OneOperand::Parity => 0x3A,
    }
}

// The tag of a cell of two operands.
fn tag_of_two(op: TwoOperand) -> u8
    ensures { result ≡ cell_tag (CellSort.Two op) }
{
    match op {
        TwoOperand::And => 0x31,
        TwoOperand::Or => 0x32,
        TwoOperand::Xor => 0x33,
        TwoOperand::Add => 0x34,
        TwoOperand::Equal => 0x35,
    }
}

// The tag of a cell, 30 to 3A.
pub fn tag_of_cell(sort: CellSort) -> u8
    ensures { result ≡ cell_tag sort }
{
    match sort {
        CellSort::One(op) => tag_of_one(op),
        CellSort::Two(op) => tag_of_two(op),
        CellSort::Mux => 0x36,
        CellSort::Put => 0x37,
        CellSort::FixedBit => 0x38,
        CellSort::ChosenBit => 0x39,
    }
}

// Writes a field's header, for a payload of so many bytes; the index past it.
fn put_header(out: &mut [u8], at: usize, tag: u8, size: u32) -> usize
    requires { at + 3 ≤ 2 ^ 40 }
    ensures { Wrote out.old at (tag ∷ two_bytes size) out.new result }
{
    let second = put_byte(out, at, tag);
    put_two(out, second, size)
}

// Writes the outer field's header, for a payload of so many bytes; the index past it.
#[tactic(auto, unfolding(tagged::specs::Sorts::tag_of))]
pub fn put_head(out: &mut [u8], at: usize, size: u32) -> usize
    requires { at + 3 ≤ 2 ^ 40 }
    ensures { Wrote out.old at (tag_of Sort.Netlist ∷ two_bytes size) out.new result }
{
    put_header(out, at, NETLIST, size)
}

// Writes an operand's kind, width and number; the index past them.
fn put_kind(out: &mut [u8], at: usize, kind: u8, width: u8, number: u32) -> usize
    requires { at + 6 ≤ 2 ^ 40 }
    ensures { Wrote out.old at (kind ∷ width ∷ four_bytes number) out.new result }
{
    let second = put_byte(out, at, kind);
    let third = put_byte(out, second, width);
    put_four(out, third, number)
}

// Writes an operand, so far as there is room; the index past it.
#[tactic(auto, using(crate::proofs::PutLaws::wrote_as), unfolding(crate::specs::Form::operand_bytes))]
pub fn put_operand(out: &mut [u8], at: usize, operand: Operand) -> usize
    requires { at + 6 ≤ 2 ^ 40 }
    ensures { Wrote out.old at (operand_bytes operand) out.new result }
{
    match operand {
        Operand::Constant(width, number) => put_kind(out, at, 0, width, number),
        Operand::Variable(width, number) => put_kind(out, at, 1, width, number),
        Operand::Cell(width, number) => put_kind(out, at, 2, width, number),
    }
}

// Writes a slot, if there is one, so far as there is room; the index past it.
#[tactic(auto, using(crate::proofs::PutLaws::wrote_as, tagged::proofs::WriteLaws::wrote_none), unfolding(tagged::specs::Fields::all_bytes_of))]
fn put_slot(out: &mut [u8], at: usize, slot: Option<Slot>) -> usize
    requires { at + 6 ≤ 2 ^ 40 }
    ensures { Wrote out.old at (all_bytes_of slot_bytes (present (slot ∷ []))) out.new result }
{
    match slot {
        Some(Slot::Operand(operand)) => put_operand(out, at, operand),
        Some(Slot::Byte(byte)) => put_byte(out, at, byte),
        None => at,
    }
}

// Writes slots, so far as there is room; the index past them.
#[tactic(auto, using(tagged::proofs::WriteLaws::wrote_none), unfolding(tagged::specs::Fields::all_bytes_of))]
fn put_slots(out: &mut [u8], at: usize, slots: &[Option<Slot>]) -> usize
    requires { at + 6 * length slots.now ≤ 2 ^ 40 }
    ensures { Wrote out.old at (all_bytes_of slot_bytes (present slots.now)) out.new result }
{
    let mut place = at;
    for slot in slots {
        place = put_slot(out, place, *slot);
    }
    place
}

// How many bytes a cell takes: its header, its width, six for each operand, and one for a bit number.
#[tactic(auto, using(crate::proofs::PutLaws::cell_size_lem))]
fn cell_size(cell: Cell) -> usize
    ensures { result ≡ length (cell_bytes cell) }
{
    match cell {
        Cell::One(_, _, _) => 10,
        Cell::Two(_, _, _, _) | Cell::ChosenBit(_, _, _) => 16,
        Cell::Mux(_, _, _, _) => 22,
        Cell::Put(_, _, _, _) => 17,
        Cell::FixedBit(_, _, _) => 11,
    }
}

// Writes a cell byte by byte, so far as there is room; the index past it.
#[tactic(auto, using(crate::proofs::CellBytes::cell_length, crate::proofs::PutLaws::cell_size_lem), unfolding(tagged::specs::Bytes::two_bytes))]
fn put_cell_bytes(out: &mut [u8], at: usize, cell: Cell) -> usize
    requires { at + 22 ≤ 2 ^ 40 }
    ensures { Wrote out.old at (cell_bytes cell) out.new result }
{
    let size = cell_size(cell) - 3;
    let first = put_header(out, at, tag_of_cell(cell.sort()), size as u32);
    let second = put_byte(out, first, cell.width());
    put_slots(out, second, &cell.slots())
}

// Writes a cell, so far as there is room; the index past it. Where there is none, as in a pass that only measures, it is not looked at byte by byte.
#[tactic(auto, using(crate::proofs::CellBytes::cell_length, tagged::proofs::WriteLaws::wrote_outside))]
pub fn put_cell(out: &mut [u8], at: usize, cell: Cell) -> usize
    requires { at + 22 ≤ 2 ^ 40 }
    ensures { Wrote out.old at (cell_bytes cell) out.new result }
{
    if out.len() <= at {
        at + cell_size(cell)
    } else {
        put_cell_bytes(out, at, cell)
    }
}

// Writes a drive, so far as there is room; the index past it.
#[tactic(auto, unfolding(tagged::specs::Bytes::two_bytes))]
pub fn put_drive(out: &mut [u8], at: usize, drive: Drive) -> usize
    requires { at + 10 ≤ 2 ^ 40 }
    ensures { Wrote out.old at (drive_bytes drive) out.new result }
{
    let past = put_header(out, at, DRIVE, 7);
    let next = put_byte(out, past, drive.variable);
    put_operand(out, next, drive.operand)
}
