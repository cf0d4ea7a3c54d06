// One cycle of an accepted netlist: its cells in order, then its drives, from a row into another.
ghost use Rattle.std.specs.Prelude.{Ok, ◌≡◌, ℕ, ◌^◌, ◌≤◌, length};
ghost use Rattle.tagged.specs.Answers.{acceptance};
ghost use Rattle.tagged.specs.Fields.{unplaced};
ghost use Rattle.tagged.specs.Runs.{row_left};
ghost use Rattle.tagged.specs.Rows.{row_answer};
ghost use Rattle.netlist.specs.Form.{cells_step};
ghost use Rattle.netlist.specs.Reading.{cells_at, drives_at};
ghost use Rattle.netlist.specs.Answer.{netlist_answer};
ghost use Rattle.netlist.specs.Run.{file_widths, cycle_of};
ghost use Rattle.netlist.specs.Numbers.{read_number, cell_number, cell_numbers, driven_numbers};

use crate::reading::{cell_in, drive_in};
use crate::{Cell, Operand};
use tagged::bytes::{from, front, get_or, put_item};
use tagged::declarations::declared_bytes;
use tagged::limits::{MOST_CELLS, MOST_VARIABLES};
use tagged::rows::{read_row, write_row};
use tagged::sorts::Sort;
use tagged::walk::fields_of;
use words::{bit, mux, one_result, put_result, two_result};

// What an operand may name: the numbers of the row, and of the cells before.
#[derive(Clone, Copy)]
struct Numbers<'a> {
    row: &'a [u32],
    cells: &'a [u32],
}

impl<'a> Numbers<'a> {
    // An operand's number.
    #[tactic(auto, unfolding(crate::specs::Numbers::read_number))]
    fn operand(self, operand: Operand) -> u32
        ensures { result ≡ read_number self.entry.row.now self.entry.cells.now operand }
    {
        match operand {
            Operand::Constant(_, number) => number,
            Operand::Variable(_, number) => get_or(self.row, number as usize, 0),
            Operand::Cell(_, number) => get_or(self.cells, number as usize, 0),
        }
    }

    // A cell's number.
    #[tactic(auto, unfolding(crate::specs::Numbers::cell_number))]
    fn cell(self, cell: Cell) -> u32
        ensures { result ≡ cell_number self.entry.row.now self.entry.cells.now cell }
    {
        match cell {
            Cell::One(op, width, a) => one_result(op, width, self.operand(a)),
            Cell::Two(op, width, a, b) => {
                two_result(op, width, self.operand(a), self.operand(b))
            }
            Cell::Mux(_, condition, a, b) => mux(
                self.operand(condition),
                self.operand(a),
                self.operand(b),
            ),
            Cell::Put(_, vector, number, new) => {
                put_result(self.operand(vector), number, self.operand(new))
            }
            Cell::FixedBit(_, vector, number) => bit(self.operand(vector), u32::from(number)),
            Cell::ChosenBit(_, vector, index) => bit(self.operand(vector), self.operand(index)),
        }
    }
}

// Runs the cells of a list, in order: their numbers go into the values, so far as there is room. Where the cells end.
#[tactic(auto, using(crate::proofs::Listed::cells_in, crate::proofs::Listed::cell_here, crate::proofs::Listed::cells_end, crate::proofs::Listed::cells_none, crate::proofs::FormLaws::not_cell), unfolding(crate::specs::Numbers::cell_numbers))]
fn run_cells(list: &[u8], row: &[u32], values: &mut [u32]) -> usize
    requires { length list.now ≤ 2 ^ 40 }
    ensures numbers { values.new ≡ cell_numbers row.now values.old 0 (unplaced (cells_at 0 list.now)) }
    ensures ends { (m : ℕ) → cells_step 0 0 list.now ≡ Ok m → result ≡ m }
{
    let mut count: usize = 0;
    let mut end: usize = 0;
    for field in fields_of(list, 0) {
        let Sort::Cell(sort) = field.sort else {
            break;
        };
        let numbers = Numbers { row, cells: values };
        let number = numbers.cell(cell_in(sort, field.payload));
        put_item(values, count, number);
        count += 1;
        end += 3 + field.payload.len();
    }
    end
}

// Runs the drives of a list: what they name goes into the next row, so far as there is room.
#[tactic(auto, using(crate::proofs::Listed::drives_in, crate::proofs::Listed::drive_here, crate::proofs::Listed::drives_end, crate::proofs::Listed::drives_none, crate::proofs::FormLaws::not_drive), unfolding(crate::specs::Numbers::driven_numbers))]
fn run_drives(list: &[u8], numbers: Numbers, next: &mut [u32])
    requires { length list.now ≤ 2 ^ 40 }
    ensures { next.new ≡ driven_numbers numbers.entry.row.now numbers.entry.cells.now next.old (unplaced (drives_at 0 list.now)) }
{
    for field in fields_of(list, 0) {
        let Sort::Drive = field.sort else {
            break;
        };
        let drive = drive_in(field.payload);
        let number = numbers.operand(drive.operand);
        put_item(next, usize::from(drive.variable), number);
    }
}

// One cycle of a netlist that is accepted, from a row that fits, into a row of the same length.
pub fn write_cycle(file: &[u8], row: &[u8], next: &mut [u8])
    requires { (netlist_answer file.now ≡ acceptance) × (row_answer (file_widths file.now) row.now (length next.old) ≡ acceptance) }
    ensures { next.new ≡ row_left acceptance (cycle_of file.now row.now) next.old }
{
    let payload = from(file, 3);
    let cells = from(payload, declared_bytes(payload));
    let mut before = [0u32; MOST_VARIABLES];
    read_row(row, &mut before);
    let mut values = [0u32; MOST_CELLS];
    let end = run_cells(cells, &before, &mut values);
    let mut after = before;
    let numbers = Numbers {
        row: &before,
        cells: &values,
    };
    run_drives(from(cells, end), numbers, &mut after);
    write_row(front(&after, row.len() / 4), next);
}
