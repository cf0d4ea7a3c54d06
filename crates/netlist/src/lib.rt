// Netlists: declarations, cells in order, and one drive for each register.
#![tactic(auto)]

pub mod cycle;
pub mod form;
pub mod parts;
pub mod reading;
pub mod rules;
pub mod write;

ghost use Rattle.std.specs.Prelude.{◌≡◌, length};
ghost use Rattle.tagged.specs.Answers.{Promise, acceptance};
ghost use Rattle.tagged.specs.Rows.{row_answer};
ghost use Rattle.netlist.specs.Lists.{operand_width, cell_sort_of, cell_width, cell_slots, present};
ghost use Rattle.netlist.specs.Answer.{netlist_answer};
ghost use Rattle.netlist.specs.Run.{file_widths, run_answer, run_leaves};

use crate::cycle::write_cycle;
use crate::form::netlist_form;
use crate::rules::lists_answer;
use tagged::answers::Refusal;
use tagged::bytes::{from, front};
use tagged::declarations::variable_table;
use tagged::files::file_answer;
use tagged::limits::LONGEST_NETLIST;
use tagged::rows::row_answer;
use tagged::sorts::CellSort;
use words::{OneOperand, TwoOperand};

// What a cell or a drive takes: its width, and a constant's value or the number of a variable or of a cell.
#[derive(Clone, Copy, Debug, PartialEq, Eq, Hash)]
pub enum Operand {
    Constant(u8, u32),
    Variable(u8, u32),
    Cell(u8, u32),
}

// The eleven cells, 30 to 3A: the width first, then the operands in the order of the file.
#[derive(Clone, Copy, Debug, PartialEq, Eq, Hash)]
pub enum Cell {
    One(OneOperand, u8, Operand),
    Two(TwoOperand, u8, Operand, Operand),
    // Condition, when 1, when 0.
    Mux(u8, Operand, Operand, Operand),
    // Vector, bit number, bit.
    Put(u8, Operand, u8, Operand),
    // Vector, bit number.
    FixedBit(u8, Operand, u8),
    // Vector, index.
    ChosenBit(u8, Operand, Operand),
}

// What a cell's payload holds after its width byte: operands and single bytes.
#[derive(Clone, Copy, Debug, PartialEq, Eq, Hash)]
pub enum Slot {
    Operand(Operand),
    Byte(u8),
}

// The new value of a register.
#[derive(Clone, Copy, Debug, PartialEq, Eq, Hash)]
pub struct Drive {
    pub variable: u8,
    pub operand: Operand,
}

impl Operand {
    // Its width, whatever its kind.
    pub fn width(self) -> u8
        ensures { result ≡ operand_width self }
    {
        match self {
            Operand::Constant(width, _) | Operand::Variable(width, _) | Operand::Cell(width, _) => {
                width
            }
        }
    }
}

impl Cell {
    // Its sort, by which it has its tag.
    pub fn sort(self) -> CellSort
        ensures { result ≡ cell_sort_of self }
    {
        match self {
            Cell::One(op, _, _) => CellSort::One(op),
            Cell::Two(op, _, _, _) => CellSort::Two(op),
            Cell::Mux(_, _, _, _) => CellSort::Mux,
            Cell::Put(_, _, _, _) => CellSort::Put,
            Cell::FixedBit(_, _, _) => CellSort::FixedBit,
            Cell::ChosenBit(_, _, _) => CellSort::ChosenBit,
        }
    }

    // Its own width.
    pub fn width(self) -> u8
        ensures { result ≡ cell_width self }
    {
        match self {
            Cell::One(_, width, _)
            | Cell::Two(_, width, _, _)
            | Cell::Mux(width, _, _, _)
            | Cell::Put(width, _, _, _)
            | Cell::FixedBit(width, _, _)
            | Cell::ChosenBit(width, _, _) => width,
        }
    }

    // Its slots, in the order of the file: at most three.
    pub fn slots(self) -> [Option<Slot>; 3]
        ensures { present result ≡ cell_slots self }
    {
        match self {
            Cell::One(_, _, first) => [Some(Slot::Operand(first)), None, None],
            Cell::Two(_, _, first, second) => {
                [
                    Some(Slot::Operand(first)),
                    Some(Slot::Operand(second)),
                    None,
                ]
            }
            Cell::Mux(_, condition, one, zero) => [
                Some(Slot::Operand(condition)),
                Some(Slot::Operand(one)),
                Some(Slot::Operand(zero)),
            ],
            Cell::Put(_, vector, number, bit) => [
                Some(Slot::Operand(vector)),
                Some(Slot::Byte(number)),
                Some(Slot::Operand(bit)),
            ],
            Cell::FixedBit(_, vector, number) => {
                [Some(Slot::Operand(vector)), Some(Slot::Byte(number)), None]
            }
            Cell::ChosenBit(_, vector, index) => {
                [
                    Some(Slot::Operand(vector)),
                    Some(Slot::Operand(index)),
                    None,
                ]
            }
        }
    }
}

// The answer of a netlist's file: refusals 1 to 8 and 12.
#[tactic(auto, using(tagged::proofs::FileLaws::file_long, tagged::proofs::FileLaws::form_whole), unfolding(crate::specs::Answer::netlist_answer, crate::specs::Form::netlist_form))]
pub fn read(file: &[u8]) -> Result<(), Refusal>
    ensures { result ≡ netlist_answer file.now }
{
    file_answer::<LONGEST_NETLIST>(file)?;
    netlist_form(file)?;
    lists_answer(file)
}

// The answer of a row that is read and of the length of a row that is written, for an accepted netlist: refusal 14.
#[tactic(auto, using(tagged::proofs::TableLaws::widths_all, crate::proofs::CallLaws::accepted_long, crate::proofs::CallLaws::variables_told, crate::proofs::CallLaws::widths_told, crate::proofs::CycleWritten::part_short))]
fn rows_answer(file: &[u8], row: &[u8], next_length: usize) -> Result<(), Refusal>
    requires { netlist_answer file.now ≡ acceptance }
    ensures { result ≡ row_answer (file_widths file.now) row.now next_length }
{
    let table = variable_table(from(file, 3));
    row_answer(table.widths(), row, next_length)
}

// One cycle of a netlist, from a row into another: refusals 1 to 8, 12 and 14. A refusal leaves the second row as it was.
#[tactic(auto, unfolding(crate::specs::Run::run_answer, crate::specs::Run::run_leaves, tagged::specs::Runs::run_answer_of))]
pub fn run(file: &[u8], row: &[u8], next: &mut [u8]) -> Result<(), Refusal>
    ensures { Promise (run_answer file.now row.now (length next.old))
        (run_leaves file.now row.now next.old) result next.new }
{
    read(file)?;
    rows_answer(file, row, next.len())?;
    write_cycle(file, row, next);
    Ok(())
}
