// One cycle of a module, from a row into another: refusals 1 to 11 and 14.
#![tactic(auto)]

pub mod cycle;
pub mod evaluate;
pub mod execute;
pub mod variables;

ghost use Rattle.std.specs.Prelude.{◌≡◌, length};
ghost use Rattle.tagged.specs.Answers.{acceptance, Promise};
ghost use Rattle.tagged.specs.Rows.{row_answer};
ghost use Rattle.verilog.specs.Answer.{module_answer};
ghost use Rattle.verilog.specs.Run.{file_widths, run_answer, run_leaves};

use crate::cycle::write_cycle;
use tagged::answers::Refusal;
use tagged::bytes::from;
use tagged::declarations::variable_table;
use tagged::rows::row_answer;
use verilog_check::check;

// The answer of a row that is read and of the length of a row that is written, for an accepted module: refusal 14.
#[tactic(auto, using(crate::proofs::CycleWritten::payload_bound, crate::proofs::CycleWritten::count_bound, crate::proofs::CycleWritten::table_widths))]
fn rows_answer(file: &[u8], row: &[u8], next_length: usize) -> Result<(), Refusal>
    requires { module_answer file.now ≡ acceptance }
    ensures { result ≡ row_answer (file_widths file.now) row.now next_length }
{
    let table = variable_table(from(file, 3));
    row_answer(table.widths(), row, next_length)
}

// One cycle of a module, from a row into another: refusals 1 to 11 and 14. A refusal leaves the second row as it was.
#[tactic(auto, unfolding(verilog::specs::Run::run_answer, verilog::specs::Run::run_leaves, tagged::specs::Runs::run_answer_of))]
pub fn run(file: &[u8], row: &[u8], next: &mut [u8]) -> Result<(), Refusal>
    ensures { Promise (run_answer file.now row.now (length next.old))
        (run_leaves file.now row.now next.old) result next.new }
{
    check(file)?;
    rows_answer(file, row, next.len())?;
    write_cycle(file, row, next);
    Ok(())
}
