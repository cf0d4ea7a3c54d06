// One cycle of an accepted module, from a row that fits into another.
ghost use Rattle.std.specs.Prelude.{◌≡◌, ◌^◌, ◌≤◌, length};
ghost use Rattle.tagged.specs.Answers.{acceptance};
ghost use Rattle.tagged.specs.Limits.{most_variables};
ghost use Rattle.tagged.specs.Declarations.{after_declarations};
ghost use Rattle.tagged.specs.Rows.{row_answer};
ghost use Rattle.tagged.specs.Runs.{row_left};
ghost use Rattle.verilog.specs.Answer.{module_answer};
ghost use Rattle.verilog.specs.Run.{file_widths, cycle_of};
ghost use Rattle.verilog_run.specs.Execution.{widths_of, state_of, begun, run_processes, settled_state};

use crate::execute::processes;
use crate::variables::Variable;
use tagged::bytes::from;
use tagged::declarations::{declared_bytes, variable_table};
use tagged::limits::MOST_VARIABLES;
use tagged::rows::{read_row, write_row};
use verilog_check::assignments::First;
use verilog_check::survey::survey;

// The variables of these widths begin with the row's numbers, each as both its values.
#[tactic(auto, using(crate::proofs::VariableLaws::column_turn, crate::proofs::VariableLaws::column_done))]
fn begin(widths: &[u8], numbers: &[u32], variables: &mut [Variable])
    requires { (length variables.old ≡ length numbers.now) × (length widths.now ≡ length numbers.now) }
    ensures widths { widths_of variables.new ≡ widths.now }
    ensures values { state_of variables.new ≡ begun numbers.now }
{
    for (at, number) in numbers.iter().enumerate() {
        variables[at] = Variable {
            width: widths[at],
            current: *number,
            pending: *number,
        };
    }
}

// At the end a register assigned by non-blocking anywhere takes its pending value, any other its current value.
#[tactic(auto, using(crate::proofs::SettledLaws::settled_turn, crate::proofs::SettledLaws::settled_done))]
fn settle(firsts: &[Option<First>], variables: &[Variable], numbers: &mut [u32])
    requires { (length variables.now ≤ length firsts.now) × (length numbers.old ≡ length variables.now) }
    ensures { numbers.new ≡ settled_state firsts.now (state_of variables.now) }
{
    for (at, variable) in variables.iter().enumerate() {
        numbers[at] = variable.settled(firsts[at]);
    }
}

// Runs the processes of a list from these numbers on, which are left as the cycle leaves them.
fn run_processes(list: &[u8], widths: &[u8], firsts: &[Option<First>], numbers: &mut [u32])
    requires { (length list.now ≤ 2 ^ 40) × (length numbers.old ≤ most_variables) × (length widths.now ≡ length numbers.old) × (length firsts.now ≡ most_variables) }
    ensures { numbers.new ≡ settled_state firsts.now (run_processes widths.now list.now (begun numbers.old)) }
{
    let mut variables = [Variable::default(); MOST_VARIABLES];
    let variables = &mut variables[..numbers.len()];
    begin(widths, numbers, variables);
    processes(list, variables);
    settle(firsts, variables, numbers);
}

// The processes of a module, which follow its declarations.
fn process_list(payload: &[u8]) -> &[u8]
    requires { length payload.now ≤ 2 ^ 40 }
    ensures list { result.now ≡ after_declarations payload.now }
    ensures within { length result.now ≤ length payload.now }
{
    from(payload, declared_bytes(payload))
}

// One cycle of a module that is accepted, from a row that fits, into a row of the same length.
#[tactic(auto, using(crate::proofs::CycleWritten::payload_bound, crate::proofs::CycleWritten::count_bound, crate::proofs::CycleWritten::table_room))]
pub fn write_cycle(file: &[u8], row: &[u8], next: &mut [u8])
    requires { (module_answer file.now ≡ acceptance) × (row_answer (file_widths file.now) row.now (length next.old) ≡ acceptance) }
    ensures { next.new ≡ row_left acceptance (cycle_of file.now row.now) next.old }
{
    let payload = from(file, 3);
    let list = process_list(payload);
    let table = variable_table(payload);
    let mut firsts = [None; MOST_VARIABLES];
    survey(list, &mut firsts);
    let mut numbers = [0u32; MOST_VARIABLES];
    let numbers = &mut numbers[..table.count];
    read_row(row, numbers);
    run_processes(list, table.widths(), &firsts, numbers);
    write_row(numbers, next);
}
