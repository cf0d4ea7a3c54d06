// Statements, which change the current value of a variable at once, or its pending one. `depth` is how many levels of fields may still be opened.
ghost use Rattle.std.specs.Prelude.{◌≡◌, ◌^◌, ◌≤◌, length};
ghost use Rattle.tagged.specs.Fields.{fields_at};
ghost use Rattle.verilog.specs.Reading.{after_front};
ghost use Rattle.verilog_run.specs.Execution.{Runs, run_all, assigned, assigned_bit, item_value, front_block, run_items, statement_run, run_statement, run_block, run_item, run_process, run_processes};

use crate::evaluate::value_of;
use crate::variables::{Variable, change, held_by};
use tagged::bytes::{four_of, from, get_or};
use tagged::fields::open_field;
use tagged::limits::DEEPEST;
use tagged::sorts::{Kind, Sort, StatementSort};
use tagged::walk::fields_of;
use verilog::reading::after_front;
use words::put_result;

// An assignment to a whole variable.
#[tactic(auto, unfolding(crate::specs::Execution::assigned))]
fn assign(kind: Kind, payload: &[u8], depth: usize, variables: &mut [Variable])
    ensures { Runs (λ widths. assigned widths depth kind payload.now) variables.old variables.new }
{
    let variable = get_or(payload, 0, 0);
    let value = value_of(from(payload, 1), depth, variables);
    change(kind, variable, value.number, variables);
}

// An assignment to one bit.
#[tactic(auto, unfolding(crate::specs::Execution::assigned_bit))]
fn assign_bit(kind: Kind, payload: &[u8], depth: usize, variables: &mut [Variable])
    ensures { Runs (λ widths. assigned_bit widths depth kind payload.now) variables.old variables.new }
{
    let variable = get_or(payload, 0, 0);
    let value = value_of(from(payload, 2), depth, variables);
    let old = held_by(kind, variable, variables);
    let new = put_result(old, get_or(payload, 1, 0), value.number);
    change(kind, variable, new, variables);
}

// One statement, by its sort.
#[tactic(auto, using(crate::proofs::ExecutionSteps::statement_step, verilog::proofs::FormLaws::not_statement), unfolding(crate::specs::Execution::run_statement))]
#[cycle(execution)]
fn statement(sort: Sort, payload: &[u8], depth: usize, variables: &mut [Variable])
    requires { length payload.now ≤ 2 ^ 40 }
    ensures { Runs (λ widths. run_statement widths depth sort payload.now) variables.old variables.new }
{
    if depth == 0 {
        return;
    }
    if let Sort::Statement(inner) = sort {
        statement_by(inner, payload, depth - 1, variables);
    }
}

// What a statement does, by its sort.
#[cycle(execution)]
fn statement_by(sort: StatementSort, payload: &[u8], depth: usize, variables: &mut [Variable])
    requires { length payload.now ≤ 2 ^ 40 }
    ensures { Runs (λ widths. statement_run widths depth (run_block widths depth) (run_item widths depth) sort payload.now) variables.old variables.new }
{
    match sort {
        StatementSort::Assign(kind) => assign(kind, payload, depth, variables),
        StatementSort::AssignBit(kind) => assign_bit(kind, payload, depth, variables),
        StatementSort::If => if_else(payload, depth, variables),
        StatementSort::Case => case_of(payload, depth, variables),
    }
}

// An if takes the first block on 1, else the second.
#[tactic(auto, using(crate::proofs::ExecutionSteps::after_within))]
#[cycle(execution)]
fn if_else(payload: &[u8], depth: usize, variables: &mut [Variable])
    requires { length payload.now ≤ 2 ^ 40 }
    ensures { Runs (λ widths. statement_run widths depth (run_block widths depth) (run_item widths depth) StatementSort.If payload.now) variables.old variables.new }
{
    let condition = value_of(payload, depth, variables);
    let blocks = after_front(payload);
    if condition.number == 1 {
        front_block(blocks, depth, variables);
    } else {
        front_block(after_front(blocks), depth, variables);
    }
}

// The block at the front of a part.
#[tactic(auto, using(tagged::proofs::WalkLaws::front_within))]
#[cycle(execution)]
fn front_block(part: &[u8], depth: usize, variables: &mut [Variable])
    requires { length part.now ≤ 2 ^ 40 }
    ensures { Runs (λ widths. front_block (run_block widths depth) part.now) variables.old variables.new }
{
    if let Ok((sort, size)) = open_field(part, 0, 0) {
        block(sort, &part[3..size + 3], depth, variables);
    }
}

// A block's statements.
#[tactic(auto, using(crate::proofs::ExecutionSteps::block_step, tagged::proofs::SortLaws::is_itself, verilog::proofs::FormLaws::is_missed), unfolding(crate::specs::Execution::run_block))]
#[cycle(execution)]
fn block(sort: Sort, payload: &[u8], depth: usize, variables: &mut [Variable])
    requires { length payload.now ≤ 2 ^ 40 }
    ensures { Runs (λ widths. run_block widths depth sort payload.now) variables.old variables.new }
{
    if depth == 0 {
        return;
    }
    if sort == Sort::Block {
        statements(payload, depth - 1, variables);
    }
}

// The statements of a list, in order.
#[tactic(auto, unfolding(crate::specs::Execution::run_all))]
#[cycle(execution)]
fn statements(list: &[u8], depth: usize, variables: &mut [Variable])
    requires { length list.now ≤ 2 ^ 40 }
    ensures { Runs (λ widths. run_all (run_statement widths depth) (fields_at 0 list.now)) variables.old variables.new }
{
    for field in fields_of(list, 0) {
        statement(field.sort, field.payload, depth, variables);
    }
}

// A case evaluates its selector once, and takes the first equal item, else the default.
#[tactic(auto, using(crate::proofs::ExecutionSteps::after_within))]
#[cycle(execution)]
fn case_of(payload: &[u8], depth: usize, variables: &mut [Variable])
    requires { length payload.now ≤ 2 ^ 40 }
    ensures { Runs (λ widths. statement_run widths depth (run_block widths depth) (run_item widths depth) StatementSort.Case payload.now) variables.old variables.new }
{
    let selector = value_of(payload, depth, variables);
    items(after_front(payload), selector.number, depth, variables);
}

// The value of the constant at the front of an item's payload.
#[tactic(auto, using(tagged::proofs::WalkLaws::front_within))]
fn item_value(payload: &[u8]) -> u32
    ensures { result ≡ item_value payload.now }
{
    match open_field(payload, 0, 0) {
        Ok((_, size)) => four_of(from(&payload[3..size + 3], 1)),
        Err(_) => 0,
    }
}

// The first item of a list whose value the selector has, else the block that ends them.
#[tactic(auto, using(verilog::proofs::FormLaws::not_branch), unfolding(crate::specs::Execution::run_items))]
#[cycle(execution)]
fn items(list: &[u8], selector: u32, depth: usize, variables: &mut [Variable])
    requires { length list.now ≤ 2 ^ 40 }
    ensures { Runs (λ widths. run_items (run_item widths depth) (run_block widths depth) selector (fields_at 0 list.now)) variables.old variables.new }
{
    for field in fields_of(list, 0) {
        match field.sort {
            Sort::Item => {
                if item_value(field.payload) == selector {
                    return item(field.payload, depth, variables);
                }
            }
            Sort::Block => return block(field.sort, field.payload, depth, variables),
            _ => return,
        }
    }
}

// An item's block, which follows its constant.
#[tactic(auto, using(crate::proofs::ExecutionSteps::item_step, crate::proofs::ExecutionSteps::after_within), unfolding(crate::specs::Execution::run_item))]
#[cycle(execution)]
fn item(payload: &[u8], depth: usize, variables: &mut [Variable])
    requires { length payload.now ≤ 2 ^ 40 }
    ensures { Runs (λ widths. run_item widths depth payload.now) variables.old variables.new }
{
    if depth == 0 {
        return;
    }
    front_block(after_front(payload), depth - 1, variables);
}

// A process's statements.
#[tactic(auto, using(tagged::proofs::SortLaws::is_itself, verilog::proofs::FormLaws::is_missed), unfolding(crate::specs::Execution::run_process))]
fn process(sort: Sort, payload: &[u8], variables: &mut [Variable])
    requires { length payload.now ≤ 2 ^ 40 }
    ensures { Runs (λ widths. run_process widths sort payload.now) variables.old variables.new }
{
    if sort == Sort::Process {
        statements(payload, DEEPEST - 2, variables);
    }
}

// The processes of a list, in file order.
#[tactic(auto, unfolding(crate::specs::Execution::run_all, crate::specs::Execution::run_processes))]
pub fn processes(list: &[u8], variables: &mut [Variable])
    requires { length list.now ≤ 2 ^ 40 }
    ensures { Runs (λ widths. run_processes widths list.now) variables.old variables.new }
{
    for field in fields_of(list, 0) {
        process(field.sort, field.payload, variables);
    }
}
