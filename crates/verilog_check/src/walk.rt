// What the fields of a list of processes are refused for, by one walk for all rules: each field by itself first, then those that it holds, in order.
// `base` is the place of a list's first byte, `depth` how many levels of fields may still be opened.
ghost use Rattle.std.specs.Prelude.{◌≡◌, ◌+◌, ◌^◌, ◌≤◌, length};
ghost use Rattle.tagged.specs.Fields.{fields_at};
ghost use Rattle.verilog.specs.Rules.{expression_width};
ghost use Rattle.verilog_check.specs.Tables.{variables_of};
ghost use Rattle.verilog_check.specs.Judged.{field_answer};
ghost use Rattle.verilog_check.specs.Known.{answer_by, width_by, walked};
ghost use Rattle.verilog_check.specs.Walk.{before_operands, before_parts, walk_all, walk_expression, walk_statement, walk_part, walk_item, walk_process, walk_processes};

use crate::assignments::First;
use crate::judge::{Judge, judge_item, judge_process, width_of};
use tagged::answers::{Refusal, or_lower};
use tagged::limits::DEEPEST;
use tagged::sorts::{ExpressionSort, Sort, StatementSort};
use tagged::walk::{Field, fields_of};

// How many bytes stand before an expression's operands.
fn before_operands(sort: ExpressionSort) -> usize
    ensures { result ≡ before_operands sort }
{
    match sort {
        ExpressionSort::Constant => 5,
        ExpressionSort::FixedBit => 2,
        ExpressionSort::Variable | ExpressionSort::ChosenBit => 1,
        ExpressionSort::One(_) | ExpressionSort::Two(_) => 0,
    }
}

// How many bytes stand before a statement's first inner field.
fn before_parts(sort: StatementSort) -> usize
    ensures { result ≡ before_parts sort }
{
    match sort {
        StatementSort::Assign(_) => 1,
        StatementSort::AssignBit(_) => 2,
        StatementSort::If | StatementSort::Case => 0,
    }
}

impl Judge<'_> {
    // An expression, then its operands.
    #[tactic(auto, using(crate::proofs::WalkSteps::expression_deep, crate::proofs::WalkSteps::expression_open, crate::proofs::WalkSteps::nothing_behind, tagged::proofs::ByteLaws::rest, tagged::proofs::LowerLaws::lower_accepted))]
    #[cycle(expression_operands)]
    fn expression(&self, field: Field, depth: usize) -> Result<(), Refusal>
        requires { field.place + 3 + length field.payload.now ≤ 2 ^ 40 }
        ensures { result ≡ walked (walk_expression (answer_by self.now) depth) field.entry }
    {
        match field.sort {
            Sort::Expression(sort) if depth > 0 => {
                let own = self.judge_expression(sort, field.payload, field.place, depth - 1);
                let fixed = before_operands(sort);
                match field.payload.get(fixed..) {
                    Some(list) => {
                        or_lower(own, self.operands(list, field.place + 3 + fixed, depth - 1))
                    }
                    None => own,
                }
            }
            _ => Ok(()),
        }
    }

    // The expressions of a list.
    #[tactic(auto, using(tagged::proofs::LowerLaws::lower_accepted, tagged::proofs::LowerLaws::lower_joined), unfolding(crate::specs::Walk::walk_all))]
    #[cycle(expression_operands)]
    fn operands(&self, list: &[u8], base: usize, depth: usize) -> Result<(), Refusal>
        requires { base + length list.now ≤ 2 ^ 40 }
        ensures { result ≡ walk_all (walk_expression (answer_by self.now) depth) (fields_at base list.now) }
    {
        let mut best = Ok(());
        for field in fields_of(list, base) {
            best = or_lower(best, self.expression(field, depth));
        }
        best
    }

    // A statement, then its expressions, items and blocks.
    #[tactic(auto, using(crate::proofs::WalkSteps::statement_deep, crate::proofs::WalkSteps::statement_open, crate::proofs::WalkSteps::nothing_behind, tagged::proofs::ByteLaws::rest, tagged::proofs::LowerLaws::lower_accepted))]
    #[cycle(statement_walk)]
    fn statement(&self, field: Field, depth: usize) -> Result<(), Refusal>
        requires { field.place + 3 + length field.payload.now ≤ 2 ^ 40 }
        ensures { result ≡ walked (walk_statement (answer_by self.now) (width_by self.now) depth) field.entry }
    {
        match field.sort {
            Sort::Statement(sort) if depth > 0 => {
                let own = self.judge_statement(sort, field.payload, field.place, depth - 1);
                let selector = width_of(field.payload, depth - 1, self.widths);
                let fixed = before_parts(sort);
                match field.payload.get(fixed..) {
                    Some(list) => or_lower(
                        own,
                        self.parts(selector, list, field.place + 3 + fixed, depth - 1),
                    ),
                    None => own,
                }
            }
            _ => Ok(()),
        }
    }

    // The expressions, items and blocks of a list, in a statement whose first expression has the width `selector`.
    #[tactic(auto, using(tagged::proofs::LowerLaws::lower_accepted, tagged::proofs::LowerLaws::lower_joined), unfolding(crate::specs::Walk::walk_all))]
    #[cycle(statement_walk)]
    fn parts(&self, selector: u8, list: &[u8], base: usize, depth: usize) -> Result<(), Refusal>
        requires { base + length list.now ≤ 2 ^ 40 }
        ensures { result ≡ walk_all (walk_part (answer_by self.now) (width_by self.now) depth selector) (fields_at base list.now) }
    {
        let mut best = Ok(());
        for field in fields_of(list, base) {
            best = or_lower(best, self.part(selector, field, depth));
        }
        best
    }

    // An expression, an item or a block.
    #[tactic(auto, using(crate::proofs::WalkSteps::part_deep, crate::proofs::WalkSteps::part_open, crate::proofs::WalkSteps::part_expression))]
    #[cycle(statement_walk)]
    fn part(&self, selector: u8, field: Field, depth: usize) -> Result<(), Refusal>
        requires { field.place + 3 + length field.payload.now ≤ 2 ^ 40 }
        ensures { result ≡ walked (walk_part (answer_by self.now) (width_by self.now) depth selector) field.entry }
    {
        match field.sort {
            Sort::Expression(_) => self.expression(field, depth),
            Sort::Item if depth > 0 => or_lower(
                judge_item(selector, field.payload, field.place),
                self.parts(selector, field.payload, field.place + 3, depth - 1),
            ),
            Sort::Block if depth > 0 => {
                self.statements(field.payload, field.place + 3, depth - 1)
            }
            _ => Ok(()),
        }
    }

    // The statements of a block or of a process.
    #[tactic(auto, using(tagged::proofs::LowerLaws::lower_accepted, tagged::proofs::LowerLaws::lower_joined), unfolding(crate::specs::Walk::walk_all))]
    #[cycle(statement_walk)]
    fn statements(&self, list: &[u8], base: usize, depth: usize) -> Result<(), Refusal>
        requires { base + length list.now ≤ 2 ^ 40 }
        ensures { result ≡ walk_all (walk_statement (answer_by self.now) (width_by self.now) depth) (fields_at base list.now) }
    {
        let mut best = Ok(());
        for field in fields_of(list, base) {
            best = or_lower(best, self.statement(field, depth));
        }
        best
    }

    // A process, then its statements.
    #[tactic(auto, using(verilog::proofs::FormLaws::is_missed), unfolding(crate::specs::Walk::walk_process))]
    fn process(&self, field: Field) -> Result<(), Refusal>
        requires { field.place + 3 + length field.payload.now ≤ 2 ^ 40 }
        ensures { result ≡ walked (walk_process (answer_by self.now) (width_by self.now)) field.entry }
    {
        match field.sort {
            Sort::Process => or_lower(
                judge_process(self.process, field.place),
                self.statements(field.payload, field.place + 3, DEEPEST - 2),
            ),
            _ => Ok(()),
        }
    }
}

// What the processes of a list are refused for.
#[tactic(auto, using(tagged::proofs::LowerLaws::lower_accepted, tagged::proofs::LowerLaws::lower_joined), unfolding(crate::specs::Walk::walk_processes))]
pub fn processes_answer(
    widths: &[u8],
    marks: &[bool],
    firsts: &[Option<First>],
    list: &[u8],
    base: usize,
) -> Result<(), Refusal>
    requires { base + length list.now ≤ 2 ^ 40 }
    ensures { result ≡ walk_processes (field_answer widths.now marks.now firsts.now)
        (expression_width (variables_of widths.now)) 0 (fields_at base list.now) }
{
    let mut best = Ok(());
    for (process, field) in fields_of(list, base).enumerate() {
        let judge = Judge {
            process,
            widths,
            marks,
            firsts,
        };
        best = or_lower(best, judge.process(field));
    }
    best
}
