// Which rule does a field of a process break? By what is known of the variables: the width of each, whether it is a register, and the first assignment to it.
ghost use Rattle.std.specs.Prelude.{◌≡◌, Bool, false, not, List, Option, None, ℕ, ◌^◌, ◌≤◌, leb, cond, length, get_or};
ghost use Rattle.tagged.specs.Answers.{acceptance, refused};
ghost use Rattle.verilog.specs.Tree.{Expression, constant};
ghost use Rattle.verilog.specs.Nodes.{expression, statement, item_of};
ghost use Rattle.verilog.specs.Nodes as nodes;
ghost use Rattle.verilog.specs.Reading.{expression_with, expression_in, front_by};
ghost use Rattle.tagged.specs.Declarations.{variable_width};
ghost use Rattle.verilog.specs.Rules.{expression_width, constant_broken, reads_by, assigns_by, operands_differ, read_outside, statement_differs, write_outside};
ghost use Rattle.verilog_check.specs.Tables.{variables_of, other_kind, is_elsewhere, other_process, blocked_elsewhere};
ghost use Rattle.verilog_check.specs.declared.assignments.First.{First};
ghost use Rattle.verilog_check.specs.Judged.{field_answer};
ghost use Rattle.verilog_check.specs.Walk.{statement_of};

use crate::assignments::{First, kind_of};
use tagged::answers::{Refusal, Rule, refuse_if};
use tagged::bytes::{four_of, from, get_or};
use tagged::fields::open_field;
use tagged::limits::Processes;
use tagged::sorts::{ExpressionSort, Kind, Sort, StatementSort};
use verilog::reading::after_front;
use words::{fits, index_within, is_width};

// What is known where the fields of a process are judged: its number, and of each variable the width, whether it is a register, and the first assignment.
#[derive(Clone, Copy, Debug)]
pub struct Judge<'a> {
    pub process: usize,
    pub widths: &'a [u8],
    pub marks: &'a [bool],
    pub firsts: &'a [Option<First>],
    ghost numbered: { process ≤ 2 ^ 40 },
}

// The width of the expression at the front of a part: down its first operands.
#[tactic(auto, using(tagged::proofs::WalkLaws::front_within, verilog::proofs::FrontReading::no_level, verilog::proofs::FrontReading::read_expression, verilog::proofs::FrontReading::read_other, verilog::proofs::FrontReading::read_none), unfolding(verilog::specs::Rules::expression_width))]
#[cycle(width_by_width_of)]
pub fn width_of(part: &[u8], depth: usize, widths: &[u8]) -> u8
    ensures { result ≡ expression_width (variables_of widths.now) (expression_in depth part.now) }
{
    let Ok((sort, size)) = open_field(part, 0, 0) else {
        return 0;
    };
    match sort {
        Sort::Expression(inner) if depth > 0 => {
            width_by(inner, &part[3..size + 3], depth - 1, widths)
        }
        _ => 0,
    }
}

// The width of an expression, by its sort and payload.
#[tactic(auto, using(crate::proofs::TableWidths::width_read), unfolding(verilog::specs::Rules::expression_width))]
#[cycle(width_by_width_of)]
fn width_by(sort: ExpressionSort, payload: &[u8], depth: usize, widths: &[u8]) -> u8
    ensures { result ≡ expression_width (variables_of widths.now) (expression_with (expression_in depth) sort payload.now) }
{
    match sort {
        ExpressionSort::Constant => get_or(payload, 0, 0),
        ExpressionSort::Variable => get_or(widths, usize::from(get_or(payload, 0, 0)), 0),
        ExpressionSort::FixedBit | ExpressionSort::ChosenBit => 1,
        ExpressionSort::One(op) => op.result_width(width_of(payload, depth, widths)),
        ExpressionSort::Two(op) => op.result_width(width_of(payload, depth, widths)),
    }
}

// Refusal 3 on an expression: a constant's width, and its value.
fn constant_broken(sort: ExpressionSort, payload: &[u8]) -> bool
    ensures { (inner : List ℕ → Expression) → result ≡ constant_broken (expression_with inner sort payload.now) }
{
    let width = get_or(payload, 0, 0);
    match sort {
        ExpressionSort::Constant => !is_width(width) || !fits(width, four_of(from(payload, 1))),
        _ => false,
    }
}

impl Judge<'_> {
    ghost use Rattle.verilog_check.specs.Known.{answer_by};

    // Refusal 6 on an expression: it reads a variable that does not exist.
    fn reads_missing(self, sort: ExpressionSort, payload: &[u8]) -> bool
        ensures { (inner : List ℕ → Expression) → result ≡ reads_by (λ v. leb (length self.entry.widths.now) v) (expression_with inner sort payload.now) }
    {
        match sort {
            ExpressionSort::Variable | ExpressionSort::FixedBit | ExpressionSort::ChosenBit => {
                self.widths.len() <= usize::from(get_or(payload, 0, 0))
            }
            _ => false,
        }
    }

    // Refusal 7 on an expression: its two operands differ in width.
    fn operands_differ(self, sort: ExpressionSort, payload: &[u8], depth: usize) -> bool
        ensures { result ≡ operands_differ (variables_of self.entry.widths.now) (expression_with (expression_in depth) sort payload.now) }
    {
        match sort {
            ExpressionSort::Two(_) => {
                width_of(payload, depth, self.widths)
                    != width_of(after_front(payload), depth, self.widths)
            }
            _ => false,
        }
    }

    // The width of the variable whose number a payload begins with; 0 where there is none.
    #[tactic(auto, using(crate::proofs::TableWidths::width_read))]
    fn target_width(self, payload: &[u8]) -> u8
        ensures { result ≡ variable_width (variables_of self.entry.widths.now) (get_or payload.now 0 0) }
    {
        get_or(self.widths, usize::from(get_or(payload, 0, 0)), 0)
    }

    // Refusal 8 on an expression: a bit number outside its vector, or an index that could name one.
    fn reads_outside(self, sort: ExpressionSort, payload: &[u8], depth: usize) -> bool
        ensures { result ≡ read_outside (variables_of self.entry.widths.now) (expression_with (expression_in depth) sort payload.now) }
    {
        let vector = self.target_width(payload);
        match sort {
            ExpressionSort::FixedBit => vector <= get_or(payload, 1, 0),
            ExpressionSort::ChosenBit => {
                !index_within(width_of(from(payload, 1), depth, self.widths), vector)
            }
            _ => false,
        }
    }

    // The first assignment to a variable, as the table has it.
    fn first(self, variable: u8) -> Option<First>
        ensures { result ≡ get_or self.entry.firsts.now variable None }
    {
        get_or(self.firsts, usize::from(variable), None)
    }

    // Does a first assignment stand in another process than this? One that is none stands in no process.
    fn is_elsewhere(self, first: Option<First>) -> bool
        ensures { result ≡ is_elsewhere self.entry.process first }
    {
        match first {
            Some(first) => first.process != self.process + 1,
            None => true,
        }
    }

    // Is a variable assigned by blocking in another process than this?
    fn blocked_elsewhere(self, variable: u8) -> bool
        ensures { result ≡ blocked_elsewhere self.entry.firsts.now self.entry.process variable }
    {
        let first = self.first(variable);
        first.is_some() && kind_of(first) == Kind::Blocking && self.is_elsewhere(first)
    }

    // Refusal 11 on an expression: it reads what another process assigns by blocking.
    fn reads_elsewhere(self, sort: ExpressionSort, payload: &[u8]) -> bool
        ensures { (inner : List ℕ → Expression) → result ≡ reads_by (blocked_elsewhere self.entry.firsts.now self.entry.process) (expression_with inner sort payload.now) }
    {
        match sort {
            ExpressionSort::Variable | ExpressionSort::FixedBit | ExpressionSort::ChosenBit => {
                self.blocked_elsewhere(get_or(payload, 0, 0))
            }
            _ => false,
        }
    }

    // The first rule that an expression breaks, at its place.
    #[tactic(auto, unfolding(tagged::specs::Refusals::first_refusal, verilog::specs::Rules::breaks, crate::specs::Judged::judged))]
    pub fn judge_expression(
        self,
        sort: ExpressionSort,
        payload: &[u8],
        at: usize,
        depth: usize,
    ) -> Result<(), Refusal>
        ensures { (marks : List Bool) → result ≡ field_answer self.entry.widths.now marks self.entry.firsts.now self.entry.process
            (expression (expression_with (expression_in depth) sort payload.now)) at }
    {
        refuse_if(constant_broken(sort, payload), Rule::Value, at)?;
        refuse_if(self.reads_missing(sort, payload), Rule::Reference, at)?;
        refuse_if(self.operands_differ(sort, payload, depth), Rule::Widths, at)?;
        refuse_if(
            self.reads_outside(sort, payload, depth),
            Rule::BitNumber,
            at,
        )?;
        refuse_if(self.reads_elsewhere(sort, payload), Rule::ReadElsewhere, at)
    }

    // Refusal 6 on a statement: it assigns to what is no register.
    fn assigns_missing(self, sort: StatementSort, payload: &[u8]) -> bool
        ensures { (depth : ℕ) → result ≡ assigns_by (λ kind v. not (get_or self.entry.marks.now v false)) (statement_of depth sort payload.now) }
    {
        match sort {
            StatementSort::Assign(_) | StatementSort::AssignBit(_) => {
                !get_or(self.marks, usize::from(get_or(payload, 0, 0)), false)
            }
            _ => false,
        }
    }

    // Refusal 7 on a statement: a value unlike its target, or not of width 1 for one bit; a condition not of width 1.
    fn statement_differs(self, sort: StatementSort, payload: &[u8], depth: usize) -> bool
        ensures { result ≡ statement_differs (variables_of self.entry.widths.now) (statement_of depth sort payload.now) }
    {
        match sort {
            StatementSort::Assign(_) => {
                width_of(from(payload, 1), depth, self.widths) != self.target_width(payload)
            }
            StatementSort::AssignBit(_) => width_of(from(payload, 2), depth, self.widths) != 1,
            StatementSort::If => width_of(payload, depth, self.widths) != 1,
            StatementSort::Case => false,
        }
    }

    // Refusal 8 on a statement: a bit number outside its vector.
    fn writes_outside(self, sort: StatementSort, payload: &[u8]) -> bool
        ensures { (depth : ℕ) → result ≡ write_outside (variables_of self.entry.widths.now) (statement_of depth sort payload.now) }
    {
        match sort {
            StatementSort::AssignBit(_) => self.target_width(payload) <= get_or(payload, 1, 0),
            _ => false,
        }
    }

    // Refusal 9 on a statement: an assignment unlike the first one to its variable.
    fn kind_differs(self, sort: StatementSort, payload: &[u8]) -> bool
        ensures { (depth : ℕ) → result ≡ assigns_by (other_kind self.entry.firsts.now) (statement_of depth sort payload.now) }
    {
        match sort {
            StatementSort::Assign(kind) | StatementSort::AssignBit(kind) => {
                kind_of(self.first(get_or(payload, 0, 0))) != kind
            }
            _ => false,
        }
    }

    // Refusal 10 on a statement: an assignment in another process than the first one to its variable.
    fn process_differs(self, sort: StatementSort, payload: &[u8]) -> bool
        ensures { (depth : ℕ) → result ≡ assigns_by (λ kind v. other_process self.entry.firsts.now self.entry.process v) (statement_of depth sort payload.now) }
    {
        match sort {
            StatementSort::Assign(_) | StatementSort::AssignBit(_) => {
                self.is_elsewhere(self.first(get_or(payload, 0, 0)))
            }
            _ => false,
        }
    }

    // The first rule that a statement breaks, at its place.
    #[tactic(auto, unfolding(tagged::specs::Refusals::first_refusal, verilog::specs::Rules::breaks, crate::specs::Judged::judged))]
    pub fn judge_statement(
        self,
        sort: StatementSort,
        payload: &[u8],
        at: usize,
        depth: usize,
    ) -> Result<(), Refusal>
        ensures { result ≡ answer_by self.entry (statement (statement_of depth sort payload.now)) at }
    {
        refuse_if(self.assigns_missing(sort, payload), Rule::Reference, at)?;
        refuse_if(
            self.statement_differs(sort, payload, depth),
            Rule::Widths,
            at,
        )?;
        refuse_if(self.writes_outside(sort, payload), Rule::BitNumber, at)?;
        refuse_if(self.kind_differs(sort, payload), Rule::BothKinds, at)?;
        refuse_if(self.process_differs(sort, payload), Rule::TwoProcesses, at)
    }
}

// The width of the constant at the front of an item's payload.
#[tactic(auto, using(tagged::proofs::WalkLaws::front_within))]
fn item_width(payload: &[u8]) -> u8
    ensures { result ≡ front_by (λ t p. get_or p 0 0) 0 payload.now }
{
    match open_field(payload, 0, 0) {
        Ok((_, size)) => get_or(&payload[3..size + 3], 0, 0),
        Err(_) => 0,
    }
}

// The first rule that an item breaks, at its place, in a case whose selector has this width.
#[tactic(auto, unfolding(tagged::specs::Refusals::first_refusal, verilog::specs::Rules::breaks, verilog::specs::Rules::expression_width, crate::specs::Judged::judged))]
pub fn judge_item(selector_width: u8, payload: &[u8], at: usize) -> Result<(), Refusal>
    ensures { (widths : List ℕ) (marks : List Bool) (firsts : List (Option First)) (process : ℕ) → result
        ≡ field_answer widths marks firsts process (item_of (constant selector_width 0) (front_by (λ t p. get_or p 0 0) 0 payload.now)) at }
{
    refuse_if(item_width(payload) != selector_width, Rule::Widths, at)
}

// Refusal 5 on a process, by its number.
#[tactic(auto, unfolding(tagged::specs::Refusals::first_refusal, verilog::specs::Rules::breaks, crate::specs::Judged::judged))]
pub fn judge_process(process: usize, at: usize) -> Result<(), Refusal>
    requires { process ≤ 2 ^ 40 }
    ensures { (widths : List ℕ) (marks : List Bool) (firsts : List (Option First)) → result ≡ field_answer widths marks firsts process nodes.process at }
{
    refuse_if(Processes::new(process + 1).is_none(), Rule::Count, at)
}
