// Refusal 2 of a module: the first fault met in reading it from left to right. `depth` is how many levels of fields may still be opened.
ghost use Rattle.std.specs.Prelude.{◌≡◌, ◌+◌, ◌^◌, ◌≤◌, length};
ghost use Rattle.tagged.specs.Sorts.{is_sort};
ghost use Rattle.tagged.specs.Fields.{field_by, then_by, many, until_end};
ghost use Rattle.tagged.specs.Declarations.{declarations_step};
ghost use Rattle.verilog.specs.Form.{expression_body, expression_parts, constant_body, statement_body, statement_parts};
ghost use Rattle.verilog.specs.Form.{block_body, item_body, process_body, module_body, module_form};
ghost use Rattle.tagged.specs.Payloads.{over};
ghost use Rattle.verilog.specs.Reader.{LevelsKept, Leads};

use crate::reader::Reader;
use tagged::answers::Fault;
use tagged::declarations::declarations;
use tagged::fields::field_by;
use tagged::limits::DEEPEST;
use tagged::payload::Payload;
use tagged::sorts::{ExpressionSort, Sort, StatementSort};

// Is the field an item?
#[tactic(auto, using(crate::proofs::FormLaws::is_missed))]
fn is_item(sort: Sort) -> bool
    ensures { result ≡ is_sort Sort.Item sort }
{
    matches!(sort, Sort::Item)
}

// An expression's payload: another sort of field is a wrong tag.
#[tactic(auto, using(crate::proofs::FormLaws::expression_deep, crate::proofs::FormLaws::expression_open, crate::proofs::FormLaws::not_expression))]
#[cycle(expressions)]
fn expression_body(sort: Sort, payload: &[u8], at: usize, depth: usize) -> Result<(), Fault>
    requires { at + 3 + length payload.now ≤ 2 ^ 40 }
    ensures { result ≡ expression_body depth at sort payload.now }
{
    match sort {
        Sort::Expression(inner) if depth > 0 => {
            Reader::inside(payload, at, depth - 1).expression_parts(inner)
        }
        _ => Err(Fault { place: at }),
    }
}

// An item's constant: another sort of field, or of expression, is a wrong tag.
#[tactic(auto, using(crate::proofs::FormLaws::constant_deep, crate::proofs::FormLaws::constant_open, crate::proofs::FormLaws::is_missed))]
fn constant_body(sort: Sort, payload: &[u8], at: usize, depth: usize) -> Result<(), Fault>
    requires { at + 3 + length payload.now ≤ 2 ^ 40 }
    ensures { result ≡ constant_body depth at sort payload.now }
{
    match sort {
        Sort::Expression(ExpressionSort::Constant) if depth > 0 => {
            Reader::inside(payload, at, depth - 1).fixed(5)?.end()
        }
        _ => Err(Fault { place: at }),
    }
}

// A statement's payload: another sort of field is a wrong tag.
#[tactic(auto, using(crate::proofs::FormLaws::statement_deep, crate::proofs::FormLaws::statement_open, crate::proofs::FormLaws::not_statement))]
#[cycle(blocks)]
fn statement_body(sort: Sort, payload: &[u8], at: usize, depth: usize) -> Result<(), Fault>
    requires { at + 3 + length payload.now ≤ 2 ^ 40 }
    ensures { result ≡ statement_body depth at sort payload.now }
{
    match sort {
        Sort::Statement(inner) if depth > 0 => {
            Reader::inside(payload, at, depth - 1).statement_parts(inner)
        }
        _ => Err(Fault { place: at }),
    }
}

// An item's payload, a constant and a block: another sort of field is a wrong tag.
#[tactic(auto, using(crate::proofs::FormLaws::item_deep, crate::proofs::FormLaws::item_open, crate::proofs::FormLaws::is_missed))]
#[cycle(blocks)]
fn item_body(sort: Sort, payload: &[u8], at: usize, depth: usize) -> Result<(), Fault>
    requires { at + 3 + length payload.now ≤ 2 ^ 40 }
    ensures { result ≡ item_body depth at sort payload.now }
{
    match sort {
        Sort::Item if depth > 0 => {
            Reader::inside(payload, at, depth - 1)
                .constant()?
                .block()?
                .end()
        }
        _ => Err(Fault { place: at }),
    }
}

// A block's payload, statements: another sort of field is a wrong tag.
#[tactic(auto, using(crate::proofs::FormLaws::block_deep, crate::proofs::FormLaws::block_open, crate::proofs::FormLaws::is_missed))]
#[cycle(blocks)]
fn block_body(sort: Sort, payload: &[u8], at: usize, depth: usize) -> Result<(), Fault>
    requires { at + 3 + length payload.now ≤ 2 ^ 40 }
    ensures { result ≡ block_body depth at sort payload.now }
{
    match sort {
        Sort::Block if depth > 0 => Reader::inside(payload, at, depth - 1).statements(),
        _ => Err(Fault { place: at }),
    }
}

// A process's payload, statements: another sort of field is a wrong tag.
#[tactic(auto, using(crate::proofs::FormLaws::process_deep, crate::proofs::FormLaws::process_open, crate::proofs::FormLaws::is_missed))]
fn process_body(sort: Sort, payload: &[u8], at: usize, depth: usize) -> Result<(), Fault>
    requires { at + 3 + length payload.now ≤ 2 ^ 40 }
    ensures { result ≡ process_body depth at sort payload.now }
{
    match sort {
        Sort::Process if depth > 0 => Reader::inside(payload, at, depth - 1).statements(),
        _ => Err(Fault { place: at }),
    }
}

// A module's payload, declarations and processes: another sort of field is a wrong tag.
#[tactic(auto, using(crate::proofs::FormLaws::module_deep, crate::proofs::FormLaws::module_open, crate::proofs::FormLaws::is_missed))]
fn module_body(sort: Sort, payload: &[u8], at: usize, depth: usize) -> Result<(), Fault>
    requires { at + 3 + length payload.now ≤ 2 ^ 40 }
    ensures { result ≡ module_body depth at sort payload.now }
{
    match sort {
        Sort::Module if depth > 0 => {
            Reader::inside(payload, at, depth - 1)
                .declarations()?
                .processes()
        }
        _ => Err(Fault { place: at }),
    }
}

impl<'a> Reader<'a> {
    // Past an expression.
    #[cycle(expressions)]
    fn expression(self) -> Result<Reader<'a>, Fault>
        ensures leads { Leads (then_by (field_by (expression_body self.entry.levels))) self.entry result }
        ensures levels { LevelsKept self.entry.levels result }
    {
        self.field(
            |sort, payload, at|
                requires { at + 3 + length payload.now ≤ 2 ^ 40 }
                ensures { result ≡ expression_body self.levels at sort payload.now }
            { expression_body(sort, payload, at, self.levels) },
        )
    }

    // What an expression holds, by its sort, and nothing else.
    #[cycle(expressions)]
    fn expression_parts(self, sort: ExpressionSort) -> Result<(), Fault>
        ensures { result ≡ over (expression_parts (field_by (expression_body self.entry.levels)) sort) self.entry.left }
    {
        match sort {
            ExpressionSort::Constant => self.fixed(5)?.end(),
            ExpressionSort::Variable => self.fixed(1)?.end(),
            ExpressionSort::FixedBit => self.fixed(2)?.end(),
            ExpressionSort::ChosenBit => self.fixed(1)?.expression()?.end(),
            ExpressionSort::One(_) => self.expression()?.end(),
            ExpressionSort::Two(_) => self.expression()?.expression()?.end(),
        }
    }

    // Past an item's constant.
    fn constant(self) -> Result<Reader<'a>, Fault>
        ensures leads { Leads (then_by (field_by (constant_body self.entry.levels))) self.entry result }
        ensures levels { LevelsKept self.entry.levels result }
    {
        self.field(|sort, payload, at| constant_body(sort, payload, at, self.levels))
    }

    // What a statement holds, by its sort, and nothing else.
    #[cycle(blocks)]
    fn statement_parts(self, sort: StatementSort) -> Result<(), Fault>
        ensures { result ≡ over (statement_parts (field_by (expression_body self.entry.levels)) (field_by (block_body self.entry.levels)) (field_by (item_body self.entry.levels)) sort) self.entry.left }
    {
        match sort {
            StatementSort::Assign(_) => self.fixed(1)?.expression()?.end(),
            StatementSort::AssignBit(_) => self.fixed(2)?.expression()?.end(),
            StatementSort::If => self.expression()?.block()?.block()?.end(),
            StatementSort::Case => self.expression()?.items()?.block()?.end(),
        }
    }

    // Past the items.
    #[cycle(blocks)]
    fn items(self) -> Result<Reader<'a>, Fault>
        ensures leads { Leads (then_by (many (is_sort Sort.Item) (field_by (item_body self.entry.levels)))) self.entry result }
        ensures levels { LevelsKept self.entry.levels result }
    {
        self.many(
            is_item,
            |sort, payload, at|
                requires { at + 3 + length payload.now ≤ 2 ^ 40 }
                ensures { result ≡ item_body self.levels at sort payload.now }
            { item_body(sort, payload, at, self.levels) },
        )
    }

    // Past a block.
    #[cycle(blocks)]
    fn block(self) -> Result<Reader<'a>, Fault>
        ensures leads { Leads (then_by (field_by (block_body self.entry.levels))) self.entry result }
        ensures levels { LevelsKept self.entry.levels result }
    {
        self.field(
            |sort, payload, at|
                requires { at + 3 + length payload.now ≤ 2 ^ 40 }
                ensures { result ≡ block_body self.levels at sort payload.now }
            { block_body(sort, payload, at, self.levels) },
        )
    }

    // Statements until the end.
    #[cycle(blocks)]
    fn statements(self) -> Result<(), Fault>
        ensures { result ≡ over (until_end (field_by (statement_body self.entry.levels))) self.entry.left }
    {
        self.until_end(
            |sort, payload, at|
                requires { at + 3 + length payload.now ≤ 2 ^ 40 }
                ensures { result ≡ statement_body self.levels at sort payload.now }
            { statement_body(sort, payload, at, self.levels) },
        )
    }

    // Past the declarations.
    #[tactic(auto, using(tagged::proofs::DeclarationBytes::declarations_within), unfolding(tagged::specs::Fields::then_by))]
    fn declarations(self) -> Result<Reader<'a>, Fault>
        ensures leads { Leads (then_by declarations_step) self.entry result }
        ensures levels { LevelsKept self.entry.levels result }
    {
        self.after(declarations(self.left))
    }

    // Processes until the end.
    fn processes(self) -> Result<(), Fault>
        ensures { result ≡ over (until_end (field_by (process_body self.entry.levels))) self.entry.left }
    {
        self.until_end(|sort, payload, at| process_body(sort, payload, at, self.levels))
    }
}

// Refusal 2 of a module file to which refusal 1 does not apply: past the whole file, or the place of the first fault.
#[tactic(auto, unfolding(crate::specs::Form::module_form))]
pub fn module_form(file: &[u8]) -> Result<usize, Fault>
    requires { length file.now ≤ 2 ^ 40 }
    ensures { result ≡ module_form file.now }
{
    field_by(
        Payload {
            bytes: file,
            base: 0,
            owner: 0,
        },
        |sort, payload, at| module_body(sort, payload, at, DEEPEST),
    )
}
