// The sorts of fields: one match on the tag byte, through which every reader goes. Later tags are added here.
ghost use Rattle.std.specs.Prelude.{◌≡◌};
ghost use Rattle.tagged.specs.Sorts.{sort_of, declaration_sort, statement_sort, expression_sort, cell_sort};

use words::{OneOperand, TwoOperand};

// Declarations, 02 and 03.
#[derive(Clone, Copy, Debug, PartialEq, Eq, Hash)]
pub enum DeclarationSort {
    Input,
    Register,
}

// How an assignment changes its variable.
#[derive(Clone, Copy, Debug, PartialEq, Eq, Hash)]
pub enum Kind {
    Blocking,
    NonBlocking,
}

// Statements, 10 to 15.
#[derive(Clone, Copy, Debug, PartialEq, Eq, Hash)]
pub enum StatementSort {
    Assign(Kind),
    AssignBit(Kind),
    If,
    Case,
}

// Expressions, 20 to 2A.
#[derive(Clone, Copy, Debug, PartialEq, Eq, Hash)]
pub enum ExpressionSort {
    Constant,
    Variable,
    FixedBit,
    ChosenBit,
    One(OneOperand),
    Two(TwoOperand),
}

// Cells, 30 to 3A.
#[derive(Clone, Copy, Debug, PartialEq, Eq, Hash)]
pub enum CellSort {
    One(OneOperand),
    Two(TwoOperand),
    Mux,
    Put,
    FixedBit,
    ChosenBit,
}

#[derive(Clone, Copy, Debug, PartialEq, Eq, Hash)]
pub enum Sort {
    Module,
    Declaration(DeclarationSort),
    Process,
    Statement(StatementSort),
    Item,
    Block,
    Expression(ExpressionSort),
    Cell(CellSort),
    Drive,
    Netlist,
    // Every other tag: refusal 2 wherever it stands.
    Unknown,
}

// The sort of field that a tag byte begins.
pub fn sort_of(tag: u8) -> Sort
    ensures { result ≡ sort_of tag }
{
    match tag {
        0x01 => Sort::Module,
        0x02..=0x03 => Sort::Declaration(declaration_sort(tag)),
        0x04 => Sort::Process,
        0x10..=0x15 => Sort::Statement(statement_sort(tag)),
        0x16 => Sort::Item,
        0x17 => Sort::Block,
        0x20..=0x2A => Sort::Expression(expression_sort(tag)),
        0x30..=0x3A => Sort::Cell(cell_sort(tag)),
        0x40 => Sort::Drive,
        0x81 => Sort::Netlist,
        _ => Sort::Unknown,
    }
}

// Which declaration, within 02 and 03.
#[tactic(auto, unfolding(crate::specs::Sorts::declaration_sort))]
fn declaration_sort(tag: u8) -> DeclarationSort
    ensures { result ≡ declaration_sort tag }
{
    match tag {
        0x02 => DeclarationSort::Input,
        _ => DeclarationSort::Register,
    }
}

// Which statement, within 10 to 15.
#[tactic(auto, unfolding(crate::specs::Sorts::statement_sort))]
fn statement_sort(tag: u8) -> StatementSort
    ensures { result ≡ statement_sort tag }
{
    match tag {
        0x10 => StatementSort::Assign(Kind::Blocking),
        0x11 => StatementSort::Assign(Kind::NonBlocking),
        0x12 => StatementSort::AssignBit(Kind::Blocking),
        0x13 => StatementSort::AssignBit(Kind::NonBlocking),
        0x14 => StatementSort::If,
        _ => StatementSort::Case,
    }
}

// Which expression, within 20 to 2A.
#[tactic(auto, unfolding(crate::specs::Sorts::expression_sort))]
fn expression_sort(tag: u8) -> ExpressionSort
    ensures { result ≡ expression_sort tag }
{
    match tag {
        0x20 => ExpressionSort::Constant,
        0x21 => ExpressionSort::Variable,
        0x22 => ExpressionSort::FixedBit,
        0x23 => ExpressionSort::ChosenBit,
        0x24 => ExpressionSort::One(OneOperand::Not),
        0x25 => ExpressionSort::Two(TwoOperand::And),
        0x26 => ExpressionSort::Two(TwoOperand::Or),
        0x27 => ExpressionSort::Two(TwoOperand::Xor),
        0x28 => ExpressionSort::Two(TwoOperand::Add),
        0x29 => ExpressionSort::Two(TwoOperand::Equal),
        _ => ExpressionSort::One(OneOperand::Parity),
    }
}

// Which cell, within 30 to 3A.
#[tactic(auto, unfolding(crate::specs::Sorts::cell_sort))]
fn cell_sort(tag: u8) -> CellSort
    ensures { result ≡ cell_sort tag }
{
    match tag {
        0x30 => CellSort::One(OneOperand::Not),
        0x31 => CellSort::Two(TwoOperand::And),
        0x32 => CellSort::Two(TwoOperand::Or),
        0x33 => CellSort::Two(TwoOperand::Xor),
        0x34 => CellSort::Two(TwoOperand::Add),
        0x35 => CellSort::Two(TwoOperand::Equal),
        0x36 => CellSort::Mux,
        0x37 => CellSort::Put,
        0x38 => CellSort::FixedBit,
        0x39 => CellSort::ChosenBit,
        _ => CellSort::One(OneOperand::Parity),
    }
}
