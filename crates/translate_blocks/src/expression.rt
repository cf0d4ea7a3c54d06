// The cells of an expression, over a part of the file: its operands left to right, then its own. What cannot happen in an accepted file is the constant 0.
ghost use Rattle.std.specs.Prelude.{◌≡◌, [], ◌+◌, ◌*◌, ◌^◌, ◌≤◌, length};
ghost use Rattle.verilog.specs.Reading.{expression_with, expression_in};
ghost use Rattle.translate.specs.Translation.{with_cell, translate_expression};
ghost use Rattle.translate_blocks.specs.Emitting.{EmitsExpression};

use crate::emit::Emitter;
use crate::table::{NOTHING, operand_at};
use netlist::{Cell, Operand};
use tagged::bytes::{four_of, from, get_or};
use tagged::fields::open_field;
use tagged::sorts::{ExpressionSort, Sort};
use verilog::reading::after_front;

impl Emitter<'_> {
    // Adds an expression's own cell, of this width: the operand that it is.
    #[tactic(auto, using(crate::proofs::EmitLaws::cell_emitted))]
    fn own_cell(&mut self, width: u8, cell: Cell) -> Operand
        requires { (self.old.at + 22 ≤ 2 ^ 40) × (self.old.cells + 1 ≤ 2 ^ 31) }
        ensures { EmitsExpression self.old (with_cell self.old.cells [] width cell) self.new result }
    {
        let number = self.cells;
        self.emit(cell);
        Operand::Cell(width, number)
    }

    // The cells of the expression at the front of a part, and the operand that it is. The table holds the current operand of each variable.
    #[tactic(auto, using(tagged::proofs::WalkLaws::front_within, verilog::proofs::FrontReading::read_expression))]
    #[cycle(expressions)]
    pub fn expression(&mut self, part: &[u8], depth: usize, table: &[Operand]) -> Operand
        requires { (self.old.at + 22 * length part.now ≤ 2 ^ 40) × (self.old.cells + length part.now ≤ 2 ^ 31) }
        ensures { EmitsExpression self.old (translate_expression table.now self.old.cells (expression_in depth part.now)) self.new result }
    {
        if depth == 0 {
            return NOTHING;
        }
        let Ok((sort, size)) = open_field(part, 0, 0) else {
            return NOTHING;
        };
        match sort {
            Sort::Expression(inner) => {
                self.expression_by(inner, &part[3..size + 3], depth - 1, table)
            }
            _ => NOTHING,
        }
    }

    // The cells of an expression, by its sort and payload.
    #[tactic(auto, using(crate::proofs::EmitLaws::emits_none), unfolding(translate::specs::Translation::translate_expression))]
    #[cycle(expressions)]
    fn expression_by(
        &mut self,
        sort: ExpressionSort,
        payload: &[u8],
        depth: usize,
        table: &[Operand],
    ) -> Operand
        requires { (self.old.at + 22 * (length payload.now + 3) ≤ 2 ^ 40) × (self.old.cells + (length payload.now + 3) ≤ 2 ^ 31) }
        ensures { EmitsExpression self.old (translate_expression table.now self.old.cells
            (expression_with (expression_in depth) sort payload.now)) self.new result }
    {
        let first = get_or(payload, 0, 0);
        let variable = operand_at(table, usize::from(first));
        match sort {
            ExpressionSort::Constant => Operand::Constant(first, four_of(from(payload, 1))),
            ExpressionSort::Variable => variable,
            ExpressionSort::FixedBit => {
                self.own_cell(1, Cell::FixedBit(1, variable, get_or(payload, 1, 0)))
            }
            ExpressionSort::ChosenBit => {
                let index = self.expression(from(payload, 1), depth, table);
                self.own_cell(1, Cell::ChosenBit(1, variable, index))
            }
            ExpressionSort::One(op) => {
                let operand = self.expression(payload, depth, table);
                let width = op.result_width(operand.width());
                self.own_cell(width, Cell::One(op, width, operand))
            }
            ExpressionSort::Two(op) => {
                let left = self.expression(payload, depth, table);
                let right = self.expression(after_front(payload), depth, table);
                let width = op.result_width(left.width());
                self.own_cell(width, Cell::Two(op, width, left, right))
            }
        }
    }
}
