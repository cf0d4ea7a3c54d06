// The value of an expression, over a part of the file. What cannot happen in an accepted file yields 0.
ghost use Rattle.std.specs.Prelude.{◌≡◌};
ghost use Rattle.verilog.specs.Reading.{expression_with, expression_in};
ghost use Rattle.verilog_run.specs.Numbers.{one_of, two_of, number_in};
ghost use Rattle.verilog_run.specs.Execution.{widths_of, state_of};

use crate::variables::{Variable, variable_at};
use tagged::bytes::{four_of, from, get_or};
use tagged::fields::open_field;
use tagged::sorts::{ExpressionSort, Sort};
use verilog::reading::after_front;
use words::{OneOperand, TwoOperand, bit, one_result, two_result};

// A number with the width of its vector.
#[derive(Clone, Copy, Debug, Default, PartialEq, Eq)]
pub struct Number {
    pub width: u8,
    pub number: u32,
}

// The result of an operator of one operand.
fn one_of(op: OneOperand, value: Number) -> Number
    ensures { result ≡ one_of op value }
{
    Number {
        width: op.result_width(value.width),
        number: one_result(op, value.width, value.number),
    }
}

// The result of an operator of two operands.
fn two_of(op: TwoOperand, first: Number, second: Number) -> Number
    ensures { result ≡ two_of op first second }
{
    Number {
        width: op.result_width(first.width),
        number: two_result(op, first.width, first.number, second.number),
    }
}

// The value of the expression at the front of a part.
#[tactic(auto, using(verilog::proofs::FrontReading::no_level, verilog::proofs::FrontReading::read_expression, verilog::proofs::FrontReading::read_other, verilog::proofs::FrontReading::read_none, tagged::proofs::WalkLaws::front_within), unfolding(crate::specs::Numbers::number_in))]
#[cycle(value_by_value_of)]
pub fn value_of(part: &[u8], depth: usize, variables: &[Variable]) -> Number
    ensures { result ≡ number_in (widths_of variables.now) (state_of variables.now).current (expression_in depth part.now) }
{
    if depth == 0 {
        return Number::default();
    }
    let Ok((sort, size)) = open_field(part, 0, 0) else {
        return Number::default();
    };
    match sort {
        Sort::Expression(inner) => value_by(inner, &part[3..size + 3], depth - 1, variables),
        _ => Number::default(),
    }
}

// The value of an expression, by its sort and payload.
#[tactic(auto, unfolding(crate::specs::Numbers::number_in))]
#[cycle(value_by_value_of)]
fn value_by(sort: ExpressionSort, payload: &[u8], depth: usize, variables: &[Variable]) -> Number
    ensures { result ≡ number_in (widths_of variables.now) (state_of variables.now).current (expression_with (expression_in depth) sort payload.now) }
{
    let variable = variable_at(variables, get_or(payload, 0, 0));
    match sort {
        ExpressionSort::Constant => Number {
            width: get_or(payload, 0, 0),
            number: four_of(from(payload, 1)),
        },
        ExpressionSort::Variable => Number {
            width: variable.width,
            number: variable.current,
        },
        ExpressionSort::FixedBit => Number {
            width: 1,
            number: bit(variable.current, u32::from(get_or(payload, 1, 0))),
        },
        ExpressionSort::ChosenBit => {
            let index = value_of(from(payload, 1), depth, variables);
            Number {
                width: 1,
                number: bit(variable.current, index.number),
            }
        }
        ExpressionSort::One(op) => one_of(op, value_of(payload, depth, variables)),
        ExpressionSort::Two(op) => two_of(
            op,
            value_of(payload, depth, variables),
            value_of(after_front(payload), depth, variables),
        ),
    }
}
