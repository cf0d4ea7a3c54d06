// Values of a width, 1 to 32 bits: widths, single bits, and the operators that expressions and cells share.
#![tactic(auto)]

pub mod limits;

ghost use Rattle.std.specs.Prelude.{◌≡◌, ◌≤◌, ◌<◌, ◌^◌};
ghost use Rattle.words.specs.Limits.{greatest_width};
ghost use Rattle.words.specs.Limited.{number_in};
ghost use Rattle.words.specs.Widths.{is_width, made_width, fits_width, index_within};
ghost use Rattle.words.specs.Bits as bits;
ghost use Rattle.words.specs.Operators.{one_width, one_number, two_width, two_number};
ghost use Rattle.words.specs.Results.{one_result, two_result, put_result};

use limits::{Limited, Limits};

// No value has more bits.
pub const GREATEST_WIDTH: usize = 32;

// How many bits a value has.
pub type Width = Limited<1, GREATEST_WIDTH>;

// A width of so many bits, if there is one.
pub fn made_width(bits: usize) -> Option<Width>
    ensures { number_in result ≡ number_in (made_width bits) }
{
    Width::new(bits)
}

// The greatest width.
pub fn greatest_width() -> usize
    ensures { result ≡ greatest_width }
{
    Width::MAX
}

// Is it a width, 1 to 32?
pub fn is_width(bits: u8) -> bool
    ensures { result ≡ is_width bits }
{
    Width::new(usize::from(bits)).is_some()
}

// The operators of one operand: expressions 24 and 2A, cells 30 and 3A.
#[derive(Clone, Copy, Debug, PartialEq, Eq, Hash)]
pub enum OneOperand {
    Not,
    Parity,
}

// The operators of two operands: expressions 25 to 29, cells 31 to 35.
#[derive(Clone, Copy, Debug, PartialEq, Eq, Hash)]
pub enum TwoOperand {
    And,
    Or,
    Xor,
    Add,
    Equal,
}

impl OneOperand {
    // The width of the result, from the operand's.
    #[tactic(auto, unfolding(crate::specs::Operators::one_width))]
    pub fn result_width(self, width: u8) -> u8
        ensures { result ≡ one_width self width }
    {
        match self {
            OneOperand::Not => width,
            OneOperand::Parity => 1,
        }
    }

    // The result for an operand of this width.
    #[tactic(auto, unfolding(crate::specs::Operators::one_number))]
    pub fn result(self, width: u8, value: u32) -> u32
        requires { width ≤ greatest_width }
        ensures { result ≡ one_number self width value }
    {
        match self {
            OneOperand::Not => inverted(width, value),
            OneOperand::Parity => parity(value),
        }
    }
}

impl TwoOperand {
    // The width of the result, from the operands'.
    #[tactic(auto, unfolding(crate::specs::Operators::two_width))]
    pub fn result_width(self, width: u8) -> u8
        ensures { result ≡ two_width self width }
    {
        match self {
            TwoOperand::And | TwoOperand::Or | TwoOperand::Xor | TwoOperand::Add => width,
            TwoOperand::Equal => 1,
        }
    }

    // The result for two operands of this width.
    #[tactic(auto, unfolding(crate::specs::Operators::two_number))]
    pub fn result(self, width: u8, first: u32, second: u32) -> u32
        requires { width ≤ greatest_width }
        ensures { result ≡ two_number self width first second }
    {
        match self {
            TwoOperand::And => first & second,
            TwoOperand::Or => first | second,
            TwoOperand::Xor => first ^ second,
            TwoOperand::Add => sum(width, first, second),
            TwoOperand::Equal => same(first, second),
        }
    }
}

// Two to a width.
pub fn power_of_two(width: u8) -> u64
    requires { width ≤ greatest_width }
    ensures { result ≡ 2 ^ width }
{
    1u64 << width
}

// Does the value fit the width? A u32 fits every width from 32 on.
pub fn fits(width: u8, value: u32) -> bool
    ensures { result ≡ fits_width width value }
{
    usize::from(width) > GREATEST_WIDTH || u64::from(value) < power_of_two(width)
}

// Does every index of this width name a bit of a vector of so many bits?
pub fn index_within(index_width: u8, vector_width: u8) -> bool
    ensures { result ≡ index_within index_width vector_width }
{
    usize::from(index_width) <= GREATEST_WIDTH
        && power_of_two(index_width) <= u64::from(vector_width)
}

// Each bit of the width turned round.
#[tactic(auto, unfolding(crate::specs::Bits::inverted))]
pub fn inverted(width: u8, value: u32) -> u32
    requires { width ≤ greatest_width }
    ensures { result ≡ bits.inverted width value }
{
    let power = power_of_two(width);
    (power - 1 - u64::from(value) % power) as u32
}

// The sum without the carry out of the width.
#[tactic(auto, unfolding(crate::specs::Bits::sum))]
pub fn sum(width: u8, first: u32, second: u32) -> u32
    requires { width ≤ greatest_width }
    ensures { result ≡ bits.sum width first second }
{
    ((u64::from(first) + u64::from(second)) % power_of_two(width)) as u32
}

// One when the values are equal, else zero.
#[tactic(auto, unfolding(crate::specs::Bits::same))]
pub fn same(first: u32, second: u32) -> u32
    ensures { result ≡ bits.same first second }
{
    u32::from(first == second)
}

// One when the number of ones is odd.
pub fn parity(value: u32) -> u32
    ensures { result ≡ bits.parity value }
{
    u32::count_ones(value) % 2
}

// The bit with this number; there is none but zeros from 32 on.
#[tactic(auto, unfolding(crate::specs::Bits::bit))]
pub fn bit(value: u32, number: u32) -> u32
    ensures { result ≡ bits.bit value number }
{
    if (number as usize) < GREATEST_WIDTH {
        (value >> number) % 2
    } else {
        0
    }
}

// The value with a new bit at this number.
#[tactic(auto, unfolding(crate::specs::Bits::put_bit))]
pub fn put_bit(value: u32, number: u32, new: u32) -> u32
    requires { (number < greatest_width) × (new < 2) }
    ensures { result ≡ bits.put_bit value number new }
{
    let place = 1u32 << number;
    let old = bit(value, number);
    value - old * place + new * place
}

// The second where the condition is one, the third where it is zero.
#[tactic(auto, unfolding(crate::specs::Bits::mux))]
pub fn mux(condition: u32, when_one: u32, when_zero: u32) -> u32
    ensures { result ≡ bits.mux condition when_one when_zero }
{
    if condition == 0 { when_zero } else { when_one }
}

// The result of an operator of one operand; 0 for a width over 32.
#[tactic(auto, unfolding(crate::specs::Results::one_result))]
pub fn one_result(op: OneOperand, width: u8, value: u32) -> u32
    ensures { result ≡ one_result op width value }
{
    if usize::from(width) <= GREATEST_WIDTH {
        op.result(width, value)
    } else {
        0
    }
}

// The result of an operator of two operands; 0 for a width over 32.
#[tactic(auto, unfolding(crate::specs::Results::two_result))]
pub fn two_result(op: TwoOperand, width: u8, first: u32, second: u32) -> u32
    ensures { result ≡ two_result op width first second }
{
    if usize::from(width) <= GREATEST_WIDTH {
        op.result(width, first, second)
    } else {
        0
    }
}

// A vector with a new bit; 0 for a bit number from 32 on, and for a bit that is neither 0 nor 1.
#[tactic(auto, unfolding(crate::specs::Results::put_result))]
pub fn put_result(vector: u32, number: u8, new: u32) -> u32
    ensures { result ≡ put_result vector number new }
{
    if usize::from(number) < GREATEST_WIDTH && new < 2 {
        put_bit(vector, u32::from(number), new)
    } else {
        0
    }
}
