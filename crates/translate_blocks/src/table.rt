// A table of operands: the current operand of each variable, and behind these the pending ones.
ghost use Rattle.std.specs.Prelude.{◌≡◌, ◌^◌, ◌≤◌};
ghost use Rattle.translate.specs.Tables.{operand_at};
ghost use Rattle.translate_blocks.specs.Writing.{variables_in, current_operands, slot_of};

use netlist::Operand;
use tagged::bytes::{front, get_or};
use tagged::sorts::Kind;

// What stands for a missing operand.
pub const NOTHING: Operand = Operand::Constant(0, 0);

// The operand in a slot.
pub fn operand_at(table: &[Operand], slot: usize) -> Operand
    ensures { result ≡ operand_at table.now slot }
{
    get_or(table, slot, NOTHING)
}

// How many variables a table has.
pub fn variables_in(table: &[Operand]) -> usize
    ensures { result ≡ variables_in table.now }
{
    table.len() / 2
}

// The current operands.
pub fn current(table: &[Operand]) -> &[Operand]
    ensures { result.now ≡ current_operands (variables_in table.now) table.now }
{
    front(table, variables_in(table))
}

// Where a table of so many variables has the operand that an assignment of this kind replaces.
pub fn slot_of(count: usize, kind: Kind, variable: u8) -> usize
    requires { count ≤ 2 ^ 40 }
    ensures { result ≡ slot_of count kind variable }
{
    match kind {
        Kind::Blocking => usize::from(variable),
        Kind::NonBlocking => count + usize::from(variable),
    }
}
