// The merge of two tables after two sides of an if or of a case: where they differ, a mux chooses.
ghost use Rattle.std.specs.Prelude.{◌≡◌, [], ◌∷◌, ◌+◌, ◌*◌, ◌^◌, ◌≤◌, length};
ghost use Rattle.translate.specs.Tables.{merge};
ghost use Rattle.translate_blocks.specs.Emitting.{Emits};

use crate::emit::Emitter;
use netlist::{Cell, Operand};

impl Emitter<'_> {
    // Merges two operands: the same one stays, and where they differ a mux chooses.
    fn choose(&mut self, condition: Operand, first: Operand, second: Operand) -> Operand
        requires { (self.old.at + 22 ≤ 2 ^ 40) × (self.old.cells + 1 ≤ 2 ^ 31) }
        ensures emits { Emits self.old (merge condition self.old.cells (first ∷ []) (second ∷ [])).cells self.new }
        ensures operand { result ∷ [] ≡ (merge condition self.old.cells (first ∷ []) (second ∷ [])).operands }
    {
        if first == second {
            return first;
        }
        let width = first.width();
        let mux = Operand::Cell(width, self.cells);
        self.emit(Cell::Mux(width, condition, first, second));
        mux
    }

    // Merges a table into another, in place: for each entry in which they differ, in order, a mux.
    pub fn merge(&mut self, condition: Operand, first: &[Operand], table: &mut [Operand])
        requires { (self.old.at + 22 * length first.now ≤ 2 ^ 40) × (self.old.cells + length first.now ≤ 2 ^ 31)
            × (length table.old ≡ length first.now) × (length first.now ≤ 2 ^ 16) }
        ensures emits { Emits self.old (merge condition self.old.cells first.now table.old).cells self.new }
        ensures table_after { table.new ≡ (merge condition self.old.cells first.now table.old).operands }
    {
        for (index, one) in first.iter().enumerate() {
            table[index] = self.choose(condition, *one, table[index]);
        }
    }
}
