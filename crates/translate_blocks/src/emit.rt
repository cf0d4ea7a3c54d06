// Cells written one after the other, only where there is room, and counted.
ghost use Rattle.std.specs.Prelude.{[], ◌∷◌, ◌+◌, ◌^◌, ◌≤◌};
ghost use Rattle.translate_blocks.specs.Emitting.{Emits};

use netlist::Cell;
use netlist::write::put_cell;

// The buffer that a netlist is written into, where the next byte goes, and how many cells there are.
#[derive(Drop)]
pub struct Emitter<'a> {
    pub out: &'a mut [u8],
    pub at: usize,
    pub cells: u32,
}

impl Emitter<'_> {
    // Writes one cell.
    pub fn emit(&mut self, cell: Cell)
        requires { (self.old.at + 22 ≤ 2 ^ 40) × (self.old.cells + 1 ≤ 2 ^ 31) }
        ensures { Emits self.old (cell ∷ []) self.new }
    {
        self.at = put_cell(self.out, self.at, cell);
        self.cells += 1;
    }
}
