// How the translation begins and ends: the table in which each variable is itself, and the drives of the registers.
ghost use Rattle.std.specs.Prelude.{◌≡◌, ◌+◌, ◌*◌, ◌^◌, ◌≤◌, length};
ghost use Rattle.std.proofs.lemmas.List.Edits.{sets};
ghost use Rattle.tagged.specs.Limits.{most_variables};
ghost use Rattle.translate_blocks.specs.Emitting.{Drives};
ghost use Rattle.translate_blocks.specs.Ends.{start_from, start_table, drive_by, marked_drive, drives_by};

use crate::emit::Emitter;
use crate::table::{operand_at, slot_of};
use netlist::write::put_drive;
use netlist::{Drive, Operand};
use tagged::bytes::{get_or, put_item};
use verilog_check::assignments::{First, kind_of};

// Puts each variable itself, from a slot on.
#[tactic(auto, using(crate::proofs::StartTurns::start_begun, crate::proofs::StartTurns::start_turn, crate::proofs::StartTurns::start_done))]
fn put_variables(table: &mut [Operand], at: usize, widths: &[u8])
    requires { (at ≤ most_variables) × (length widths.now ≤ most_variables) }
    ensures { table.new ≡ sets table.old at (start_from 0 widths.now) }
{
    for (variable, width) in widths.iter().enumerate() {
        let operand = Operand::Variable(*width, variable as u32);
        put_item(table, at + variable, operand);
    }
}

// The table that the translation begins with: each variable itself, as current and as pending operand.
pub fn start_table(widths: &[u8], table: &mut [Operand])
    requires { (length table.old ≡ 2 * length widths.now) × (length widths.now ≤ most_variables) }
    ensures { table.new ≡ start_table widths.now }
{
    put_variables(table, 0, widths);
    put_variables(table, widths.len(), widths);
}

// The drive of a variable.
fn drive_of(count: usize, firsts: &[Option<First>], table: &[Operand], variable: u8) -> Drive
    requires { count ≤ most_variables }
    ensures { result ≡ drive_by count firsts.now table.now variable }
{
    let first = get_or(firsts, usize::from(variable), None);
    let slot = slot_of(count, kind_of(first), variable);
    Drive {
        variable,
        operand: operand_at(table, slot),
    }
}

impl Emitter<'_> {
    // Writes the drive of a variable, if it is marked as a register.
    #[tactic(auto, using(crate::proofs::DriveTurns::drives_none), unfolding(crate::specs::Ends::marked_drive, tagged::specs::Fields::all_bytes_of))]
    fn marked_drive(
        &mut self,
        count: usize,
        firsts: &[Option<First>],
        table: &[Operand],
        variable: u8,
        mark: bool,
    )
        requires { (count ≤ most_variables) × (self.old.at + 10 ≤ 2 ^ 40) }
        ensures { Drives self.old (marked_drive count firsts.now table.now variable mark) self.new }
    {
        if mark {
            let drive = drive_of(count, firsts, table, variable);
            self.at = put_drive(self.out, self.at, drive);
        }
    }

    // Writes the drives of all registers in rising order, so far as there is room.
    pub fn drives(&mut self, marks: &[bool], firsts: &[Option<First>], table: &[Operand])
        requires { (length marks.now ≤ most_variables) × (self.old.at + 640 ≤ 2 ^ 40) }
        ensures { Drives self.old (drives_by marks.now firsts.now table.now) self.new }
    {
        for (variable, mark) in marks.iter().enumerate() {
            self.marked_drive(marks.len(), firsts, table, variable as u8, *mark);
        }
    }
}
