// The two passes over the parts of a module: one measures, over a buffer of no bytes, and once 12 and 13 are decided the other writes.
ghost use Rattle.std.specs.Prelude.{◌≡◌, ◌*◌, ◌^◌, ◌≤◌, length};
ghost use Rattle.tagged.specs.Limits.{longest_module};
ghost use Rattle.tagged.specs.Answers.{acceptance, Promise};
ghost use Rattle.translate.specs.Answer.{after_check};
ghost use Rattle.translator.specs.Passes.{Passed, LogRoom, rest_of, whole_of, passed_cells, pass_answer, pass_buffer};

use crate::parts::Parts;
use netlist::write::put_head;
use tagged::answers::{Refusal, Rule, Written};
use tagged::bytes::put_part;
use tagged::limits::{Cells, LONGEST_MODULE, MOST_VARIABLES};
use translate_blocks::case_log::{Entry, Log};
use translate_blocks::emit::Emitter;
use translate_blocks::ends::start_table;
use translate_blocks::table::NOTHING;

// As many entries as the log of a case needs at most: one for every third byte of a file.
const LONG_LOG: usize = LONGEST_MODULE / 3 + 1;

// As many as it has if the list of processes is short.
const SHORT_LOG: usize = 512;

// The longest list that a short log is enough for.
const SHORT_LIST: usize = 3 * SHORT_LOG;

// What stands in a log that is still empty.
const NO_ENTRY: Entry = Entry {
    slot: 0,
    operand: NOTHING,
};

// Writes the cells of the processes and the drives of the registers, from the table in which each variable is itself.
fn put_rest(parts: Parts, emitter: &mut Emitter, entries: &mut [Entry])
    requires room { LogRoom parts.list.now entries.old }
    requires begun { (emitter.old.cells ≡ 0) × (emitter.old.at ≤ 2 ^ 20) }
    ensures passed { Passed emitter.old.out.now emitter.old.at (rest_of parts.entry) (passed_cells parts.entry)
        emitter.new.out.now emitter.new.at emitter.new.cells }
    ensures same_buffer { emitter.new.out.ghost_name ≡ emitter.old.out.ghost_name }
{
    let mut operands = [NOTHING; 2 * MOST_VARIABLES];
    let table = &mut operands[..2 * parts.widths.len()];
    start_table(parts.widths, table);
    let mut log = Log { entries, top: 0 };
    emitter.processes(parts.list, table, &mut log);
    emitter.drives(parts.marks, parts.firsts, table);
}

// One pass: the header for a payload of so many bytes, the declarations as they stand, the cells, and the drives.
fn pass(size: u32, parts: Parts, out: &mut [u8], entries: &mut [Entry]) -> Written
    requires { LogRoom parts.list.now entries.old }
    ensures { Passed out.old 0 (whole_of size parts.entry) (passed_cells parts.entry) out.new result.length result.cells }
{
    let head = put_head(out, 0, size);
    let at = put_part(out, head, parts.declared);
    let mut emitter = Emitter { out, at, cells: 0 };
    put_rest(parts, &mut emitter, entries);
    Written {
        length: emitter.at,
        cells: emitter.cells,
    }
}

// Refusals 12 and 13 on what a pass measured, for a buffer of so many bytes; else what was measured.
fn measured_answer(measured: Written, room: usize) -> Result<Written, Refusal>
    ensures { result ≡ after_check acceptance measured.cells measured.length room }
{
    Cells::new(measured.cells as usize).ok_or(Refusal {
        rule: Rule::Cells,
        place: 0,
    })?;
    if room < measured.length {
        return Err(Refusal {
            rule: Rule::Buffer,
            place: 0,
        });
    }
    Ok(measured)
}

// Both passes, with one log of so many entries for the two: measures, decides refusals 12 and 13, and only then writes.
fn both_passes<const ENTRIES: usize>(parts: Parts, out: &mut [u8]) -> Result<Written, Refusal>
    requires { (length parts.list.now ≤ 3 * ENTRIES) × (ENTRIES ≤ longest_module) }
    ensures { Promise (pass_answer parts.entry (length out.old)) (pass_buffer parts.entry out.old) result out.new }
{
    let mut log = [NO_ENTRY; ENTRIES];
    let measured = pass(0, parts, &mut [], &mut log);
    measured_answer(measured, out.len())?;
    Ok(pass((measured.length - 3) as u32, parts, out, &mut log))
}

// Both passes, with a short log if the list is short, since all of it is cleared first.
pub fn measure_and_write(parts: Parts, out: &mut [u8]) -> Result<Written, Refusal>
    ensures { Promise (pass_answer parts.entry (length out.old)) (pass_buffer parts.entry out.old) result out.new }
{
    if parts.list.len() <= SHORT_LIST {
        both_passes::<SHORT_LOG>(parts, out)
    } else {
        both_passes::<LONG_LOG>(parts, out)
    }
}
