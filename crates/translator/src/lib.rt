// The call `translate`: a module's file in, its netlist out; refusals 1 to 13.
#![tactic(auto)]

pub mod parts;
pub mod passes;

ghost use Rattle.std.specs.Prelude.{◌≡◌, length};
ghost use Rattle.tagged.specs.Answers.{acceptance, Promise};
ghost use Rattle.verilog.specs.Answer.{module_answer};
ghost use Rattle.translate.specs.Answer.{translate_answer, translate_buffer, largest_netlist};

use crate::parts::Parts;
use crate::passes::measure_and_write;
use tagged::answers::{Refusal, Written};
use tagged::bytes::{from, front};
use tagged::declarations::{declared_bytes, variable_table};
use tagged::limits::MOST_VARIABLES;
use verilog_check::check;
use verilog_check::survey::survey;

// No netlist is longer, so a buffer of this length is never too short.
pub const LARGEST_NETLIST: usize = 25219;

// The constant of the code is that of the definitions.
pub fn largest_netlist() -> usize
    ensures { result ≡ largest_netlist }
{
    LARGEST_NETLIST
}

// The netlist of an accepted module: its parts and tables, and then both passes over them.
#[tactic(auto, using(tagged::proofs::AllBytesLaws::read_bytes, verilog_check::proofs::AcceptedFile::payload_short, verilog_check::proofs::AcceptedFile::widths_few, verilog_check::proofs::AcceptedFile::marks_few, crate::proofs::ModulePassed::list_short, crate::proofs::ModulePassed::parts_short))]
fn translate_accepted(file: &[u8], out: &mut [u8]) -> Result<Written, Refusal>
    requires { module_answer file.now ≡ acceptance }
    ensures { Promise (translate_answer file.now (length out.old)) (translate_buffer file.now out.old) result out.new }
{
    let payload = from(file, 3);
    let taken = declared_bytes(payload);
    let list = from(payload, taken);
    let table = variable_table(payload);
    let mut firsts = [None; MOST_VARIABLES];
    survey(list, &mut firsts);
    let parts = Parts {
        declared: front(payload, taken),
        list,
        widths: table.widths(),
        marks: table.registers(),
        firsts: &firsts,
    };
    measure_and_write(parts, out)
}

// Translates a module's file into a buffer: refusals 1 to 13. A refusal leaves the buffer as it was.
#[tactic(auto, unfolding(translate::specs::Answer::translate_answer, translate::specs::Answer::translate_buffer))]
pub fn translate(file: &[u8], out: &mut [u8]) -> Result<Written, Refusal>
    ensures { Promise (translate_answer file.now (length out.old)) (translate_buffer file.now out.old) result out.new }
{
    check(file)?;
    translate_accepted(file, out)
}
