// Refusals 3 to 11 of a file to which 1 and 2 do not apply: of the declarations and of the processes, the lower number stands.
ghost use Rattle.std.specs.Prelude.{◌≡◌, ◌+◌, length};
ghost use Rattle.tagged.specs.Answers.{acceptance};
ghost use Rattle.tagged.specs.Files.{file_answer};
ghost use Rattle.tagged.specs.Limits.{longest_module};
ghost use Rattle.verilog.specs.Answer.{tree_answer};
ghost use Rattle.verilog.specs.Form.{module_form};
ghost use Rattle.verilog.specs.Reading.{module_in};

use crate::survey::survey;
use crate::walk::processes_answer;
use tagged::answers::{Refusal, or_lower};
use tagged::bytes::from;
use tagged::declarations::{declarations_answer, declared_bytes, variable_table};
use tagged::limits::MOST_VARIABLES;

// The answer of a file to which refusals 1 and 2 do not apply.
#[tactic(auto, using(tagged::proofs::AllBytesLaws::read_bytes, tagged::proofs::TableLaws::widths_long, tagged::proofs::TableLaws::marks_long, crate::proofs::TreeAnswers::payload_long, crate::proofs::TreeAnswers::list_long))]
pub fn tree_answer(file: &[u8]) -> Result<(), Refusal>
    requires { (file_answer longest_module file.now ≡ acceptance) × (module_form file.now ≡ Ok (length file.now)) }
    ensures { result ≡ tree_answer 3 (module_in file.now) }
{
    let payload = from(file, 3);
    let bytes = declared_bytes(payload);
    let list = from(payload, bytes);
    let table = variable_table(payload);
    let mut firsts = [None; MOST_VARIABLES];
    survey(list, &mut firsts);
    let declared = declarations_answer(payload, 3);
    let processes = processes_answer(table.widths(), table.registers(), &firsts, list, 3 + bytes);
    or_lower(declared, processes)
}
