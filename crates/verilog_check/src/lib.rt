// The check of a module: refusals 1 to 11.
#![tactic(auto)]

pub mod assignments;
pub mod judge;
pub mod rules;
pub mod survey;
pub mod walk;

ghost use Rattle.std.specs.Prelude.{◌≡◌};
ghost use Rattle.verilog.specs.Answer.{module_answer};

use crate::rules::tree_answer;
use tagged::answers::Refusal;
use tagged::files::file_answer;
use tagged::limits::LONGEST_MODULE;
use verilog::form::module_form;

// The answer of a module's file: refusals 1 to 11.
#[tactic(auto, unfolding(verilog::specs::Answer::module_answer))]
pub fn check(file: &[u8]) -> Result<(), Refusal>
    ensures { result ≡ module_answer file.now }
{
    file_answer::<LONGEST_MODULE>(file)?;
    module_form(file)?;
    tree_answer(file)
}
