// The variables of a module during a cycle.
ghost use Rattle.std.specs.Prelude.{◌≡◌, cond, get_or};
ghost use Rattle.verilog.specs.Cycle.{changed, held, is_non_blocking};
ghost use Rattle.verilog_check.specs.Tables.{kind_of};
ghost use Rattle.verilog_run.specs.Execution.{widths_of, state_of, Runs};

use tagged::bytes::get_or;
use tagged::sorts::Kind;
use verilog_check::assignments::{First, kind_of};

// A variable: its width, and its two values. Expressions read the current one, and a non-blocking assignment changes the pending one.
#[derive(Clone, Copy, Debug, Default, PartialEq, Eq)]
pub struct Variable {
    pub width: u8,
    pub current: u32,
    pub pending: u32,
}

impl Variable {
    // A register's value after the cycle: the pending one if its first assignment is non-blocking, else the current one.
    pub fn settled(self, first: Option<First>) -> u32
        ensures { result ≡ cond (is_non_blocking (kind_of first)) self.pending self.current }
    {
        match kind_of(first) {
            Kind::Blocking => self.current,
            Kind::NonBlocking => self.pending,
        }
    }
}

// A variable; of width 0 where there is none.
#[tactic(auto, using(crate::proofs::VariableLaws::width_at, crate::proofs::VariableLaws::current_at, crate::proofs::VariableLaws::pending_at))]
pub fn variable_at(variables: &[Variable], variable: u8) -> Variable
    ensures width { result.width ≡ get_or (widths_of variables.now) variable 0 }
    ensures current { result.current ≡ get_or (state_of variables.now).current variable 0 }
    ensures pending { result.pending ≡ get_or (state_of variables.now).pending variable 0 }
{
    get_or(variables, usize::from(variable), Variable::default())
}

// The value that an assignment of this kind changes.
pub fn held_by(kind: Kind, variable: u8, variables: &[Variable]) -> u32
    ensures { result ≡ held kind (state_of variables.now) variable }
{
    let held = variable_at(variables, variable);
    match kind {
        Kind::Blocking => held.current,
        Kind::NonBlocking => held.pending,
    }
}

// Changes the value that an assignment of this kind changes.
#[tactic(auto, using(crate::proofs::VariableLaws::width_changed, crate::proofs::VariableLaws::current_changed, crate::proofs::VariableLaws::pending_changed, std::proofs::lemmas::List::set_past))]
pub fn change(kind: Kind, variable: u8, number: u32, variables: &mut [Variable])
    ensures { Runs (λ widths state. changed kind state variable number) variables.old variables.new }
{
    let place = usize::from(variable);
    if place < variables.len() {
        match kind {
            Kind::Blocking => variables[place].current = number,
            Kind::NonBlocking => variables[place].pending = number,
        }
    }
}
