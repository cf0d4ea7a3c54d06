// The first assignment to a variable, and what rules 9 to 11 and the cycle ask of it.
ghost use Rattle.std.specs.Prelude.{◌≡◌};
ghost use Rattle.verilog_check.specs.Tables.{kind_of};

use tagged::sorts::Kind;

// A first assignment to a variable: its kind, and the number of its process, counted from 1.
#[derive(Clone, Copy, Debug, PartialEq, Eq, Hash)]
pub struct First {
    pub kind: Kind,
    pub process: usize,
}

// The kind of a first assignment; where there is none, as if it were by blocking.
pub fn kind_of(first: Option<First>) -> Kind
    ensures { result ≡ kind_of first }
{
    match first {
        Some(first) => first.kind,
        None => Kind::Blocking,
    }
}
