// Answers: acceptance, or one refusal by its rule and place; and the struct in which C gets them.
ghost use Rattle.std.specs.Prelude.{◌≡◌, Some};
ghost use Rattle.tagged.specs.Answers.{acceptance, number_of, refusal_words, reply_of, translation_reply, refusal_reply, refused_form};
ghost use Rattle.tagged.specs.Refusals.{refused_at, found_if, lower_refusal};

use std::error::Error;
use std::fmt;

// What a refusal is given for, in the order in which document 01 looks for them.
#[derive(Clone, Copy, Debug, PartialEq, Eq, Hash)]
pub enum Rule {
    FileLength,
    Form,
    Value,
    Name,
    Count,
    Reference,
    Widths,
    BitNumber,
    BothKinds,
    TwoProcesses,
    ReadElsewhere,
    Cells,
    Buffer,
    Row,
}

// A refusal: the rule that is broken, and the place. What a check, a reading or a run answers is a `Result<(), Refusal>`.
#[derive(Clone, Copy, Debug, PartialEq, Eq, Hash)]
pub struct Refusal {
    pub rule: Rule,
    pub place: usize,
}

// What translating has written: the netlist's length in bytes, and its count of cells.
#[derive(Clone, Copy, Debug, PartialEq, Eq, Hash)]
pub struct Written {
    pub length: usize,
    pub cells: u32,
}

// The first fault of a file's form, refusal 2, by its place.
#[derive(Clone, Copy, Debug, PartialEq, Eq, Hash)]
pub struct Fault {
    pub place: usize,
}

// An answer for C: number 0 is acceptance; `at` is the place, or the length of what was written.
#[repr(C)]
#[derive(Clone, Copy, Debug, PartialEq, Eq, Hash)]
pub struct Reply {
    pub number: u32,
    pub cells: u32,
    pub at: u64,
}

impl Rule {
    // The number that document 01 gives.
    #[tactic(auto, unfolding(crate::specs::Answers::number_of))]
    pub fn number(self) -> u32
        ensures { result ≡ number_of self }
    {
        match self {
            Rule::FileLength => 1,
            Rule::Form => 2,
            Rule::Value => 3,
            Rule::Name => 4,
            Rule::Count => 5,
            Rule::Reference => 6,
            Rule::Widths => 7,
            Rule::BitNumber => 8,
            Rule::BothKinds => 9,
            Rule::TwoProcesses => 10,
            Rule::ReadElsewhere => 11,
            Rule::Cells => 12,
            Rule::Buffer => 13,
            Rule::Row => 14,
        }
    }
}

impl fmt::Display for Refusal {
    ghost output = { λ refusal. Some (refusal_words refusal) };

    fn fmt<W: fmt::Write>(&self, f: &mut fmt::Formatter<W>) -> fmt::Result {
        write!(f, "refused {} at {}", self.rule.number(), self.place)
    }
}

impl Error for Refusal {}

impl From<Fault> for Refusal {
    ghost from_gives = { λ fault refusal. refusal ≡ refused_form fault };

    fn from(fault: Fault) -> Refusal {
        Refusal {
            rule: Rule::Form,
            place: fault.place,
        }
    }
}

impl From<Refusal> for Reply {
    ghost from_gives = { λ refusal reply. reply ≡ refusal_reply refusal };

    #[tactic(auto, unfolding(crate::specs::Answers::refusal_reply))]
    fn from(refusal: Refusal) -> Reply {
        Reply {
            number: refusal.rule.number(),
            cells: 0,
            at: refusal.place as u64,
        }
    }
}

impl From<Result<(), Refusal>> for Reply {
    ghost from_gives = { λ answer reply. reply ≡ reply_of answer };

    #[tactic(auto, unfolding(crate::specs::Answers::reply_of, crate::specs::Answers::refusal_reply))]
    fn from(answer: Result<(), Refusal>) -> Reply {
        match answer {
            Ok(()) => Reply {
                number: 0,
                cells: 0,
                at: 0,
            },
            Err(refusal) => Reply::from(refusal),
        }
    }
}

impl From<Result<Written, Refusal>> for Reply {
    ghost from_gives = { λ answer reply. reply ≡ translation_reply answer };

    #[tactic(auto, unfolding(crate::specs::Answers::translation_reply, crate::specs::Answers::refusal_reply))]
    fn from(answer: Result<Written, Refusal>) -> Reply {
        match answer {
            Ok(written) => Reply {
                number: 0,
                cells: written.cells,
                at: written.length as u64,
            },
            Err(refusal) => Reply::from(refusal),
        }
    }
}

// Of two answers the refusal with the lower number; of two with the same number the first. A refusal is taken apart and made anew: copied whole, it
// goes by moves that overlap, for which the loads behind them wait, and every walk asks this at each field.
pub fn or_lower(first: Result<(), Refusal>, second: Result<(), Refusal>) -> Result<(), Refusal>
    ensures { result ≡ lower_refusal first second }
{
    match first {
        Ok(()) => match second {
            Ok(()) => Ok(()),
            Err(Refusal { rule, place }) => Err(Refusal { rule, place }),
        },
        Err(one) => match second {
            Err(other) if other.rule.number() < one.rule.number() => Err(Refusal {
                rule: other.rule,
                place: other.place,
            }),
            _ => Err(Refusal {
                rule: one.rule,
                place: one.place,
            }),
        },
    }
}

// The refusal by this rule, at this place, of what breaks it.
pub fn refuse_if(broken: bool, rule: Rule, place: usize) -> Result<(), Refusal>
    ensures { result ≡ refused_at rule (found_if broken place) acceptance }
{
    if broken {
        Err(Refusal { rule, place })
    } else {
        Ok(())
    }
}
