// The first assignment to each variable, by one pass over the processes of a file.
ghost use Rattle.std.specs.Prelude.{◌≡◌, ◌+◌, ◌^◌, ◌≤◌, length};
ghost use Rattle.verilog_check.specs.Tables.{with_first};
ghost use Rattle.verilog_check.specs.Survey.{step_over, begun_after, noted, survey_from};

use crate::assignments::First;
use tagged::bytes::get_or;
use tagged::fields::open_field;
use tagged::sorts::{Kind, Sort, StatementSort};

// How many bytes further the next field stands: what holds statements is stepped into, every other field is passed over.
#[tactic(auto, unfolding(crate::specs::Survey::step_over))]
fn step_over(sort: Sort, size: usize) -> usize
    requires { size ≤ 2 ^ 40 }
    ensures { result ≡ step_over sort size }
{
    match sort {
        Sort::Statement(StatementSort::If | StatementSort::Case)
        | Sort::Process
        | Sort::Item
        | Sort::Block => 3,
        _ => size + 3,
    }
}

// How many processes have begun after a field of this sort.
#[tactic(auto, unfolding(crate::specs::Survey::begun_after))]
fn begun_after(sort: Sort, begun: usize) -> usize
    requires { begun ≤ 2 ^ 40 }
    ensures { result ≡ begun_after sort begun }
{
    match sort {
        Sort::Process => begun + 1,
        _ => begun,
    }
}

// Puts an assignment into the table, unless there was one to its variable before.
#[tactic(auto, unfolding(crate::specs::Tables::with_first))]
fn put_first(firsts: &mut [Option<First>], variable: u8, first: First)
    ensures { firsts.new ≡ with_first firsts.old variable first }
{
    let place = usize::from(variable);
    if place < firsts.len() && firsts[place].is_none() {
        firsts[place] = Some(first);
    }
}

// Notes a field that is an assignment; one by blocking before any process counts as none.
#[tactic(auto, unfolding(crate::specs::Survey::noted, crate::specs::Tables::note_first))]
fn note(sort: Sort, variable: u8, begun: usize, firsts: &mut [Option<First>])
    ensures { firsts.new ≡ noted sort variable begun firsts.old }
{
    match sort {
        Sort::Statement(StatementSort::Assign(kind) | StatementSort::AssignBit(kind))
            if begun != 0 || kind != Kind::Blocking => {
            let first = First {
                kind,
                process: begun,
            };
            put_first(firsts, variable, first);
        }
        _ => {}
    }
}

// The first assignments in a list of processes, put into the table.
#[tactic(auto, using(crate::proofs::SurveySteps::field_within, crate::proofs::SurveySteps::turn_within))]
pub fn survey(list: &[u8], firsts: &mut [Option<First>])
    requires { length list.now ≤ 2 ^ 40 }
    ensures { firsts.new ≡ survey_from 0 0 list.now firsts.old }
{
    let mut at: usize = 0;
    let mut begun: usize = 0;
    while let Ok((sort, size)) = open_field(&list[at..], 0, 0) {
        note(sort, get_or(list, at + 3, 0), begun, firsts);
        begun = begun_after(sort, begun);
        at += step_over(sort, size);
    }
}
