// The form of a netlist file: refusal 2, the first fault met in reading declarations, cells and drives.
ghost use Rattle.std.specs.Prelude.{Ok, ◌≡◌, List, ◌∷◌, ℕ, ◌+◌, ◌^◌, ◌≤◌, length};
ghost use Rattle.tagged.specs.Sorts.{is_cell};
ghost use Rattle.tagged.specs.Fields.{passed_bytes, then_by};
ghost use Rattle.tagged.specs.Payloads.{over};
ghost use Rattle.netlist.specs.Form.{Shape, an_operand, a_byte, shape_of, slots_by, judged_past, cell_body, drive_body, cells_step, drives_judge, netlist_body, netlist_form};

use tagged::answers::Fault;
use tagged::bytes::get_or;
use tagged::declarations::declarations;
use tagged::fields::{ended, field_by, many, until_end};
use tagged::payload::Payload;
use tagged::sorts::{CellSort, Sort};

// What is left past an operand, of a kind up to 2; where none stands, the fault is the owner's.
#[tactic(auto, unfolding(crate::specs::Form::slots_by, tagged::specs::Fields::fixed_then))]
fn past_operand<'a>(part: Payload<'a>) -> Result<Payload<'a>, Fault>
    ensures { (l : List Shape) → over (slots_by (an_operand ∷ l)) part.entry ≡ judged_past result (slots_by l) }
{
    if get_or(part.bytes, 0, 0) <= 2 && 6 <= part.bytes.len() {
        Ok(part.past(6))
    } else {
        Err(Fault { place: part.owner })
    }
}

// What is left past a byte; where none stands, the fault is the owner's.
#[tactic(auto, unfolding(crate::specs::Form::slots_by, tagged::specs::Fields::fixed_then))]
fn past_byte<'a>(part: Payload<'a>) -> Result<Payload<'a>, Fault>
    ensures { (l : List Shape) → over (slots_by (a_byte ∷ l)) part.entry ≡ judged_past result (slots_by l) }
{
    if part.bytes.is_empty() {
        Err(Fault { place: part.owner })
    } else {
        Ok(part.past(1))
    }
}

// What a cell holds after its width byte: an operand, and the rest of its slots.
#[tactic(auto, using(crate::proofs::FormLaws::slots_none))]
fn cell_slots(cell: CellSort, part: Payload) -> Result<(), Fault>
    ensures { result ≡ over (slots_by (shape_of cell)) part.entry }
{
    let more = past_operand(part)?;
    match cell {
        CellSort::One(_) => ended(more),
        CellSort::Two(_) | CellSort::ChosenBit => ended(past_operand(more)?),
        CellSort::Mux => ended(past_operand(past_operand(more)?)?),
        CellSort::Put => ended(past_operand(past_byte(more)?)?),
        CellSort::FixedBit => ended(past_byte(more)?),
    }
}

// A cell's payload: its width byte and its slots.
#[tactic(auto, using(crate::proofs::FormLaws::not_cell, crate::proofs::FormLaws::cell_slotted, crate::proofs::FormLaws::cell_other))]
fn cell_body(sort: Sort, payload: &[u8], at: usize) -> Result<(), Fault>
    requires { at + 3 + length payload.now ≤ 2 ^ 40 }
    ensures { result ≡ cell_body at sort payload.now }
{
    match sort {
        Sort::Cell(cell) => cell_slots(cell, past_byte(Payload::of(payload, at))?),
        _ => Err(Fault { place: at }),
    }
}

// Does a field of this sort stand for a cell?
#[tactic(auto, using(crate::proofs::FormLaws::not_cell))]
fn is_cell(sort: Sort) -> bool
    ensures { result ≡ is_cell sort }
{
    matches!(sort, Sort::Cell(_))
}

// The cells at the front: how many bytes they take, or the first fault (refusal 2).
#[tactic(auto, unfolding(crate::specs::Form::cells_step))]
pub fn cells(part: Payload) -> Result<usize, Fault>
    ensures told { result ≡ over cells_step part.entry }
    ensures within { (m : ℕ) → result ≡ Ok m → m ≤ length part.entry.bytes.now }
{
    many(part, is_cell, cell_body)
}

// How many bytes the cells at the front of a list take; 0 where there is a fault.
pub fn celled_bytes(list: &[u8]) -> usize
    requires { length list.now ≤ 2 ^ 40 }
    ensures told { result ≡ passed_bytes (cells_step 0 0 list.now) }
    ensures within { result ≤ length list.now }
{
    cells(Payload {
        bytes: list,
        base: 0,
        owner: 0,
    })
    .unwrap_or(0)
}

// A drive's payload: its variable byte and its operand.
#[tactic(auto, using(crate::proofs::FormLaws::slots_none, crate::proofs::FormLaws::drive_slotted, crate::proofs::FormLaws::drive_other))]
fn drive_body(sort: Sort, payload: &[u8], at: usize) -> Result<(), Fault>
    requires { at + 3 + length payload.now ≤ 2 ^ 40 }
    ensures { result ≡ drive_body at sort payload.now }
{
    match sort {
        Sort::Drive => ended(past_operand(past_byte(Payload::of(payload, at))?)?),
        _ => Err(Fault { place: at }),
    }
}

// Drives until the end.
#[tactic(auto, unfolding(crate::specs::Form::drives_judge))]
fn drives_until_end(part: Payload) -> Result<(), Fault>
    ensures { result ≡ over drives_judge part.entry }
{
    until_end(part, drive_body)
}

// Cells, then drives until the end.
#[tactic(auto, unfolding(tagged::specs::Fields::then_by))]
fn cells_and_drives(part: Payload) -> Result<(), Fault>
    ensures { result ≡ over (then_by cells_step drives_judge) part.entry }
{
    let bytes = cells(part)?;
    drives_until_end(part.past(bytes))
}

// A netlist's payload: declarations, then cells, then drives.
#[tactic(auto, using(crate::proofs::FormLaws::netlist_lists, crate::proofs::FormLaws::netlist_other, tagged::proofs::DeclarationBytes::declarations_within), unfolding(tagged::specs::Fields::then_by))]
fn netlist_body(sort: Sort, payload: &[u8], at: usize) -> Result<(), Fault>
    requires { at + 3 + length payload.now ≤ 2 ^ 40 }
    ensures { result ≡ netlist_body at sort payload.now }
{
    match sort {
        Sort::Netlist => {
            let part = Payload::of(payload, at);
            let bytes = declarations(part)?;
            cells_and_drives(part.past(bytes))
        }
        _ => Err(Fault { place: at }),
    }
}

// Refusal 2 of a netlist file to which refusal 1 does not apply: past the whole file, or the place of the first fault.
#[tactic(auto, unfolding(crate::specs::Form::netlist_form))]
pub fn netlist_form(file: &[u8]) -> Result<usize, Fault>
    requires { length file.now ≤ 2 ^ 40 }
    ensures { result ≡ netlist_form file.now }
{
    let part = Payload {
        bytes: file,
        base: 0,
        owner: 0,
    };
    field_by(part, netlist_body)
}
