// Declarations, 02 and 03, which modules and netlists share: refusals 2 to 5 on them, and the table of what they declare.
ghost use Rattle.std.specs.Prelude.{◌≡◌, List, [], ℕ, ◌+◌, ◌^◌, ◌≤◌, length, take, leb};
ghost use Rattle.tagged.specs.Sorts.{is_declaration};
ghost use Rattle.tagged.specs.Fields.{passed_bytes};
ghost use Rattle.tagged.specs.Payloads.{over};
ghost use Rattle.tagged.specs.Declarations.{fixed_bytes, declaration_body, declarations_step, declaration_in, declarations_in, declarations_at, value_broken, name_taken, name_broken, declaration_breaks, declarations_answer, is_register, variable_table, with_variable};
ghost use Rattle.tagged.specs.Limits.{most_variables};
ghost use Rattle.tagged.specs.Refusals.{first_broken};

use crate::answers::{Fault, Refusal, Rule};
use crate::bytes::{four_of, from, front, get_or, put_item};
use crate::fields::many;
use crate::limits::{MOST_VARIABLES, Variables};
use crate::names::{is_name, same_name};
use crate::payload::Payload;
use crate::sorts::{DeclarationSort, Sort};
use crate::walk::fields_of;
use words::{fits, is_width};

// How many fixed bytes stand before the name.
pub fn fixed_bytes(sort: DeclarationSort) -> usize
    ensures { result ≡ fixed_bytes sort }
{
    match sort {
        DeclarationSort::Input => 1,
        DeclarationSort::Register => 5,
    }
}

// Is the field a declaration?
#[tactic(auto, using(crate::proofs::DeclarationLaws::not_declaration))]
fn is_declaration(sort: Sort) -> bool
    ensures { result ≡ is_declaration sort }
{
    matches!(sort, Sort::Declaration(_))
}

// A declaration's payload: its fixed bytes have to be there.
#[tactic(auto, using(crate::proofs::DeclarationLaws::not_declaration, crate::proofs::DeclarationLaws::other_sort), unfolding(crate::specs::Declarations::declaration_body, crate::specs::Fields::fixed_then))]
fn declaration_body(sort: Sort, payload: &[u8], at: usize) -> Result<(), Fault>
    ensures { result ≡ declaration_body at sort payload.now }
{
    match sort {
        Sort::Declaration(declaration) if fixed_bytes(declaration) <= payload.len() => Ok(()),
        _ => Err(Fault { place: at }),
    }
}

// The declarations at the front: how many bytes they take, or the first fault (refusal 2).
#[tactic(auto, unfolding(crate::specs::Declarations::declarations_step))]
pub fn declarations(part: Payload) -> Result<usize, Fault>
    ensures { result ≡ over declarations_step part.entry }
{
    many(part, is_declaration, declaration_body)
}

// How many bytes the declarations of a payload take; 0 where there is a fault.
pub fn declared_bytes(payload: &[u8]) -> usize
    requires { length payload.now ≤ 2 ^ 40 }
    ensures { result ≡ passed_bytes (declarations_step 0 0 payload.now) }
{
    declarations(Payload {
        bytes: payload,
        base: 0,
        owner: 0,
    })
    .unwrap_or(0)
}

// Refusal 3 on a declaration: its width, and its initial value.
#[tactic(auto, unfolding(crate::specs::Declarations::value_broken))]
fn value_broken(sort: DeclarationSort, payload: &[u8]) -> bool
    ensures { result ≡ value_broken (declaration_in sort payload.now) }
{
    let width = get_or(payload, 0, 0);
    match sort {
        DeclarationSort::Input => !is_width(width),
        DeclarationSort::Register => { !is_width(width) || !fits(width, four_of(from(payload, 1))) }
    }
}

// Is the name one of the first declarations' of a list, so many of them?
#[tactic(auto, using(crate::proofs::DeclarationWalks::declared_in, crate::proofs::DeclarationWalks::declared_here, crate::proofs::DeclarationWalks::declared_end, crate::proofs::DeclarationWalks::declared_none, crate::proofs::DeclarationWalks::taken_done, crate::proofs::DeclarationWalks::taken_none, crate::proofs::DeclarationWalks::taken_here, crate::proofs::DeclarationWalks::taken_later, crate::proofs::DeclarationLaws::name_in_lem, crate::proofs::DeclarationLaws::not_declaration))]
fn name_taken(list: &[u8], count: usize, name: &[u8]) -> bool
    requires { length list.now ≤ 2 ^ 40 }
    ensures { result ≡ name_taken name.now (take count (declarations_in list.now)) }
{
    let mut left = count;
    for field in fields_of(list, 0) {
        let Sort::Declaration(sort) = field.sort else {
            break;
        };
        if left == 0 {
            break;
        }
        if same_name(from(field.payload, fixed_bytes(sort)), name) {
            return true;
        }
        left -= 1;
    }
    false
}

// Refusal 4 on a declaration, after the first ones of its list, so many of them.
#[tactic(auto, using(crate::proofs::DeclarationLaws::name_in_lem), unfolding(crate::specs::Declarations::name_broken))]
fn name_broken(sort: DeclarationSort, payload: &[u8], list: &[u8], count: usize) -> bool
    requires { length list.now ≤ 2 ^ 40 }
    ensures { result ≡ name_broken (take count (declarations_in list.now)) (declaration_in sort payload.now) }
{
    let name = from(payload, fixed_bytes(sort));
    !is_name(name) || name_taken(list, count, name)
}

// Refusal 5 on the declaration after so many others.
fn count_broken(count: usize) -> bool
    requires { count ≤ 2 ^ 40 }
    ensures { result ≡ leb most_variables count }
{
    Variables::new(count + 1).is_none()
}

// Does a declaration break this rule, after the first ones of its list, so many of them?
#[tactic(auto, using(crate::proofs::DeclarationLaws::other_rule, crate::proofs::DeclarationLaws::count_taken), unfolding(crate::specs::Declarations::declaration_breaks))]
fn declaration_breaks(
    rule: Rule,
    sort: DeclarationSort,
    payload: &[u8],
    list: &[u8],
    count: usize,
) -> bool
    requires { (length list.now ≤ 2 ^ 40) × (count ≤ length (declarations_in list.now)) × (count ≤ 2 ^ 40) }
    ensures { result ≡ declaration_breaks rule (take count (declarations_in list.now)) (declaration_in sort payload.now) }
{
    match rule {
        Rule::Value => value_broken(sort, payload),
        Rule::Name => name_broken(sort, payload, list, count),
        Rule::Count => count_broken(count),
        _ => false,
    }
}

// The place of the first declaration that breaks this rule, in a list whose first byte stands at `base`.
#[tactic(auto, using(crate::proofs::DeclarationWalks::declared_fields, crate::proofs::DeclarationWalks::declared_in, crate::proofs::DeclarationWalks::declared_here, crate::proofs::DeclarationWalks::declared_end, crate::proofs::DeclarationWalks::declared_none, crate::proofs::DeclarationWalks::walked_start, crate::proofs::DeclarationWalks::walked_more, crate::proofs::DeclarationWalks::walked_before, crate::proofs::DeclarationWalks::broken_none, crate::proofs::DeclarationWalks::broken_here, crate::proofs::DeclarationWalks::broken_later, crate::proofs::DeclarationLaws::not_declaration))]
fn declaration_broken(rule: Rule, list: &[u8], base: usize) -> Option<usize>
    requires { base + length list.now ≤ 2 ^ 40 }
    ensures { result ≡ first_broken (declaration_breaks rule) [] (declarations_at base list.now) }
{
    let mut count: usize = 0;
    for field in fields_of(list, base) {
        let Sort::Declaration(sort) = field.sort else {
            break;
        };
        if declaration_breaks(rule, sort, field.payload, list, count) {
            return Some(field.place);
        }
        count += 1;
    }
    None
}

// What the declarations of a list, whose first byte stands at `base`, are refused for: rules 3 to 5.
#[tactic(auto, unfolding(crate::specs::Refusals::first_refusal))]
pub fn declarations_answer(list: &[u8], base: usize) -> Result<(), Refusal>
    requires { base + length list.now ≤ 2 ^ 40 }
    ensures { result ≡ declarations_answer base list.now }
{
    for rule in [Rule::Value, Rule::Name, Rule::Count] {
        if let Some(place) = declaration_broken(rule, list, base) {
            return Err(Refusal { rule, place });
        }
    }
    Ok(())
}

// What the declarations say of each variable, for the first 64: its width, and whether it is a register.
#[derive(Clone, Copy)]
pub struct VariableTable {
    pub count: usize,
    pub widths: [u8; MOST_VARIABLES],
    pub registers: [bool; MOST_VARIABLES],
}

// Is a declaration of this sort a register's?
fn is_register(sort: DeclarationSort) -> bool
    ensures { (payload : List ℕ) → result ≡ is_register (declaration_in sort payload) }
{
    sort == DeclarationSort::Register
}

// The table with one variable more.
#[tactic(auto, unfolding(crate::specs::Declarations::with_variable))]
fn with_variable(table: VariableTable, width: u8, registered: bool) -> VariableTable
    requires { table.count + 1 ≤ 2 ^ 40 }
    ensures { result ≡ with_variable table width registered }
{
    let mut next = table;
    put_item(&mut next.widths, table.count, width);
    put_item(&mut next.registers, table.count, registered);
    next.count += 1;
    next
}

// The table of a list's declarations.
pub fn variable_table(list: &[u8]) -> VariableTable
    requires { length list.now ≤ 2 ^ 40 }
    ensures { result ≡ variable_table (declarations_in list.now) }
{
    let mut table = VariableTable {
        count: 0,
        widths: [0u8; MOST_VARIABLES],
        registers: [false; MOST_VARIABLES],
    };
    for field in fields_of(list, 0) {
        let Sort::Declaration(sort) = field.sort else {
            break;
        };
        let width = get_or(field.payload, 0, 0);
        table = with_variable(table, width, is_register(sort));
    }
    table
}

impl VariableTable {
    // The widths of the variables that the table tells.
    pub fn widths(&self) -> &[u8]
        ensures { result.now ≡ take self.now.count self.now.widths }
    {
        front(&self.widths, self.count)
    }

    // Which of them are registers.
    pub fn registers(&self) -> &[bool]
        ensures { result.now ≡ take self.now.count self.now.registers }
    {
        front(&self.registers, self.count)
    }
}

// How many of so many variables the table tells: at most 64.
pub fn told(count: usize) -> usize
    ensures { (result ≤ most_variables) × (count ≤ most_variables → result ≡ count) }
{
    count.min(MOST_VARIABLES)
}
