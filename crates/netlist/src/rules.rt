// Refusals 3 to 8 and 12 of a netlist file to which 1 and 2 do not apply: one walk over its cells and one over its drives look for every rule.
ghost use Rattle.std.specs.Prelude.{Ok, ◌≡◌, false, ◌||◌, not, Bool, List, [], ◌∷◌, map, ◌+◌, ◌^◌, ◌≤◌, leb, eqb, length, get_or, take, drop};
ghost use Rattle.words.specs.Widths.{is_width};
ghost use Rattle.tagged.specs.Answers.{acceptance};
ghost use Rattle.tagged.specs.Fields.{unplaced};
ghost use Rattle.tagged.specs.Files.{file_answer};
ghost use Rattle.tagged.specs.Limits.{most_variables, longest_netlist};
ghost use Rattle.tagged.specs.Refusals.{refused_at, found_if, lower_refusal};
ghost use Rattle.tagged.specs.Declarations.{Declaration, is_register};
ghost use Rattle.netlist.specs.declared.Cell as listed;
ghost use Rattle.netlist.specs.declared.Drive as driven;
ghost use Rattle.netlist.specs.Answer.{lists_answer};
ghost use Rattle.netlist.specs.Form.{cells_step, netlist_form};
ghost use Rattle.netlist.specs.Reading.{cells_at, drives_at, netlist_in};
ghost use Rattle.netlist.specs.Lists.{Netlist, operand_width, cell_width, cell_slots, operands_in, present};
ghost use Rattle.netlist.specs.Rules.{cell_unlike, cell_outside, cell_breaks, drive_breaks, registers_from};
ghost use Rattle.netlist.specs.WalkAnswers.{answer_of, operands_answer, one_answer, list_answer, whole_answer, cells_end, parts_answer, rest_answer};
ghost use Rattle.netlist.specs.WalkAnswers.{Knows, most_listed};

use crate::reading::{cell_in, drive_in};
use crate::{Cell, Drive, Operand, Slot};
use tagged::answers::{Refusal, Rule, or_lower, refuse_if};
use tagged::bytes::{from, front, get_or};
use tagged::declarations::{declarations_answer, declared_bytes, variable_table};
use tagged::limits::{Cells, MOST_VARIABLES};
use tagged::sorts::Sort;
use tagged::walk::fields_of;
use words::{fits, index_within, is_width};

// What an operand of this width at a place is refused for, which names one of the variables or cells of these widths.
#[tactic(auto, unfolding(crate::specs::WalkAnswers::answer_of))]
fn named_answer(width: u8, number: usize, widths: &[u8], place: usize) -> Result<(), Refusal>
    ensures { result ≡ answer_of (not (is_width width)) (leb (length widths.now) number) (not (eqb width (get_or widths.now number 0)))
        false place }
{
    refuse_if(!is_width(width), Rule::Value, place)?;
    refuse_if(widths.len() <= number, Rule::Reference, place)?;
    refuse_if(width != get_or(widths, number, 0), Rule::Widths, place)
}

// What operands may name: the widths of the variables and of the cells; and the numbers of the registers, which drives name.
#[derive(Clone, Copy)]
struct Known<'a> {
    variables: &'a [u8],
    registers: &'a [u8],
    cells: &'a [u8],
}

impl<'a> Known<'a> {
    // The same of the variables and registers, and these cells.
    fn with_cells(self, cells: &'a [u8]) -> Known<'a>
        ensures { (ds : List Declaration) (before after : List listed.Cell) → Knows ds before self.entry → map cell_width after ≡ cells.now → Knows ds after result }
    {
        Known {
            variables: self.variables,
            registers: self.registers,
            cells,
        }
    }

    // What an operand at a place is refused for.
    #[tactic(auto, using(crate::proofs::RuleAnswers::one_operand_lem, crate::proofs::RuleLaws::counted), unfolding(crate::specs::Rules::operand_value_broken, crate::specs::Rules::operand_missing, crate::specs::Rules::operand_unlike, crate::specs::WalkAnswers::answer_of))]
    fn operand_answer(self, operand: Operand, place: usize) -> Result<(), Refusal>
        ensures { (ds : List Declaration) (cs : List listed.Cell) → Knows ds cs self.entry → result ≡ operands_answer ds cs (operand ∷ []) place }
    {
        match operand {
            Operand::Constant(width, value) => {
                refuse_if(!is_width(width) || !fits(width, value), Rule::Value, place)
            }
            Operand::Variable(width, number) => {
                named_answer(width, number as usize, self.variables, place)
            }
            Operand::Cell(width, number) => named_answer(width, number as usize, self.cells, place),
        }
    }

    // The lower of an answer and what a slot at a place is refused for: its operand, if it holds one.
    #[tactic(auto, using(tagged::proofs::LowerLaws::lower_accepted), unfolding(crate::specs::WalkAnswers::operands_answer, crate::specs::WalkAnswers::answer_of))]
    fn slot_answer(
        self,
        answer: Result<(), Refusal>,
        slot: Option<Slot>,
        place: usize,
    ) -> Result<(), Refusal>
        ensures { (ds : List Declaration) (cs : List listed.Cell) → Knows ds cs self.entry → result ≡ lower_refusal answer (operands_answer ds cs (operands_in (present (slot ∷ []))) place) }
    {
        match slot {
            Some(Slot::Operand(operand)) => or_lower(answer, self.operand_answer(operand, place)),
            Some(Slot::Byte(_)) => answer,
            None => answer,
        }
    }

    // What the operands of a cell at a place are refused for.
    fn operands_answer(self, cell: Cell, place: usize) -> Result<(), Refusal>
        ensures { (ds : List Declaration) (cs : List listed.Cell) → Knows ds cs self.entry → result ≡ operands_answer ds cs (operands_in (cell_slots cell)) place }
    {
        let mut answer = Ok(());
        for slot in cell.slots() {
            answer = self.slot_answer(answer, slot, place);
        }
        answer
    }

    // What a cell at a place is refused for, after those that are known.
    #[tactic(auto, using(crate::proofs::RuleAnswers::cell_joined))]
    fn cell_answer(self, cell: Cell, place: usize) -> Result<(), Refusal>
        ensures { (ds : List Declaration) (earlier : List listed.Cell) → Knows ds earlier self.entry → result ≡ one_answer (λ rule. cell_breaks rule ds) earlier cell place }
    {
        or_lower(own_answer(cell, place), self.operands_answer(cell, place))
    }

    // Is a variable not the next register, after so many drives?
    fn not_next(self, variable: u8, earlier: usize) -> bool
        ensures { result ≡ leb (length self.entry.registers.now) earlier || not (eqb variable (get_or self.entry.registers.now earlier 0)) }
    {
        self.registers.len() <= earlier || variable != get_or(self.registers, earlier, 0)
    }

    // What a drive at a place is refused for, after so many others, whatever its operand names.
    #[tactic(auto, unfolding(crate::specs::WalkAnswers::answer_of))]
    fn register_answer(self, drive: Drive, earlier: usize, place: usize) -> Result<(), Refusal>
        ensures { result ≡ answer_of false (leb (length self.entry.registers.now) earlier || not (eqb drive.variable (get_or self.entry.registers.now earlier 0)))
            (not (eqb (operand_width drive.operand) (get_or self.entry.variables.now drive.variable 0))) false place }
    {
        refuse_if(
            self.not_next(drive.variable, earlier),
            Rule::Reference,
            place,
        )?;
        let width = get_or(self.variables, usize::from(drive.variable), 0);
        refuse_if(drive.operand.width() != width, Rule::Widths, place)
    }

    // What a drive at a place is refused for, after so many others.
    fn drive_answer(self, drive: Drive, earlier: usize, place: usize) -> Result<(), Refusal>
        ensures { (ds : List Declaration) (cs : List listed.Cell) (before : List driven.Drive) → Knows ds cs self.entry → length before ≡ earlier → result
            ≡ one_answer (λ rule. drive_breaks rule ds cs) before drive place }
    {
        or_lower(
            self.register_answer(drive, earlier, place),
            self.operand_answer(drive.operand, place),
        )
    }

    // What a netlist of so many drives is refused for as a whole.
    #[tactic(auto, unfolding(crate::specs::WalkAnswers::whole_answer, tagged::specs::Refusals::first_refusal, crate::specs::Rules::whole_broken))]
    fn whole_answer(self, drives: usize) -> Result<(), Refusal>
        ensures { (n : Netlist) → Knows n.declarations n.cells self.entry → length n.drives ≡ drives → result ≡ whole_answer n }
    {
        refuse_if(drives < self.registers.len(), Rule::Reference, 0)?;
        refuse_if(Cells::new(self.cells.len()).is_none(), Rule::Cells, 0)
    }
}

// Refusal 7 on a cell: its width against its operands', and theirs against each other.
#[tactic(auto, unfolding(crate::specs::Rules::cell_unlike))]
fn cell_unlike(cell: Cell) -> bool
    ensures { result ≡ cell_unlike cell }
{
    match cell {
        Cell::One(op, width, operand) => width != op.result_width(operand.width()),
        Cell::Two(op, width, first, second) => {
            first.width() != second.width() || width != op.result_width(first.width())
        }
        Cell::Mux(width, condition, one, zero) => {
            condition.width() != 1 || width != one.width() || width != zero.width()
        }
        Cell::Put(width, vector, _, bit) => width != vector.width() || bit.width() != 1,
        Cell::FixedBit(width, _, _) | Cell::ChosenBit(width, _, _) => width != 1,
    }
}

// Refusal 8 on a cell: a bit number outside its vector, or an index that could name one.
#[tactic(auto, using(crate::proofs::RuleLaws::no_bit), unfolding(crate::specs::Rules::cell_outside))]
fn cell_outside(cell: Cell) -> bool
    ensures { result ≡ cell_outside cell }
{
    match cell {
        Cell::Put(_, vector, number, _) | Cell::FixedBit(_, vector, number) => {
            vector.width() <= number
        }
        Cell::ChosenBit(_, vector, index) => !index_within(index.width(), vector.width()),
        _ => false,
    }
}

// What a cell at a place is refused for, whatever its operands name.
#[tactic(auto, unfolding(crate::specs::WalkAnswers::answer_of))]
fn own_answer(cell: Cell, place: usize) -> Result<(), Refusal>
    ensures { result ≡ answer_of (not (is_width (cell_width cell))) false (cell_unlike cell) (cell_outside cell) place }
{
    refuse_if(!is_width(cell.width()), Rule::Value, place)?;
    refuse_if(cell_unlike(cell), Rule::Widths, place)?;
    refuse_if(cell_outside(cell), Rule::BitNumber, place)
}

// What the drives of a list, whose first byte stands at `base`, and then the whole netlist are refused for.
fn drives_answer(list: &[u8], base: usize, known: Known) -> Result<(), Refusal>
    requires { base + length list.now ≤ 2 ^ 40 }
    ensures { (n : Netlist) → Knows n.declarations n.cells known.entry → n.drives ≡ unplaced (drives_at 0 list.now) → result
        ≡ lower_refusal (list_answer (λ rule. drive_breaks rule n.declarations n.cells) [] (drives_at base list.now)) (whole_answer n) }
{
    let mut answer = Ok(());
    let mut count: usize = 0;
    for field in fields_of(list, base) {
        let Sort::Drive = field.sort else {
            break;
        };
        let drive = drive_in(field.payload);
        answer = or_lower(answer, known.drive_answer(drive, count, field.place));
        count += 1;
    }
    or_lower(answer, known.whole_answer(count))
}

// A file of at most 32,768 bytes has no more cells, since each takes at least 10 bytes.
const MOST_LISTED: usize = 3276;

// What the cells of a list, whose first byte stands at `base`, then the drives after them and the whole netlist are refused for.
fn cells_answer(list: &[u8], base: usize, declared: Known) -> Result<(), Refusal>
    requires { (base + length list.now ≤ 2 ^ 40) × (cells_step 0 0 list.now ≡ Ok (cells_end list.now))
        × (length (unplaced (cells_at 0 list.now)) ≤ most_listed) }
    ensures { (n : Netlist) → Knows n.declarations [] declared.entry → n.cells ≡ unplaced
        (cells_at 0 list.now) → n.drives ≡ unplaced (drives_at 0 (drop (cells_end list.now) list.now)) → result
        ≡ parts_answer base list.now n }
{
    let mut widths = [0u8; MOST_LISTED];
    let mut answer = Ok(());
    let mut count: usize = 0;
    let mut end: usize = 0;
    for field in fields_of(list, base) {
        let Sort::Cell(sort) = field.sort else {
            break;
        };
        let cell = cell_in(sort, field.payload);
        let known = declared.with_cells(front(&widths, count));
        answer = or_lower(answer, known.cell_answer(cell, field.place));
        widths[count] = cell.width();
        count += 1;
        end += 3 + field.payload.len();
    }
    let known = declared.with_cells(front(&widths, count));
    or_lower(answer, drives_answer(from(list, end), base + end, known))
}

// The numbers of the registers, in rising order.
#[derive(Clone, Copy)]
struct RegisterNumbers {
    count: usize,
    numbers: [u8; MOST_VARIABLES],
}

impl RegisterNumbers {
    // As many as there are.
    fn listed(&self) -> &[u8]
        ensures { result.now ≡ take self.now.count self.now.numbers }
    {
        front(&self.numbers, self.count)
    }
}

// The numbers of the registers, from the marks of a table of variables.
fn register_numbers(marks: &[bool]) -> RegisterNumbers
    requires { length marks.now ≤ most_variables }
    ensures { (ds : List Declaration) → map is_register ds ≡ marks.now
        → take result.count result.numbers ≡ registers_from 0 ds }
{
    let mut numbers = [0u8; MOST_VARIABLES];
    let mut count: usize = 0;
    for (at, mark) in marks.iter().enumerate() {
        if *mark {
            numbers[count] = at as u8;
            count += 1;
        }
    }
    RegisterNumbers { count, numbers }
}

// What a file to which refusals 1 and 2 do not apply is refused for after its declarations, of which the first 64 are known.
#[tactic(auto, using(tagged::proofs::AllBytesLaws::read_bytes, crate::proofs::RuleParts::payload_long, crate::proofs::RuleParts::first_few, crate::proofs::RuleParts::taken_few, crate::proofs::RuleParts::after_asked))]
fn rest_answer(file: &[u8]) -> Result<(), Refusal>
    requires { (file_answer longest_netlist file.now ≡ acceptance) × (netlist_form file.now ≡ Ok (length file.now)) }
    ensures { result ≡ rest_answer 3 (netlist_in file.now) (take most_variables (netlist_in file.now).declarations) }
{
    let payload = from(file, 3);
    let table = variable_table(payload);
    let registers = register_numbers(table.registers());
    let declared = Known {
        variables: table.widths(),
        registers: registers.listed(),
        cells: &[],
    };
    let bytes = declared_bytes(payload);
    cells_answer(from(payload, bytes), 3 + bytes, declared)
}

// The answer of a file to which refusals 1 and 2 do not apply. Where more than 64 variables leave some unknown, refusal 5 applies, and what they
// would change has a higher number.
#[tactic(auto, using(crate::proofs::RuleParts::payload_long, tagged::proofs::AllBytesLaws::read_bytes))]
pub fn lists_answer(file: &[u8]) -> Result<(), Refusal>
    requires { (file_answer longest_netlist file.now ≡ acceptance) × (netlist_form file.now ≡ Ok (length file.now)) }
    ensures { result ≡ lists_answer 3 (netlist_in file.now) }
{
    let answer = declarations_answer(from(file, 3), 3);
    or_lower(answer, rest_answer(file))
}
