// The translation of statements, blocks, items and processes: functions that call each other, by depth alone, and lists by loops.
// `depth` is how many levels of fields may still be opened. The table has the current operands of the variables, and behind them the pending ones.
ghost use Rattle.std.specs.Prelude.{◌≡◌, List, ◌∷◌, ◌+◌, ◌*◌, ◌^◌, ◌≤◌, length, take};
ghost use Rattle.tagged.specs.Fields.{fields_at};
ghost use Rattle.translate_blocks.specs.Writing.{variables_in, write_all, write_assign, write_assign_bit, item_operand, write_front, write_if, write_case, write_by, write_statement, write_block, write_item, write_process, write_processes};
ghost use Rattle.translate_blocks.specs.Log.{Mark, forward_item, forward_items, merge_mark, backward_items};
ghost use Rattle.translate_blocks.specs.declared.case_log.Entry.{Entry};
ghost use Rattle.translate_blocks.specs.declared.case_log.Log.{Log};
ghost use Rattle.translate_blocks.specs.Working.{work, Room, Translates, Forwards, Filed, Last, Unwinds};

use crate::case_log::Log;
use crate::emit::Emitter;
use crate::table::{NOTHING, current, operand_at, slot_of, variables_in};
use netlist::{Cell, Operand};
use tagged::bytes::{four_of, from, get_or, put_item};
use tagged::fields::open_field;
use tagged::limits::{DEEPEST, MOST_VARIABLES};
use tagged::sorts::{Kind, Sort, StatementSort};
use tagged::walk::fields_of;
use verilog::reading::after_front;
use words::TwoOperand;

// The operand of the constant at the front of an item's payload.
#[tactic(auto, using(tagged::proofs::WalkLaws::front_within))]
fn item_operand(payload: &[u8]) -> Operand
    ensures { result ≡ item_operand payload.now }
{
    match open_field(payload, 0, 0) {
        Ok((_, size)) => {
            let constant = &payload[3..size + 3];
            Operand::Constant(get_or(constant, 0, 0), four_of(from(constant, 1)))
        }
        Err(_) => NOTHING,
    }
}

impl Emitter<'_> {
    // An assignment to a whole variable.
    #[tactic(auto, using(crate::proofs::LogLaws::grown_none), unfolding(crate::specs::Writing::write_assign))]
    fn assign(&mut self, kind: Kind, payload: &[u8], depth: usize, table: &mut [Operand])
        requires { (length table.old ≤ 128) × (self.old.cells + 256 * (length payload.now + 3) ≤ 2 ^ 31)
            × (self.old.at + 5632 * (length payload.now + 3) ≤ 2 ^ 40) }
        ensures { (log : Log) → Translates (write_assign (variables_in table.old) depth kind payload.now table.old self.old.cells) (work self.old log) (work self.new log) table.new }
    {
        let slot = slot_of(variables_in(table), kind, get_or(payload, 0, 0));
        let operand = self.expression(from(payload, 1), depth, current(table));
        put_item(table, slot, operand);
    }

    // An assignment to one bit.
    fn assign_bit(&mut self, kind: Kind, payload: &[u8], depth: usize, table: &mut [Operand])
        requires { (length table.old ≤ 128) × (self.old.cells + 256 * (length payload.now + 3) ≤ 2 ^ 31)
            × (self.old.at + 5632 * (length payload.now + 3) ≤ 2 ^ 40) }
        ensures { (log : Log) → Translates (write_assign_bit (variables_in table.old) depth kind payload.now table.old self.old.cells) (work self.old log) (work self.new log) table.new }
    {
        let slot = slot_of(variables_in(table), kind, get_or(payload, 0, 0));
        let bit = self.expression(from(payload, 2), depth, current(table));
        let old = operand_at(table, slot);
        let width = old.width();
        let put = Operand::Cell(width, self.cells);
        self.emit(Cell::Put(width, old, get_or(payload, 1, 0), bit));
        put_item(table, slot, put);
    }

    // One statement, by its sort.
    #[tactic(auto, using(crate::proofs::WritingSteps::statement_step, verilog::proofs::FormLaws::not_statement), unfolding(crate::specs::Writing::write_statement))]
    #[cycle(blocks)]
    fn statement(
        &mut self,
        sort: Sort,
        payload: &[u8],
        depth: usize,
        table: &mut [Operand],
        log: &mut Log<'_>,
    )
        requires { Room (length payload.now + 3) table.old (work self.old log.old) }
        ensures { Translates (write_statement (variables_in table.old) depth sort payload.now table.old self.old.cells) (work self.old log.old) (work self.new log.new) table.new }
    {
        if depth == 0 {
            return;
        }
        if let Sort::Statement(inner) = sort {
            self.statement_by(inner, payload, depth - 1, table, log);
        }
    }

    // What a statement adds, by its sort.
    #[cycle(blocks)]
    fn statement_by(
        &mut self,
        sort: StatementSort,
        part: &[u8],
        depth: usize,
        table: &mut [Operand],
        log: &mut Log<'_>,
    )
        requires { Room (length part.now + 3) table.old (work self.old log.old) }
        ensures { Translates (write_by (variables_in table.old) depth (write_block (variables_in table.old) depth) (write_item (variables_in table.old) depth)
            sort part.now table.old self.old.cells) (work self.old log.old) (work self.new log.new) table.new }
    {
        match sort {
            StatementSort::Assign(kind) => self.assign(kind, part, depth, table),
            StatementSort::AssignBit(kind) => self.assign_bit(kind, part, depth, table),
            StatementSort::If => self.if_else(part, depth, table, log),
            StatementSort::Case => self.case_of(part, depth, table, log),
        }
    }

    // An if: the condition, both blocks from the same table, the first one on its copy, and the muxes.
    #[cycle(blocks)]
    fn if_else(&mut self, part: &[u8], depth: usize, table: &mut [Operand], log: &mut Log<'_>)
        requires { Room (length part.now + 3) table.old (work self.old log.old) }
        ensures { Translates (write_if (variables_in table.old) depth (write_block (variables_in table.old) depth) part.now table.old self.old.cells) (work self.old log.old) (work self.new log.new) table.new }
    {
        let condition = self.expression(part, depth, current(table));
        let mut other = [NOTHING; 2 * MOST_VARIABLES];
        let copy = &mut other[..table.len()];
        copy.copy_from_slice(table);
        let first = after_front(part);
        self.front_block(first, depth, copy, log);
        self.front_block(after_front(first), depth, table, log);
        self.merge(condition, copy, table);
    }

    // The block at the front of a part.
    #[tactic(auto, using(tagged::proofs::WalkLaws::front_within, crate::proofs::WorkLaws::room_less))]
    #[cycle(blocks)]
    fn front_block(&mut self, part: &[u8], depth: usize, table: &mut [Operand], log: &mut Log<'_>)
        requires { Room (length part.now) table.old (work self.old log.old) }
        ensures { Translates (write_front (write_block (variables_in table.old) depth) part.now table.old self.old.cells) (work self.old log.old) (work self.new log.new) table.new }
    {
        if let Ok((sort, size)) = open_field(part, 0, 0) {
            self.block(sort, &part[3..size + 3], depth, table, log);
        }
    }

    // A block's statements.
    #[tactic(auto, using(crate::proofs::WritingSteps::block_step, tagged::proofs::SortLaws::is_itself, verilog::proofs::FormLaws::is_missed), unfolding(crate::specs::Writing::write_block))]
    #[cycle(blocks)]
    fn block(
        &mut self,
        sort: Sort,
        payload: &[u8],
        depth: usize,
        table: &mut [Operand],
        log: &mut Log<'_>,
    )
        requires { Room (length payload.now) table.old (work self.old log.old) }
        ensures { Translates (write_block (variables_in table.old) depth sort payload.now table.old self.old.cells) (work self.old log.old) (work self.new log.new) table.new }
    {
        if depth == 0 {
            return;
        }
        if sort == Sort::Block {
            self.statements(payload, depth - 1, table, log);
        }
    }

    // The statements of a list, in order.
    #[cycle(blocks)]
    fn statements(&mut self, list: &[u8], depth: usize, table: &mut [Operand], log: &mut Log<'_>)
        requires { Room (length list.now) table.old (work self.old log.old) }
        ensures { Translates (write_all (write_statement (variables_in table.old) depth) (fields_at 0 list.now) table.old self.old.cells) (work self.old log.old) (work self.new log.new) table.new }
    {
        for field in fields_of(list, 0) {
            self.statement(field.sort, field.payload, depth, table, log);
        }
    }

    // A case: the selector once, forward over the items, each from a copy of the table, and then backward over the log.
    #[cycle(blocks)]
    fn case_of(&mut self, part: &[u8], depth: usize, table: &mut [Operand], log: &mut Log<'_>)
        requires { Room (length part.now + 3) table.old (work self.old log.old) }
        ensures { Translates (write_case (variables_in table.old) depth (write_item (variables_in table.old) depth) (write_block (variables_in table.old) depth)
            part.now table.old self.old.cells) (work self.old log.old) (work self.new log.new) table.new }
    {
        let selector = self.expression(part, depth, current(table));
        let mut copy = [NOTHING; 2 * MOST_VARIABLES];
        let entry = &mut copy[..table.len()];
        entry.copy_from_slice(table);
        let bottom = log.top;
        self.items(after_front(part), selector, depth, entry, table, log);
        self.unwind(entry, bottom, table, log);
    }

    // Forward over the items of a case, and the block that ends them.
    #[cycle(blocks)]
    fn items(
        &mut self,
        list: &[u8],
        selector: Operand,
        depth: usize,
        entry: &[Operand],
        table: &mut [Operand],
        log: &mut Log<'_>,
    )
        requires entry_is_table { entry.now ≡ table.old }
        requires room { Room (length list.now) table.old (work self.old log.old) }
        ensures { Forwards (forward_items (write_item (variables_in entry.now) depth) (write_block (variables_in entry.now) depth)
            selector (fields_at 0 list.now) entry.now self.old.cells) (work self.old log.old) (work self.new log.new) table.new }
    {
        for field in fields_of(list, 0) {
            match field.sort {
                Sort::Item => self.marked_item(field.payload, selector, depth, entry, table, log),
                Sort::Block => {
                    self.block(field.sort, field.payload, depth, table, log);
                    return;
                }
                _ => return,
            }
        }
    }

    // One item of a case: an equal cell, its block, and its changes into the log, after which the table is again what it was.
    #[cycle(blocks)]
    fn marked_item(
        &mut self,
        payload: &[u8],
        selector: Operand,
        depth: usize,
        entry: &[Operand],
        table: &mut [Operand],
        log: &mut Log<'_>,
    )
        requires entry_is_table { entry.now ≡ table.old }
        requires room { Room (length payload.now + 3) table.old (work self.old log.old) }
        ensures { Forwards (forward_item selector payload.now entry.now self.old.cells
            (write_item (variables_in entry.now) depth payload.now entry.now (self.old.cells + 1))) (work self.old log.old) (work self.new log.new) table.new }
    {
        let number = self.cells;
        let constant = item_operand(payload);
        self.emit(Cell::Two(TwoOperand::Equal, 1, selector, constant));
        self.item(payload, depth, table, log);
        log.push_item(entry, table, number);
    }

    // An item's block, which follows its constant.
    #[tactic(auto, using(crate::proofs::WritingSteps::item_step, crate::proofs::WorkLaws::room_less, crate::proofs::FieldSizes::front_within), unfolding(crate::specs::Writing::write_item))]
    #[cycle(blocks)]
    fn item(&mut self, payload: &[u8], depth: usize, table: &mut [Operand], log: &mut Log<'_>)
        requires { Room (length payload.now) table.old (work self.old log.old) }
        ensures { Translates (write_item (variables_in table.old) depth payload.now table.old self.old.cells) (work self.old log.old) (work self.new log.new) table.new }
    {
        if depth > 0 {
            self.front_block(after_front(payload), depth - 1, table, log);
        }
    }

    // Merges the items that stand in the log above `bottom`, the last first.
    pub fn unwind(
        &mut self,
        entry: &[Operand],
        bottom: usize,
        table: &mut [Operand],
        log: &mut Log<'_>,
    )
        requires { (length entry.now ≤ 128) × (length table.old ≡ length entry.now) × ((marks : List Mark) × Filed log.old bottom marks)
            × (self.old.cells + 128 * log.old.top ≤ 2 ^ 31 + 128 * bottom)
            × (self.old.at + 2816 * log.old.top ≤ 2 ^ 40 + 2816 * bottom) }
        ensures { (marks : List Mark) → Filed log.old bottom marks →
            Unwinds (backward_items entry.now marks table.old self.old.cells) bottom (work self.old log.old) (work self.new log.new) table.new }
    {
        while bottom < log.top {
            self.merge_last(entry, table, log);
        }
    }

    // Merges the table of the last item in the log with the table of all that follows it.
    fn merge_last(&mut self, entry: &[Operand], table: &mut [Operand], log: &mut Log<'_>)
        requires { (self.old.at + 2816 ≤ 2 ^ 40) × (self.old.cells + 128 ≤ 2 ^ 31) × (length entry.now ≤ 128) × (length table.old ≡ length entry.now)
            × ((below : List Entry) × (mark : Mark) × Last log.old below mark) }
        ensures { (below : List Entry) (mark : Mark) → Last log.old below mark →
            Unwinds (merge_mark entry.now mark table.old self.old.cells) (length below) (work self.old log.old) (work self.new log.new) table.new }
    {
        let mut side = [NOTHING; 2 * MOST_VARIABLES];
        let side = &mut side[..entry.len()];
        side.copy_from_slice(entry);
        let condition = log.pop_item(side);
        self.merge(condition, side, table);
    }

    // A process's statements.
    #[tactic(auto, using(tagged::proofs::SortLaws::is_itself, verilog::proofs::FormLaws::is_missed), unfolding(crate::specs::Writing::write_process))]
    fn process(&mut self, sort: Sort, payload: &[u8], table: &mut [Operand], log: &mut Log<'_>)
        requires { Room (length payload.now) table.old (work self.old log.old) }
        ensures { Translates (write_process (variables_in table.old) sort payload.now table.old self.old.cells) (work self.old log.old) (work self.new log.new) table.new }
    {
        if sort == Sort::Process {
            self.statements(payload, DEEPEST - 2, table, log);
        }
    }

    // The processes of a list, in file order.
    pub fn processes(&mut self, list: &[u8], table: &mut [Operand], log: &mut Log<'_>)
        requires { Room (length list.now) table.old (work self.old log.old) }
        ensures { Translates (write_processes (variables_in table.old) list.now table.old self.old.cells) (work self.old log.old) (work self.new log.new) table.new }
    {
        for field in fields_of(list, 0) {
            self.process(field.sort, field.payload, table, log);
        }
    }
}
