// The log of a case's items: forward, an item's changes are logged and the table is set back; backward, each item's changes are put on a copy of the table again.
ghost use Rattle.std.specs.Prelude.{◌≡◌, List, [], ◌∷◌, ◌++◌, ◌+◌, ◌^◌, ◌≤◌, ◌<◌, length};
ghost use Rattle.netlist.specs.declared.Operand.TheVariants as Operand;
ghost use Rattle.translate_blocks.specs.Log.{changes, changes_from, changes_of, patched, Mark, item_log};
ghost use Rattle.translate_blocks.specs.declared.case_log.Entry.{Entry};
ghost use Rattle.translate_blocks.specs.Working.{Grown, Last, Lowered};

use netlist::Operand;
use tagged::bytes::put_item;

// A slot of a table, and the operand that it has after an item. In the mark that closes an item: how many changes it has, and its equal cell.
#[derive(Clone, Copy, Debug, PartialEq, Eq)]
pub struct Entry {
    pub slot: u8,
    pub operand: Operand,
}

// The log, and how many entries stand in it.
#[derive(Drop)]
pub struct Log<'a> {
    pub entries: &'a mut [Entry],
    pub top: usize,
}

// Puts changes on a table.
fn patch(side: &mut [Operand], changed: &[Entry])
    ensures { side.new ≡ patched changed.now side.old }
{
    for change in changed {
        put_item(side, usize::from(change.slot), change.operand);
    }
}

impl Log<'_> {
    // Puts an entry above the others.
    fn push(&mut self, entry: Entry)
        requires { (self.old.top + 1 ≤ length self.old.entries.now) × (length self.old.entries.now ≤ 2 ^ 20) }
        ensures { Grown self.old (entry ∷ []) self.new }
    {
        self.entries[self.top] = entry;
        self.top += 1;
    }

    // Logs the operand in a slot, if it is not the one that it was.
    #[tactic(auto, using(crate::proofs::SameOperands::operands_same, crate::proofs::SameOperands::operands_differ, crate::proofs::LogLaws::grown_none), unfolding(crate::specs::Log::changes, crate::specs::Log::changes_from))]
    fn push_change(&mut self, slot: u8, old: Operand, operand: Operand)
        requires { (self.old.top + changes (old ∷ []) (operand ∷ []) ≤ length self.old.entries.now) × (length self.old.entries.now ≤ 2 ^ 20) }
        ensures { Grown self.old (changes_from slot (old ∷ []) (operand ∷ [])) self.new }
    {
        if old != operand {
            self.push(Entry { slot, operand });
        }
    }

    // Logs where a table differs from the entry table, and sets it back.
    #[tactic(auto, using(crate::proofs::LogLaws::log_room, crate::proofs::LogLaws::log_done))]
    fn push_changes(&mut self, entry: &[Operand], table: &mut [Operand])
        requires { (length table.old ≡ length entry.now) × (length entry.now ≤ 128)
            × (length self.old.entries.now ≤ 2 ^ 20) × (self.old.top + changes entry.now table.old ≤ length self.old.entries.now) }
        ensures set_back { table.new ≡ entry.now }
        ensures grown { Grown self.old (changes_of entry.now table.old) self.new }
    {
        for (slot, old) in entry.iter().enumerate() {
            self.push_change(slot as u8, *old, table[slot]);
            table[slot] = *old;
        }
    }

    // Logs where a table differs from the entry table, closes the item with its mark, and sets the table back.
    #[tactic(auto, using(crate::proofs::CaseLoops::changes_counted, crate::proofs::ChangeCounts::changes_most))]
    pub fn push_item(&mut self, entry: &[Operand], table: &mut [Operand], number: u32)
        requires { (length table.old ≡ length entry.now) × (length entry.now ≤ 128)
            × (length self.old.entries.now ≤ 2 ^ 20) × (self.old.top + changes entry.now table.old + 1 ≤ length self.old.entries.now) }
        ensures set_back { table.new ≡ entry.now }
        ensures grown { Grown self.old (item_log (record { equal = number; changed = changes_of entry.now table.old })) self.new }
    {
        let bottom = self.top;
        self.push_changes(entry, table);
        self.push(Entry {
            slot: (self.top - bottom) as u8,
            operand: Operand::Cell(1, number),
        });
    }

    // Puts the changes of the last item on a table: where its changes start, and its equal cell.
    fn last_item(&self, side: &mut [Operand]) -> (usize, Operand)
        requires { (below : List Entry) × (mark : Mark) × Last self.now below mark }
        ensures { (below : List Entry) (mark : Mark) → Last self.now below mark → (result.0 ≡ length below)
            × (result.1 ≡ Operand.Cell 1 mark.equal) × (side.new ≡ patched mark.changed side.old) }
    {
        let mark = self.top - 1;
        let closing = self.entries[mark];
        let start = mark - usize::from(closing.slot);
        patch(side, &self.entries[start..mark]);
        (start, closing.operand)
    }

    // Takes the last item off the log: puts its changes on a table, and gives its equal cell.
    pub fn pop_item(&mut self, side: &mut [Operand]) -> Operand
        requires { (below : List Entry) × (mark : Mark) × Last self.old below mark }
        ensures { (below : List Entry) (mark : Mark) → Last self.old below mark → (result ≡ Operand.Cell 1 mark.equal)
            × (side.new ≡ patched mark.changed side.old) × Lowered self.old (length below) self.new }
    {
        let (start, condition) = self.last_item(side);
        self.top = start;
        condition
    }
}
