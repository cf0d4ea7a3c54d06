// Reading a field's payload from left to right.
ghost use Rattle.std.specs.Prelude.{◌≡◌, Bool, ℕ, ◌+◌, ◌^◌, ◌≤◌, length, drop};
ghost use Rattle.tagged.specs.declared.sorts.Sort.{Sort};
ghost use Rattle.tagged.specs.Bodies.{TakesPayloads, Judges, Chooses};
ghost use Rattle.tagged.specs.Fields.{Body, Judge, after_step, ended, fixed_then, then_by, field_by, many, until_end};
ghost use Rattle.tagged.specs.Payloads.{over};
ghost use Rattle.verilog.specs.Reader.{judged_on, LevelsKept, Leads};

use tagged::answers::Fault;
use tagged::fields::{ended, field_by, many, until_end};
use tagged::payload::Payload;
use tagged::sorts::Sort;

// What is left of a payload, and how many levels of fields may be opened in it.
#[derive(Clone, Copy)]
pub struct Reader<'a> {
    pub left: Payload<'a>,
    pub levels: usize,
}

impl<'a> Reader<'a> {
    // At the beginning of the payload of a field at this place.
    pub fn inside(payload: &'a [u8], at: usize, levels: usize) -> Reader<'a>
        requires { at + 3 + length payload.now ≤ 2 ^ 40 }
        ensures bytes { result.left.bytes.now ≡ payload.now }
        ensures base { result.left.base ≡ at + 3 }
        ensures owner { result.left.owner ≡ at }
        ensures levels { result.levels ≡ levels }
    {
        Reader {
            left: Payload::of(payload, at),
            levels,
        }
    }

    // Past the bytes that were judged, or their fault.
    pub fn after(self, judged: Result<usize, Fault>) -> Result<Reader<'a>, Fault>
        requires { (m : ℕ) → judged ≡ Ok m → m ≤ length self.left.bytes.now }
        ensures leads { (next : Judge) → after_step judged (λ m. next (self.entry.left.base + m) self.entry.left.owner (drop m self.entry.left.bytes.now)) ≡ judged_on next result }
        ensures levels { LevelsKept self.entry.levels result }
    {
        Ok(Reader {
            left: self.left.past(judged?),
            levels: self.levels,
        })
    }

    // Past so many fixed bytes.
    #[tactic(auto, unfolding(tagged::specs::Fields::fixed_then))]
    pub fn fixed(self, count: usize) -> Result<Reader<'a>, Fault>
        ensures leads { Leads (fixed_then count) self.entry result }
        ensures levels { LevelsKept self.entry.levels result }
    {
        if self.left.bytes.len() < count {
            return Err(Fault {
                place: self.left.owner,
            });
        }
        Ok(Reader {
            left: self.left.past(count),
            levels: self.levels,
        })
    }

    // Past one field, whose payload `body` judges.
    #[tactic(auto, unfolding(tagged::specs::Fields::then_by))]
    pub fn field<B: Fn(Sort, &[u8], usize) -> Result<(), Fault>>(
        self,
        body: B,
    ) -> Result<Reader<'a>, Fault>
        requires { TakesPayloads (B.pre body) }
        ensures leads { (judged : Body) → Judges (B.post body) judged → Leads (then_by (field_by judged)) self.entry result }
        ensures levels { LevelsKept self.entry.levels result }
    {
        self.after(field_by(self.left, body))
    }

    // Past the fields of a wanted sort.
    #[tactic(auto, unfolding(tagged::specs::Fields::then_by))]
    pub fn many<W: Fn(Sort) -> bool, B: Fn(Sort, &[u8], usize) -> Result<(), Fault>>(
        self,
        wanted: W,
        body: B,
    ) -> Result<Reader<'a>, Fault>
        requires asked { W.IsAlwaysCallable wanted }
        requires callable { TakesPayloads (B.pre body) }
        ensures leads { (chosen : Sort → Bool) (judged : Body) → Chooses (W.post wanted) chosen → Judges (B.post body) judged
            → Leads (then_by (many chosen (field_by judged))) self.entry result }
        ensures levels { LevelsKept self.entry.levels result }
    {
        self.after(many(self.left, wanted, body))
    }

    // Fields until the end.
    pub fn until_end<B: Fn(Sort, &[u8], usize) -> Result<(), Fault>>(
        self,
        body: B,
    ) -> Result<(), Fault>
        requires { TakesPayloads (B.pre body) }
        ensures { (judged : Body) → Judges (B.post body) judged → result ≡ over (until_end (field_by judged)) self.entry.left }
    {
        until_end(self.left, body)
    }

    // Nothing may be left.
    pub fn end(self) -> Result<(), Fault>
        ensures { result ≡ over ended self.entry.left }
    {
        ended(self.left)
    }
}
