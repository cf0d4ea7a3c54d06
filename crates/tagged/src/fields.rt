// Fields over parts of the file: opening a header, judging one field and lists of them, and what is left at the end.
ghost use Rattle.std.specs.Prelude.{◌≡◌, Bool, ℕ, ◌+◌, ◌^◌, ◌≤◌, length};
ghost use Rattle.tagged.specs.declared.sorts.Sort.{Sort};
ghost use Rattle.tagged.specs.Fields.{Body, open_of, ended, field_by, many, until_end};
ghost use Rattle.tagged.specs.Payloads.{over};
ghost use Rattle.tagged.specs.Bodies.{TakesPayloads, Judges, Chooses};

use crate::answers::Fault;
use crate::bytes::number_of_two;
use crate::payload::Payload;
use crate::sorts::{Sort, sort_of};

// The field at the front of a part, its sort and how many bytes of payload, or a fault: `base` is the place of the part's first byte, `owner` that
// of the field that holds it.
#[tactic(auto, unfolding(crate::specs::Fields::open_of))]
pub fn open_field(part: &[u8], base: usize, owner: usize) -> Result<(Sort, usize), Fault>
    ensures { result ≡ open_of base owner part.now }
{
    if part.is_empty() {
        return Err(Fault { place: owner });
    }
    if part.len() < 3 {
        return Err(Fault { place: base });
    }
    let length = number_of_two(part[1], part[2]);
    if length <= part.len() - 3 {
        Ok((sort_of(part[0]), length))
    } else {
        Err(Fault { place: base })
    }
}

// Nothing may be left over.
#[tactic(auto, unfolding(crate::specs::Fields::ended))]
pub fn at_end(part: &[u8], base: usize, owner: usize) -> Result<(), Fault>
    ensures { result ≡ ended base owner part.now }
{
    if part.is_empty() {
        Ok(())
    } else {
        Err(Fault { place: owner })
    }
}

// Nothing may be left of a payload.
pub fn ended(part: Payload) -> Result<(), Fault>
    ensures { result ≡ over ended part.entry }
{
    at_end(part.bytes, part.base, part.owner)
}

// One field at the front, whose payload `body` judges: how many bytes it takes, or the fault.
pub fn field_by<B: Fn(Sort, &[u8], usize) -> Result<(), Fault>>(
    part: Payload,
    body: B,
) -> Result<usize, Fault>
    requires { TakesPayloads (B.pre body) }
    ensures told { (judged : Body) → Judges (B.post body) judged → result ≡ over (field_by judged) part.entry }
    ensures within { (m : ℕ) → result ≡ Ok m → (3 ≤ m) × (m ≤ length part.entry.bytes.now) }
{
    let (sort, size) = open_field(part.bytes, part.base, part.owner)?;
    body(sort, &part.bytes[3..size + 3], part.base)?;
    Ok(size + 3)
}

// The fields at the front, while the next tag begins a wanted sort: how many bytes they take, or the first fault.
pub fn many<W: Fn(Sort) -> bool, B: Fn(Sort, &[u8], usize) -> Result<(), Fault>>(
    part: Payload,
    wanted: W,
    body: B,
) -> Result<usize, Fault>
    requires asked { W.IsAlwaysCallable wanted }
    requires callable { TakesPayloads (B.pre body) }
    ensures told { (chosen : Sort → Bool) (judged : Body) → Chooses (W.post wanted) chosen → Judges (B.post body) judged → result ≡ over (many chosen (field_by judged)) part.entry }
    ensures within { (m : ℕ) → result ≡ Ok m → m ≤ length part.entry.bytes.now }
{
    let mut at: usize = 0;
    while at < part.bytes.len() {
        if !wanted(sort_of(part.bytes[at])) {
            return Ok(at);
        }
        at += field_by(part.past(at), &body)?;
    }
    Ok(at)
}

// Fields until the end.
pub fn until_end<B: Fn(Sort, &[u8], usize) -> Result<(), Fault>>(
    part: Payload,
    body: B,
) -> Result<(), Fault>
    requires { TakesPayloads (B.pre body) }
    ensures { (judged : Body) → Judges (B.post body) judged → result ≡ over (until_end (field_by judged)) part.entry }
{
    let past = many(part, |_sort| true, body)?;
    ended(part.past(past))
}
