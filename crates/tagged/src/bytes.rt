// Items of parts, numbers in bytes, high byte first, and writing where there is room.
ghost use Rattle.std.specs.Prelude.{◌≡◌, [], ◌∷◌, ◌+◌, ◌^◌, ◌≤◌, length, get_or, set, take, drop};
ghost use Rattle.tagged.specs.Bytes.{two_bytes, number_of_two, four_bytes, number_of_four, four_of, Wrote};

// The item at an index, and another past the end.
pub fn get_or<T: Copy>(items: &[T], index: usize, other: T) -> T
    ensures { result ≡ get_or items.now index other }
{
    items.get(index).copied().unwrap_or(other)
}

// Puts an item at an index, if there is room for it.
pub fn put_item<T: Copy>(items: &mut [T], index: usize, item: T)
    ensures { items.new ≡ set items.old index item }
{
    if index < items.len() {
        items[index] = item;
    }
}

// The part from a start on; nothing where it starts past the end.
pub fn from<T>(part: &[T], start: usize) -> &[T]
    ensures { result.now ≡ drop start part.now }
{
    part.get(start..).unwrap_or(&[])
}

// The front of a part, so far as it reaches.
pub fn front<T>(part: &[T], end: usize) -> &[T]
    ensures { result.now ≡ take end part.now }
{
    part.get(..end).unwrap_or(part)
}

// The number that two bytes give.
#[tactic(auto, unfolding(crate::specs::Bytes::number_of_two))]
pub fn number_of_two(high: u8, low: u8) -> usize
    ensures { result ≡ number_of_two high low }
{
    usize::from(u16::from_be_bytes([high, low]))
}

// The number that four bytes give.
#[tactic(auto, unfolding(crate::specs::Bytes::number_of_four))]
pub fn number_of_four(a: u8, b: u8, c: u8, d: u8) -> u32
    ensures { result ≡ number_of_four a b c d }
{
    u32::from_be_bytes([a, b, c, d])
}

// The number in the first four bytes; what is missing counts as 0.
#[tactic(auto, unfolding(crate::specs::Bytes::four_of))]
pub fn four_of(part: &[u8]) -> u32
    ensures { result ≡ four_of part.now }
{
    number_of_four(
        get_or(part, 0, 0),
        get_or(part, 1, 0),
        get_or(part, 2, 0),
        get_or(part, 3, 0),
    )
}

// Writes one byte, if there is room for it; the index past it.
pub fn put_byte(out: &mut [u8], at: usize, byte: u8) -> usize
    requires { at + 1 ≤ 2 ^ 40 }
    ensures { Wrote out.old at (byte ∷ []) out.new result }
{
    put_item(out, at, byte);
    at + 1
}

// Writes bytes, so far as there is room; the index past them.
pub fn put_part(out: &mut [u8], at: usize, part: &[u8]) -> usize
    requires { at + length part.now ≤ 2 ^ 40 }
    ensures { Wrote out.old at part.now out.new result }
{
    let mut place = at;
    for byte in part {
        place = put_byte(out, place, *byte);
    }
    place
}

// Writes a number in two bytes, so far as there is room; the index past them.
#[tactic(auto, unfolding(crate::specs::Bytes::two_bytes))]
pub fn put_two(out: &mut [u8], at: usize, number: u32) -> usize
    requires { at + 2 ≤ 2 ^ 40 }
    ensures { Wrote out.old at (two_bytes number) out.new result }
{
    put_part(out, at, &[(number / 256 % 256) as u8, (number % 256) as u8])
}

// Writes a number in four bytes, so far as there is room; the index past them.
#[tactic(auto, unfolding(crate::specs::Bytes::four_bytes))]
pub fn put_four(out: &mut [u8], at: usize, number: u32) -> usize
    requires { at + 4 ≤ 2 ^ 40 }
    ensures { Wrote out.old at (four_bytes number) out.new result }
{
    put_part(out, at, &number.to_be_bytes())
}
