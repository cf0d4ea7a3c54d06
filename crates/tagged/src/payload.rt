// What is left of a field's payload while it is read from left to right.
ghost use Rattle.std.specs.Prelude.{◌≡◌, ◌+◌, ◌^◌, ◌≤◌, length, drop};

// The bytes that are left, the place of the first of them, and that of the field that holds them.
#[derive(Clone, Copy, Debug)]
pub struct Payload<'a> {
    pub bytes: &'a [u8],
    pub base: usize,
    pub owner: usize,
    ghost small: { base + length bytes.now ≤ 2 ^ 40 },
}

impl<'a> Payload<'a> {
    // The whole payload of a field that stands at a place.
    pub fn of(bytes: &'a [u8], at: usize) -> Payload<'a>
        requires { at + 3 + length bytes.now ≤ 2 ^ 40 }
        ensures bytes { result.bytes.now ≡ bytes.now }
        ensures base { result.base ≡ at + 3 }
        ensures owner { result.owner ≡ at }
    {
        Payload {
            bytes,
            base: at + 3,
            owner: at,
        }
    }

    // What is left past so many bytes.
    pub fn past(self, count: usize) -> Payload<'a>
        requires { count ≤ length self.bytes.now }
        ensures bytes { result.bytes.now ≡ drop count self.entry.bytes.now }
        ensures base { result.base ≡ self.entry.base + count }
        ensures owner { result.owner ≡ self.entry.owner }
    {
        Payload {
            bytes: &self.bytes[count..],
            base: self.base + count,
            owner: self.owner,
        }
    }
}
