// The fields of a list of bytes, one after the other, each with its place, up to what is no whole field.
ghost use Rattle.std.specs.Prelude.{◌≡◌, ◌+◌, ◌≤◌, ◌^◌, length};

use crate::fields::open_field;
use crate::sorts::Sort;

// A field of a list: the place of its first byte in the file, its sort, and its payload.
#[derive(Clone, Copy, Debug)]
pub struct Field<'a> {
    pub place: usize,
    pub sort: Sort,
    pub payload: &'a [u8],
}

// What is left of a list, and the place of its first byte.
#[derive(Clone, Copy, Debug)]
pub struct Fields<'a> {
    pub rest: &'a [u8],
    pub place: usize,
    ghost small: { place + length rest.now ≤ 2 ^ 40 },
}

// The fields of a list whose first byte has the place `base`.
pub fn fields_of<'a>(list: &'a [u8], base: usize) -> Fields<'a>
    requires { base + length list.now ≤ 2 ^ 40 }
    ensures rest { result.rest.now ≡ list.now }
    ensures place { result.place ≡ base }
{
    Fields {
        rest: list,
        place: base,
    }
}

impl<'a> Iterator for Fields<'a> {
    ghost use Rattle.std.specs.Iterator.{item_count};
    ghost use Rattle.tagged.specs.Walk.{fields_left, GivesField};

    type Item = Field<'a>;

    ghost next_gives = { GivesField };

    ghost remaining = { item_count fields_left };

    #[tactic(auto, using(crate::proofs::WalkLaws::front_within, crate::proofs::WalkLaws::front_more, crate::proofs::WalkLaws::front_none))]
    fn next(&mut self) -> Option<Field<'a>> {
        let (sort, size) = open_field(self.rest, 0, 0).ok()?;
        let field = Field {
            place: self.place,
            sort,
            payload: &self.rest[3..size + 3],
        };
        *self = Fields {
            rest: &self.rest[size + 3..],
            place: self.place + size + 3,
        };
        Some(field)
    }
}
