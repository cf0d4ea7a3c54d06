// Parts of a payload, by total functions, for what reads a module after refusal 2.
ghost use Rattle.std.specs.Prelude.{◌≡◌};
ghost use Rattle.verilog.specs.Reading.{after_front};

use tagged::fields::open_field;

// What follows the field at the front; nothing where no whole field stands.
#[tactic(auto, using(tagged::proofs::WalkLaws::front_within))]
pub fn after_front(part: &[u8]) -> &[u8]
    ensures { result.now ≡ after_front part.now }
{
    match open_field(part, 0, 0) {
        Ok((_, size)) => &part[size + 3..],
        Err(_) => &[],
    }
}
