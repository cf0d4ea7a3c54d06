// Names: 1 to 24 of letters, digits and underscore, no digit first.
ghost use Rattle.std.specs.Prelude.{◌≡◌};
ghost use Rattle.tagged.specs.Names.{is_name_byte, all_name_bytes, is_name, same_name};

use crate::bytes::get_or;
use crate::limits::Name;

// A letter, a digit or an underscore.
#[tactic(auto, using(std::proofs::lemmas::Bool::Decides::nat_tests), unfolding(crate::specs::Names::is_name_byte))]
fn is_name_byte(byte: u8) -> bool
    ensures { result ≡ is_name_byte byte }
{
    match byte {
        0x30..=0x39 => true,
        0x41..=0x5A => true,
        0x5F => true,
        0x61..=0x7A => true,
        _ => false,
    }
}

// Has the part only bytes that a name may have?
#[tactic(auto, using(crate::proofs::NameLaws::bytes_turn, crate::proofs::NameLaws::bytes_broken), unfolding(crate::specs::Names::all_name_bytes))]
fn all_name_bytes(name: &[u8]) -> bool
    ensures { result ≡ all_name_bytes name.now }
{
    for byte in name {
        if !is_name_byte(*byte) {
            return false;
        }
    }
    true
}

// May the part be a name?
#[tactic(auto, unfolding(crate::specs::Names::is_name))]
pub fn is_name(name: &[u8]) -> bool
    ensures { result ≡ is_name name.now }
{
    Name::new(name.len()).is_some() && !get_or(name, 0, 0).is_ascii_digit() && all_name_bytes(name)
}

// Are the names the same?
pub fn same_name(first: &[u8], second: &[u8]) -> bool
    ensures { result ≡ same_name first.now second.now }
{
    first == second
}
