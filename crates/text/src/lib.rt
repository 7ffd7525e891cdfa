// One line read: what it asks for. Everything stands on slices that the caller lends.
#![tactic(auto)]

mod fields;
pub mod inside;

ghost use Rattle.std.specs.Prelude.{◌≡◌, ◌≤◌, length};
ghost use Rattle.text.specs.Split.{up_to};

// How many bytes stand before the first separator; all of them where there is none.
pub fn first(s: &[u8], separator: u8) -> usize
    ensures { (result ≡ length (up_to separator s.now)) × (result ≤ length s.now) }
{
    s.iter().position(|b| *b == separator).unwrap_or(s.len())
}
