// One recorded answer: 101 bytes with the line feed, its fields in lower-case hex at fixed places.
ghost use Rattle.std.specs.Prelude.{◌≡◌};
ghost use Rattle.replay_slots.specs.Lines.{replayed_of, agreed};

use crate::asked;

// What the port says to the call that the line records.
fn replayed(text: &[u8]) -> asked::Said
    ensures { result ≡ replayed_of text.now }
{
    let call = hex_digits::one(text, 2);
    let width = hex_digits::sixteen(text, 6) as usize;
    let word = hex_digits::sixteen(text, 23);
    let a = hex_digits::sixteen(text, 40) as usize;
    let b = hex_digits::sixteen(text, 57) as usize;
    asked::ask(call, width, word, a, b)
}

// Whether the port says to the recorded call what the line says.
pub fn agrees(text: &[u8]) -> bool
    ensures { result ≡ agreed text.now }
{
    let said = replayed(text);
    if said.number != hex_digits::one(text, 4) {
        return false;
    }
    if said.first != hex_digits::sixteen(text, 74) {
        return false;
    }
    if said.second != hex_digits::four(text, 91) {
        return false;
    }
    said.third == hex_digits::four(text, 96)
}
