// One recorded answer: 169 bytes with the line feed, its fields in lower-case hex at fixed places.
ghost use Rattle.std.specs.Prelude.{◌≤◌};

use crate::asked;

// The 25 bytes that stand from a place on, two digits each.
fn bank_at(text: &[u8], from: usize) -> [u8; 25]
    requires { from ≤ 114 }
{
    let mut bank = [0u8; 25];
    for (k, byte) in bank.iter_mut().enumerate() {
        *byte = hex_digits::byte(text, from + 2 * k);
    }
    bank
}

// Whether the port says to the recorded call what the line says.
pub(crate) fn agrees(text: &[u8]) -> bool {
    let call = hex_digits::one(text, 2);
    let width = hex_digits::sixteen(text, 6) as usize;
    let a = hex_digits::sixteen(text, 74) as usize;
    let b = hex_digits::sixteen(text, 91) as usize;
    let said = asked::ask(call, width, bank_at(text, 23), a, b);
    let after = said.bank;
    said.number == hex_digits::one(text, 4)
        && said.told == hex_digits::four(text, 159)
        && said.resting == hex_digits::four(text, 164)
        && after == bank_at(text, 108)
}
