// Numbers in lower-case hex, read from a place of a text. A byte that is no digit counts as 0, and so does what is behind the end.
#![tactic(auto)]

ghost use Rattle.std.specs.Prelude.{◌≡◌, ◌+◌, ◌^◌, ◌≤◌, ◌<◌, get_or};
ghost use Rattle.hex_digits.specs.Digits.{digit_of, hex_at};

// The value of a hex digit.
fn digit(byte: u8) -> u64
    ensures { result ≡ digit_of byte }
{
    match byte {
        b'0'..=b'9' => (byte - b'0') as u64,
        b'a'..=b'f' => (byte - b'a' + 10) as u64,
        _ => 0,
    }
}

// The value of the digit that stands k places behind another.
fn digit_at(text: &[u8], from: usize, k: usize) -> u64
    ensures { result ≡ digit_of (get_or text.now (from + k) 0) }
{
    if from < text.len() && k < text.len() - from {
        digit(text[from + k])
    } else {
        0
    }
}

// The number that so many digits spell, from a place on.
fn number(text: &[u8], from: usize, digits: usize) -> u64
    requires { digits ≤ 16 }
    ensures { (result ≡ hex_at text.now from digits) × (result < 16 ^ digits) }
{
    let mut value: u64 = 0;
    // `value` is the number that the first k digits spell.
    for k in 0..digits {
        value = value * 16 + digit_at(text, from, k);
    }
    value
}

// The number that one digit spells.
pub fn one(text: &[u8], from: usize) -> u64
    ensures { (result ≡ hex_at text.now from 1) × (result < 16) }
{
    number(text, from, 1)
}

// The number that two digits spell.
pub fn two(text: &[u8], from: usize) -> u64
    ensures { (result ≡ hex_at text.now from 2) × (result < 256) }
{
    number(text, from, 2)
}

// The number that four digits spell.
pub fn four(text: &[u8], from: usize) -> u64
    ensures { (result ≡ hex_at text.now from 4) × (result < 65536) }
{
    number(text, from, 4)
}

// The number that eight digits spell.
pub fn eight(text: &[u8], from: usize) -> u64
    ensures { (result ≡ hex_at text.now from 8) × (result < 2 ^ 32) }
{
    number(text, from, 8)
}

// The number that sixteen digits spell.
pub fn sixteen(text: &[u8], from: usize) -> u64
    ensures { result ≡ hex_at text.now from 16 }
{
    number(text, from, 16)
}

// The byte that two digits spell.
pub fn byte(text: &[u8], from: usize) -> u8
    ensures { result ≡ hex_at text.now from 2 }
{
    two(text, from) as u8
}
