// The fields of a line: words, keys in lower-case hex, frame numbers in decimal.
ghost use Rattle.std.specs.Prelude.{◌≡◌, true, List, ℕ, ◌+◌, ◌*◌, ◌/◌, ◌≤◌, ◌<◌, length};
ghost use Rattle.arena.specs.Parts.{put_part};
ghost use Rattle.text.specs.Fields.{same as Fields·same, is_hex, is_pairs, is_key, key_in, pairs, hex_value, is_decimal, is_frame};
ghost use Rattle.text.specs.Command.{frame_if};

// Whether two slices hold the same bytes.
pub(crate) fn same(a: &[u8], b: &[u8]) -> bool
    ensures { result ≡ Fields·same a.now b.now }
{
    a == b
}

// ---- keys

// Whether a byte is a lower-case hex digit.
fn is_hex(b: u8) -> bool
    ensures { result ≡ is_hex b }
{
    matches!(b, b'0'..=b'9' | b'a'..=b'f')
}

// The value of a hex digit.
fn hex_value(b: u8) -> u8
    requires { is_hex b ≡ true }
    ensures { (result ≡ hex_value b) × (result < 16) }
{
    if b <= b'9' {
        return b - b'0';
    }
    b - b'a' + 10
}

// Whether a field is a positive even number of hex digits.
fn is_pairs(field: &[u8]) -> bool
    ensures { result ≡ is_pairs field.now }
{
    if field.len() == 0 || field.len() % 2 != 0 {
        return false;
    }
    field.iter().all(|b| is_hex(*b))
}

// Writes each pair of hex digits as a byte to the front of the buffer, and tells how many.
fn pairs_to(field: &[u8], key: &mut [u8]) -> usize
    requires { (is_pairs field.now ≡ true) × (length field.now ≤ 2 * length key.old) }
    ensures { (result ≡ length (pairs field.now))
        × (key.new ≡ put_part key.old 0 (pairs field.now)) }
{
    let count = field.len() / 2;
    // The first i pairs are written.
    for i in 0..count {
        let high = hex_value(field[2 * i]);
        let low = hex_value(field[2 * i + 1]);
        key[i] = high * 16 + low;
    }
    count
}

// Whether a field is a key: `-`, or pairs of hex digits.
pub(crate) fn is_key(field: &[u8]) -> bool
    ensures { result ≡ is_key field.now }
{
    if same(field, b"-") {
        return true;
    }
    is_pairs(field)
}

// Writes the key of a field to the front of the buffer, and tells its length.
pub(crate) fn key_to(field: &[u8], key: &mut [u8]) -> usize
    requires { (is_key field.now ≡ true) × (length field.now ≤ 2 * length key.old) }
    ensures { (result ≡ length (key_in field.now))
        × (key.new ≡ put_part key.old 0 (key_in field.now)) }
{
    if same(field, b"-") {
        return 0;
    }
    pairs_to(field, key)
}

// ---- frame numbers

// The value of decimal digits, where all are digits and it is below 2^64. Not by `parse`: that takes a `+` too.
fn decimal_in(field: &[u8]) -> Option<u64>
    ensures { result ≡ frame_if (is_decimal field.now) field.now }
{
    let mut n: u64 = 0;
    // The bytes so far are digits, and n is their value.
    for b in field {
        if *b < b'0' || b'9' < *b {
            return None;
        }
        let d = (*b - b'0') as u64;
        n = n.checked_mul(10)?.checked_add(d)?;
    }
    Some(n)
}

// The frame number of a field, where it is one: decimal digits without a leading zero, below 2^64.
pub(crate) fn frame_in(field: &[u8]) -> Option<u64>
    ensures { result ≡ frame_if (is_frame field.now) field.now }
{
    if field.len() == 0 {
        return None;
    }
    if field.len() == 1 {
        return decimal_in(field);
    }
    if field[0] == b'0' {
        return None;
    }
    decimal_in(field)
}
