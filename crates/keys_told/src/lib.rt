// What a key is asked with yes or no: the caller's bytes and three numbers by value (ikey, shift count, suffix start).
// A key that does not fit its own bytes is refused with 7, and the numbers come back.
#![tactic(auto)]

ghost use Rattle.std.specs.Prelude.{◌≡◌};
ghost use Rattle.key_layer.specs.Keys.{answer_to, IsEmpty, IsShifted, HasSuffix};
ghost use Rattle.key_layer.specs.Said.{said_told};

use key_layer::Refused;

// Whether the key has no byte at all.
pub fn is_empty(
    bytes: &[u8],
    ikey: u64,
    shift_count: usize,
    suffix_start: usize,
) -> Result<bool, Refused>
    ensures { said_told result ≡ answer_to IsEmpty bytes.now ikey shift_count suffix_start }
{
    keys_answers::judge(bytes, ikey, shift_count, suffix_start)?;
    Ok(bytes.len() == 0)
}

// Whether the key was shifted.
pub fn is_shifted(
    bytes: &[u8],
    ikey: u64,
    shift_count: usize,
    suffix_start: usize,
) -> Result<bool, Refused>
    ensures { said_told result ≡ answer_to IsShifted bytes.now ikey shift_count suffix_start }
{
    keys_answers::judge(bytes, ikey, shift_count, suffix_start)?;
    Ok(0 < shift_count)
}

// Whether more than eight bytes are left at the key's layer.
pub fn has_suffix(
    bytes: &[u8],
    ikey: u64,
    shift_count: usize,
    suffix_start: usize,
) -> Result<bool, Refused>
    ensures { said_told result ≡ answer_to HasSuffix bytes.now ikey shift_count suffix_start }
{
    keys_answers::judge(bytes, ikey, shift_count, suffix_start)?;
    Ok(8 < key_layer::inside::left(bytes, shift_count))
}
