// How long a key is, as a whole and from its layer on, and how long its suffix is: the caller's bytes and three numbers by value (ikey,
// shift count, suffix start). A key that does not fit its own bytes is refused with 7, and the numbers come back.
#![tactic(auto)]

ghost use Rattle.std.specs.Prelude.{◌≡◌};
ghost use Rattle.key_layer.specs.Keys.{answer_to, Len, CurrentLen, SuffixLen};
ghost use Rattle.key_layer.specs.Said.{said_count};

use key_layer::Refused;

// The length of the whole key.
pub fn len(
    bytes: &[u8],
    ikey: u64,
    shift_count: usize,
    suffix_start: usize,
) -> Result<usize, Refused>
    ensures { said_count result ≡ answer_to Len bytes.now ikey shift_count suffix_start }
{
    keys_answers::judge(bytes, ikey, shift_count, suffix_start)?;
    Ok(bytes.len())
}

// The length from the key's layer on.
pub fn current_len(
    bytes: &[u8],
    ikey: u64,
    shift_count: usize,
    suffix_start: usize,
) -> Result<usize, Refused>
    ensures { said_count result ≡ answer_to CurrentLen bytes.now ikey shift_count suffix_start }
{
    keys_answers::judge(bytes, ikey, shift_count, suffix_start)?;
    Ok(key_layer::inside::left(bytes, shift_count))
}

// The length of the suffix.
pub fn suffix_len(
    bytes: &[u8],
    ikey: u64,
    shift_count: usize,
    suffix_start: usize,
) -> Result<usize, Refused>
    ensures { said_count result ≡ answer_to SuffixLen bytes.now ikey shift_count suffix_start }
{
    keys_answers::judge(bytes, ikey, shift_count, suffix_start)?;
    Ok(key_layer::inside::minus(bytes.len(), suffix_start))
}
