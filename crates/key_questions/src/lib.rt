// The numbers of a key, asked for one by one: the caller's bytes and three numbers by value (ikey, shift count, suffix start), which every
// call judges first. A key that does not fit its own bytes is refused with 7, and the numbers come back.
#![tactic(auto)]

ghost use Rattle.std.specs.Prelude.{◌≡◌};
ghost use Rattle.key_layer.specs.Keys.{answer_to, Ikey, ShiftCount, SuffixStart};
ghost use Rattle.key_layer.specs.Said.{said_word, said_count};

use key_layer::Refused;

// The ikey at the key's layer.
pub fn ikey(
    bytes: &[u8],
    ikey: u64,
    shift_count: usize,
    suffix_start: usize,
) -> Result<u64, Refused>
    ensures { said_word result ≡ answer_to Ikey bytes.now ikey shift_count suffix_start }
{
    keys_answers::judge(bytes, ikey, shift_count, suffix_start)?;
    Ok(ikey)
}

// How often the key was shifted.
pub fn shift_count(
    bytes: &[u8],
    ikey: u64,
    shift_count: usize,
    suffix_start: usize,
) -> Result<usize, Refused>
    ensures { said_count result ≡ answer_to ShiftCount bytes.now ikey shift_count suffix_start }
{
    keys_answers::judge(bytes, ikey, shift_count, suffix_start)?;
    Ok(shift_count)
}

// Where the suffix starts, in the whole key.
pub fn suffix_start(
    bytes: &[u8],
    ikey: u64,
    shift_count: usize,
    suffix_start: usize,
) -> Result<usize, Refused>
    ensures { said_count result ≡ answer_to SuffixStart bytes.now ikey shift_count suffix_start }
{
    keys_answers::judge(bytes, ikey, shift_count, suffix_start)?;
    Ok(suffix_start)
}
