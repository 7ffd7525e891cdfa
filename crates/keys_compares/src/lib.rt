// A key against another at its layer, and its suffix against another: the caller's bytes and three numbers by value (ikey, shift count,
// suffix start). A key that does not fit its own bytes is refused with 7, and the numbers come back.
#![tactic(auto)]

ghost use Rattle.std.specs.Prelude.{◌≡◌};
ghost use Rattle.key_layer.specs.Keys.{answer_to, Compare, CompareSuffix};
ghost use Rattle.key_layer.specs.Said.{said_compared};

use key_layer::Refused;
use std::cmp::Ordering;

// The key against an ikey and a length, at one layer: two longer ones with equal ikeys are equal here.
pub fn compare(
    bytes: &[u8],
    ikey: u64,
    shift_count: usize,
    suffix_start: usize,
    other_ikey: u64,
    keylenx: usize,
) -> Result<Ordering, Refused>
    ensures { said_compared result ≡ answer_to (Compare other_ikey keylenx) bytes.now ikey shift_count suffix_start }
{
    keys_answers::judge(bytes, ikey, shift_count, suffix_start)?;
    let len = key_layer::inside::left(bytes, shift_count);
    Ok(ikey::inside::at_layer(ikey, len, other_ikey, keylenx))
}

// The key's suffix against another, byte by byte: the part of the caller's bytes is handed on.
pub fn compare_suffix(
    bytes: &[u8],
    ikey: u64,
    shift_count: usize,
    suffix_start: usize,
    other: &[u8],
) -> Result<Ordering, Refused>
    ensures { said_compared result ≡ answer_to (CompareSuffix other.now) bytes.now ikey shift_count
        suffix_start }
{
    keys_answers::judge(bytes, ikey, shift_count, suffix_start)?;
    let suffix = keys_parts::inside::suffix(bytes, ikey, shift_count, suffix_start);
    Ok(ikey::inside::compare_parts(suffix, other))
}
