// Keys moved a layer on or back: the caller's bytes and three numbers by value (ikey, shift count, suffix start).
// A key that does not fit its own bytes is refused with 7, a shift that it does not allow with 8, and the numbers come back.
#![tactic(auto)]

ghost use Rattle.std.specs.Prelude.{◌≡◌};
ghost use Rattle.key_layer.specs.Keys.{answer_to, UnshiftAll, shift_said, unshift_said};
ghost use Rattle.key_layer.specs.Said.{said_moved};

use key_layer::{Layer, Refused, inside};

// The key eight bytes further on.
pub fn shift(
    bytes: &[u8],
    ikey: u64,
    shift_count: usize,
    suffix_start: usize,
) -> Result<Layer, Refused>
    ensures { said_moved result ≡ shift_said bytes.now ikey shift_count suffix_start }
{
    keys_fit::judge(bytes, ikey, shift_count, suffix_start)?;
    if 8 < inside::left(bytes, shift_count) {
        return Ok(inside::layer(bytes, shift_count + 1));
    }
    Err(keys_answers::no_shift(ikey, shift_count, suffix_start))
}

// The key eight bytes back.
pub fn unshift(
    bytes: &[u8],
    ikey: u64,
    shift_count: usize,
    suffix_start: usize,
) -> Result<Layer, Refused>
    ensures { said_moved result ≡ unshift_said bytes.now ikey shift_count suffix_start }
{
    keys_fit::judge(bytes, ikey, shift_count, suffix_start)?;
    if 0 < shift_count {
        return Ok(inside::layer(bytes, shift_count - 1));
    }
    Err(keys_answers::no_shift(ikey, shift_count, suffix_start))
}

// The key at layer 0 again.
pub fn unshift_all(
    bytes: &[u8],
    ikey: u64,
    shift_count: usize,
    suffix_start: usize,
) -> Result<Layer, Refused>
    ensures { said_moved result ≡ answer_to UnshiftAll bytes.now ikey shift_count suffix_start }
{
    keys_fit::judge(bytes, ikey, shift_count, suffix_start)?;
    Ok(inside::layer(bytes, 0))
}
