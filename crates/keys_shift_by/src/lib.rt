// A key moved on by some bytes, all shifts or none.
#![tactic(auto)]

ghost use Rattle.std.specs.Prelude.{◌≡◌};
ghost use Rattle.key_layer.specs.Keys.{shiftable, shift_by_said};
ghost use Rattle.key_layer.specs.Said.{said_moved};

use key_layer::{Layer, Refused, inside};

// Whether `shift` would allow that many bytes' shifts, one after the other.
fn is_shiftable(bytes: &[u8], shift_count: usize, by: usize) -> bool
    ensures { result ≡ shiftable bytes.now shift_count by }
{
    by == 0 || (by % 8 == 0 && by < inside::left(bytes, shift_count))
}

// The key that many bytes further on: all shifts, or none.
pub fn shift_by(
    bytes: &[u8],
    ikey: u64,
    shift_count: usize,
    suffix_start: usize,
    by: usize,
) -> Result<Layer, Refused>
    ensures { said_moved result ≡ shift_by_said bytes.now ikey shift_count suffix_start by }
{
    keys_fit::judge(bytes, ikey, shift_count, suffix_start)?;
    if is_shiftable(bytes, shift_count, by) {
        return Ok(inside::layer(bytes, shift_count + by / 8));
    }
    Err(keys_answers::no_shift(ikey, shift_count, suffix_start))
}
