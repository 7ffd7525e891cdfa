// What the plain calls say of a key that they make or move, as numbers alone: the refusal's number or 0, and the key's three numbers.
// Here stand the numbers of such an answer and the shifts; crate `held_key` has the other moves.
#![tactic(auto)]

ghost use Rattle.std.specs.Prelude.{◌≡◌};
ghost use Rattle.key_layer.specs.Keys.{shift_said, shift_by_said};
ghost use Rattle.key_layer.specs.Said.{said_made, said_moved};
ghost use Rattle.keys_moved_numbers.specs.Numbers.{numbers_in};

use key_layer::{Layer, Refused};
use refusal::Refusal;

// The number of a refusal, 0 where nothing was refused, and the numbers of a key.
#[derive(Clone, Copy)]
pub struct Numbers {
    pub refusal: u64,
    pub ikey: u64,
    pub shift_count: usize,
    pub suffix_start: usize,
}

// The numbers of a moved key beside 0, or of the key where it was beside the refusal's number.
pub fn of_moved(answer: Result<Layer, Refused>) -> Numbers
    ensures { result ≡ numbers_in (said_moved answer) }
{
    match answer {
        Ok(at) => Numbers {
            refusal: 0,
            ikey: at.ikey,
            shift_count: at.shift_count,
            suffix_start: at.suffix_start,
        },
        Err(refused) => Numbers {
            refusal: refusal::number(refused.why),
            ikey: refused.layer.ikey,
            shift_count: refused.layer.shift_count,
            suffix_start: refused.layer.suffix_start,
        },
    }
}

// The numbers of a new key beside 0, or three zeros beside the refusal's number.
pub fn of_made(answer: Result<Layer, Refusal>) -> Numbers
    ensures { result ≡ numbers_in (said_made answer) }
{
    match answer {
        Ok(at) => Numbers {
            refusal: 0,
            ikey: at.ikey,
            shift_count: at.shift_count,
            suffix_start: at.suffix_start,
        },
        Err(why) => Numbers {
            refusal: refusal::number(why),
            ikey: 0,
            shift_count: 0,
            suffix_start: 0,
        },
    }
}

// The numbers of the key eight bytes further on.
pub fn shifted(bytes: &[u8], ikey: u64, shift_count: usize, suffix_start: usize) -> Numbers
    ensures { result ≡ numbers_in (shift_said bytes.now ikey shift_count suffix_start) }
{
    of_moved(key_moves::shift(bytes, ikey, shift_count, suffix_start))
}

// The numbers of the key that many bytes further on: all shifts, or none.
pub fn shifted_by(
    bytes: &[u8],
    ikey: u64,
    shift_count: usize,
    suffix_start: usize,
    by: usize,
) -> Numbers
    ensures { result ≡ numbers_in (shift_by_said bytes.now ikey shift_count suffix_start by) }
{
    of_moved(keys_shift_by::shift_by(bytes, ikey, shift_count, suffix_start, by))
}
