// Whether a key's numbers are those of its bytes: what every call on a key decides first.
#![tactic(auto)]

ghost use Rattle.std.specs.Prelude.{◌≡◌};
ghost use Rattle.key_layer.specs.Keys.{reached, fits, answer_to, Judge};
ghost use Rattle.key_layer.specs.Said.{said_judged};

use ikey::LONGEST;
use key_layer::{Layer, Refusal, Refused};

// Whether that many shifts leave a byte; always so for none.
pub fn is_reached(bytes: &[u8], shift_count: usize) -> bool
    ensures { result ≡ reached bytes.now shift_count }
{
    shift_count == 0 || 0 < key_layer::inside::left(bytes, shift_count)
}

// Whether the numbers are those of the bytes at that layer.
pub fn is_fit(bytes: &[u8], ikey: u64, shift_count: usize, suffix_start: usize) -> bool
    ensures { result ≡ fits bytes.now ikey shift_count suffix_start }
{
    if LONGEST < bytes.len() || !is_reached(bytes, shift_count) {
        return false;
    }
    let here = key_layer::inside::layer(bytes, shift_count);
    here.ikey == ikey && here.suffix_start == suffix_start
}

// Whether the numbers fit the bytes: what every call on a key decides first. Refused with 7, the numbers come back.
pub fn judge(
    bytes: &[u8],
    ikey: u64,
    shift_count: usize,
    suffix_start: usize,
) -> Result<(), Refused>
    ensures { said_judged result ≡ answer_to Judge bytes.now ikey shift_count suffix_start }
{
    if is_fit(bytes, ikey, shift_count, suffix_start) {
        return Ok(());
    }
    let layer = Layer {
        ikey,
        shift_count,
        suffix_start,
    };
    Err(Refused {
        why: Refusal::Key,
        layer,
    })
}
