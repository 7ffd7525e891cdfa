// The bytes that are left of a key after some shifts, and its numbers there. For neighbours that know what they hold: what a caller must
// know stands in `requires`.
ghost use Rattle.std.specs.Prelude.{◌≡◌, ◌*◌, ◌-◌, ◌≤◌, length};
ghost use Rattle.key_layer.specs.Keys.{numbers_at};
ghost use Rattle.key_layer.specs.Said.{numbers_of};

use crate::Layer;

// The difference, or 0 where it would be negative.
pub fn minus(a: usize, b: usize) -> usize
    ensures { result ≡ a - b }
{
    if a < b {
        return 0;
    }
    a - b
}

// How many bytes are left after that many shifts.
pub fn left(bytes: &[u8], shift_count: usize) -> usize
    ensures { result ≡ length bytes.now - 8 * shift_count }
{
    let n = bytes.len();
    if n / 8 < shift_count {
        return 0;
    }
    n - 8 * shift_count
}

// The numbers of a key after that many shifts.
pub fn layer(bytes: &[u8], shift_count: usize) -> Layer
    requires { 8 * shift_count ≤ length bytes.now }
    ensures { numbers_of result ≡ numbers_at bytes.now shift_count }
{
    let offset = 8 * shift_count;
    let ikey = ikey::read_ikey(bytes, offset);
    let n = bytes.len();
    if n - offset < 8 {
        return Layer {
            ikey,
            shift_count,
            suffix_start: n,
        };
    }
    Layer {
        ikey,
        shift_count,
        suffix_start: offset + 8,
    }
}
