// Eight bytes of a key as a number, the first one highest.
#![tactic(auto)]

ghost use Rattle.std.specs.Prelude.{◌≡◌};
ghost use Rattle.order.specs.Layer.{ikey_at};

pub mod inside;

// The next eight bytes of any part at any offset, the first one highest, zero-filled at the end.
pub fn read_ikey(bytes: &[u8], offset: usize) -> u64
    ensures { result ≡ ikey_at bytes.now offset }
{
    let n = bytes.len();
    if n < offset {
        return 0;
    }
    if 8 <= n - offset {
        return inside::eight(&bytes[offset..]);
    }
    inside::read_ikey_slow(&bytes[offset..])
}
