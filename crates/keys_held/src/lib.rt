// A key that holds the caller's bytes, and such a key beside the number of a refusal.
#![tactic(auto)]

ghost use Rattle.std.specs.Prelude.{◌≡◌};
ghost use Rattle.keys_held.specs.Held.{holding};

use keys_moved_numbers::Numbers;

// The caller's bytes, and the key's numbers at a layer.
#[derive(Clone, Copy)]
pub struct Key<'a> {
    pub bytes: &'a [u8],
    pub ikey: u64,
    pub shift_count: usize,
    pub suffix_start: usize,
}

// A key, beside the number of a refusal: 0 where nothing was refused.
#[derive(Clone, Copy)]
pub struct Keyed<'a> {
    pub refusal: u64,
    pub key: Key<'a>,
}

// The key of this slice and these numbers, beside the refusal.
pub fn hold<'a>(bytes: &'a [u8], n: Numbers) -> Keyed<'a>
    ensures { result ≡ holding bytes.entry n }
{
    Keyed {
        refusal: n.refusal,
        key: Key {
            bytes,
            ikey: n.ikey,
            shift_count: n.shift_count,
            suffix_start: n.suffix_start,
        },
    }
}
