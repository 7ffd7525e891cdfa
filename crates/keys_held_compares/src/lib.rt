// A key that holds its bytes against what else is passed. The plain call is passed the slice and the numbers and judges them, so nothing
// is asked of a key here, and the refusals are those of the plain call.
#![tactic(auto)]

ghost use Rattle.std.specs.Prelude.{◌≡◌};
ghost use Rattle.key_layer.specs.Keys.{Compare, CompareSuffix};
ghost use Rattle.key_layer.specs.Said.{said_compared};
ghost use Rattle.keys_held.specs.Held.{answer_of};

use key_layer::Refused;
use keys_held::Key;
use std::cmp::Ordering;

// The key against an ikey and a length, at one layer: two longer ones with equal ikeys are equal here.
pub fn compare<'a>(k: Key<'a>, other_ikey: u64, keylenx: usize) -> Result<Ordering, Refused>
    ensures { said_compared result ≡ answer_of (Compare other_ikey keylenx) k.entry }
{
    keys_compares::compare(
        k.bytes,
        k.ikey,
        k.shift_count,
        k.suffix_start,
        other_ikey,
        keylenx,
    )
}

// The key's suffix against another, byte by byte.
pub fn compare_suffix<'a, 'b>(k: Key<'a>, other: &'b [u8]) -> Result<Ordering, Refused>
    ensures { said_compared result ≡ answer_of (CompareSuffix other.now) k.entry }
{
    keys_compares::compare_suffix(k.bytes, k.ikey, k.shift_count, k.suffix_start, other)
}
