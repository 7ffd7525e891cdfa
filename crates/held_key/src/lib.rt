// A key that holds the caller's bytes, and thin functions over it: each passes the slice and the numbers to the plain call of crate `key`.
// The plain call judges them, so nothing is asked of a key here, and the refusals are those of the plain call. The key itself, what tells
// of its bytes, and the comparisons are passed on from the crates below.
#![tactic(auto)]

ghost use Rattle.std.specs.Prelude.{◌≡◌};
ghost use Rattle.key_layer.specs.Keys.{Judge, Ikey, ShiftCount, CurrentLen, IsEmpty, IsShifted, HasSuffix, SuffixLen};
ghost use Rattle.key_layer.specs.Keys.{UnshiftAll, new_said, shift_said, shift_by_said, unshift_said};
ghost use Rattle.key_layer.specs.Said.{said_word, said_count, said_told, said_judged};
ghost use Rattle.keys_held.specs.Held.{keyed_of, answer_of};

use key_layer::Refused;
pub use keys_held::{Key, Keyed};
pub use keys_held_bytes::{full_data, len, suffix, suffix_start};
pub use keys_held_compares::{compare, compare_suffix};
pub use keys_moved_numbers::Numbers;

mod plain;

// Keys made and moved: the slice stays the caller's own.

// The key of these bytes, at layer 0. Refused, it holds the same slice and three zeros.
pub fn new<'a>(bytes: &'a [u8]) -> Keyed<'a>
    ensures { result ≡ keyed_of bytes.entry (new_said bytes.now) }
{
    keys_held::hold(bytes, plain::made(bytes))
}

// The key eight bytes further on.
pub fn shift<'a>(k: Key<'a>) -> Keyed<'a>
    ensures { result ≡ keyed_of k.entry.bytes
        (shift_said k.entry.bytes.now k.entry.ikey k.entry.shift_count k.entry.suffix_start) }
{
    keys_held::hold(
        k.bytes,
        keys_moved_numbers::shifted(k.bytes, k.ikey, k.shift_count, k.suffix_start),
    )
}

// The key that many bytes further on: all shifts, or none.
pub fn shift_by<'a>(k: Key<'a>, by: usize) -> Keyed<'a>
    ensures { result ≡ keyed_of k.entry.bytes
        (shift_by_said k.entry.bytes.now k.entry.ikey k.entry.shift_count k.entry.suffix_start by) }
{
    keys_held::hold(
        k.bytes,
        keys_moved_numbers::shifted_by(k.bytes, k.ikey, k.shift_count, k.suffix_start, by),
    )
}

// The key eight bytes back.
pub fn unshift<'a>(k: Key<'a>) -> Keyed<'a>
    ensures { result ≡ keyed_of k.entry.bytes
        (unshift_said k.entry.bytes.now k.entry.ikey k.entry.shift_count k.entry.suffix_start) }
{
    keys_held::hold(
        k.bytes,
        plain::unshifted(k.bytes, k.ikey, k.shift_count, k.suffix_start),
    )
}

// The key at layer 0 again.
pub fn unshift_all<'a>(k: Key<'a>) -> Keyed<'a>
    ensures { result ≡ keyed_of k.entry.bytes (answer_of UnshiftAll k.entry) }
{
    keys_held::hold(
        k.bytes,
        plain::unshifted_all(k.bytes, k.ikey, k.shift_count, k.suffix_start),
    )
}

// Questions: what the plain call answers is handed on.

// The ikey at the key's layer.
pub fn ikey<'a>(k: Key<'a>) -> Result<u64, Refused>
    ensures { said_word result ≡ answer_of Ikey k.entry }
{
    key_questions::ikey(k.bytes, k.ikey, k.shift_count, k.suffix_start)
}

// How often the key was shifted.
pub fn shift_count<'a>(k: Key<'a>) -> Result<usize, Refused>
    ensures { said_count result ≡ answer_of ShiftCount k.entry }
{
    key_questions::shift_count(k.bytes, k.ikey, k.shift_count, k.suffix_start)
}

// The length from the key's layer on.
pub fn current_len<'a>(k: Key<'a>) -> Result<usize, Refused>
    ensures { said_count result ≡ answer_of CurrentLen k.entry }
{
    keys_lengths::current_len(k.bytes, k.ikey, k.shift_count, k.suffix_start)
}

// Whether the key has no byte at all.
pub fn is_empty<'a>(k: Key<'a>) -> Result<bool, Refused>
    ensures { said_told result ≡ answer_of IsEmpty k.entry }
{
    keys_told::is_empty(k.bytes, k.ikey, k.shift_count, k.suffix_start)
}

// Whether the key was shifted.
pub fn is_shifted<'a>(k: Key<'a>) -> Result<bool, Refused>
    ensures { said_told result ≡ answer_of IsShifted k.entry }
{
    keys_told::is_shifted(k.bytes, k.ikey, k.shift_count, k.suffix_start)
}

// Whether more than eight bytes are left at the key's layer.
pub fn has_suffix<'a>(k: Key<'a>) -> Result<bool, Refused>
    ensures { said_told result ≡ answer_of HasSuffix k.entry }
{
    keys_told::has_suffix(k.bytes, k.ikey, k.shift_count, k.suffix_start)
}

// The length of the suffix.
pub fn suffix_len<'a>(k: Key<'a>) -> Result<usize, Refused>
    ensures { said_count result ≡ answer_of SuffixLen k.entry }
{
    keys_lengths::suffix_len(k.bytes, k.ikey, k.shift_count, k.suffix_start)
}

// Whether the numbers fit the bytes: what every call decides first.
pub fn judge<'a>(k: Key<'a>) -> Result<(), Refused>
    ensures { said_judged result ≡ answer_of Judge k.entry }
{
    keys_made::judge(k.bytes, k.ikey, k.shift_count, k.suffix_start)
}
