// The calls on a key that holds its bytes, with plain parameters: a key is made of the bytes and the numbers, and what is answered is
// handed on without the bytes.
ghost use Rattle.std.specs.Prelude.{◌≡◌};
ghost use Rattle.key_layer.specs.Keys.{answer_to, new_said, shift_said, shift_by_said, unshift_said};
ghost use Rattle.key_layer.specs.Keys.{Judge, Len, Ikey, ShiftCount, SuffixStart, CurrentLen, IsEmpty, IsShifted, HasSuffix, SuffixLen};
ghost use Rattle.key_layer.specs.Keys.{Compare, CompareSuffix, UnshiftAll};
ghost use Rattle.key_layer.specs.Said.{said_word, said_count, said_told, said_compared, said_judged};
ghost use Rattle.key.specs.Parts.{suffix_said, data_said};
ghost use Rattle.held_key.specs.Held.{numbers_in, numbers_held};

use held_key::{Key, Keyed, Numbers};
use key::{Part, Refused};
use std::cmp::Ordering;

// The length of the whole key.
pub fn len(
    bytes: &[u8],
    ikey: u64,
    shift_count: usize,
    suffix_start: usize,
) -> Result<usize, Refused>
    ensures { said_count result ≡ answer_to Len bytes.now ikey shift_count suffix_start }
{
    held_key::len(Key {
        bytes,
        ikey,
        shift_count,
        suffix_start,
    })
}

// The ikey at the key's layer.
pub fn ikey(
    bytes: &[u8],
    ikey: u64,
    shift_count: usize,
    suffix_start: usize,
) -> Result<u64, Refused>
    ensures { said_word result ≡ answer_to Ikey bytes.now ikey shift_count suffix_start }
{
    held_key::ikey(Key {
        bytes,
        ikey,
        shift_count,
        suffix_start,
    })
}

// How often the key was shifted.
pub fn shift_count(
    bytes: &[u8],
    ikey: u64,
    shift_count: usize,
    suffix_start: usize,
) -> Result<usize, Refused>
    ensures { said_count result ≡ answer_to ShiftCount bytes.now ikey shift_count suffix_start }
{
    held_key::shift_count(Key {
        bytes,
        ikey,
        shift_count,
        suffix_start,
    })
}

// Where the suffix starts, in the whole key.
pub fn suffix_start(
    bytes: &[u8],
    ikey: u64,
    shift_count: usize,
    suffix_start: usize,
) -> Result<usize, Refused>
    ensures { said_count result ≡ answer_to SuffixStart bytes.now ikey shift_count suffix_start }
{
    held_key::suffix_start(Key {
        bytes,
        ikey,
        shift_count,
        suffix_start,
    })
}

// The length from the key's layer on.
pub fn current_len(
    bytes: &[u8],
    ikey: u64,
    shift_count: usize,
    suffix_start: usize,
) -> Result<usize, Refused>
    ensures { said_count result ≡ answer_to CurrentLen bytes.now ikey shift_count suffix_start }
{
    held_key::current_len(Key {
        bytes,
        ikey,
        shift_count,
        suffix_start,
    })
}

// The length of the suffix.
pub fn suffix_len(
    bytes: &[u8],
    ikey: u64,
    shift_count: usize,
    suffix_start: usize,
) -> Result<usize, Refused>
    ensures { said_count result ≡ answer_to SuffixLen bytes.now ikey shift_count suffix_start }
{
    held_key::suffix_len(Key {
        bytes,
        ikey,
        shift_count,
        suffix_start,
    })
}

// Whether the key has no byte at all.
pub fn is_empty(
    bytes: &[u8],
    ikey: u64,
    shift_count: usize,
    suffix_start: usize,
) -> Result<bool, Refused>
    ensures { said_told result ≡ answer_to IsEmpty bytes.now ikey shift_count suffix_start }
{
    held_key::is_empty(Key {
        bytes,
        ikey,
        shift_count,
        suffix_start,
    })
}

// Whether the key was shifted.
pub fn is_shifted(
    bytes: &[u8],
    ikey: u64,
    shift_count: usize,
    suffix_start: usize,
) -> Result<bool, Refused>
    ensures { said_told result ≡ answer_to IsShifted bytes.now ikey shift_count suffix_start }
{
    held_key::is_shifted(Key {
        bytes,
        ikey,
        shift_count,
        suffix_start,
    })
}

// Whether more than eight bytes are left at the key's layer.
pub fn has_suffix(
    bytes: &[u8],
    ikey: u64,
    shift_count: usize,
    suffix_start: usize,
) -> Result<bool, Refused>
    ensures { said_told result ≡ answer_to HasSuffix bytes.now ikey shift_count suffix_start }
{
    held_key::has_suffix(Key {
        bytes,
        ikey,
        shift_count,
        suffix_start,
    })
}

// Whether the numbers fit the bytes.
pub fn judge(
    bytes: &[u8],
    ikey: u64,
    shift_count: usize,
    suffix_start: usize,
) -> Result<(), Refused>
    ensures { said_judged result ≡ answer_to Judge bytes.now ikey shift_count suffix_start }
{
    held_key::judge(Key {
        bytes,
        ikey,
        shift_count,
        suffix_start,
    })
}

// The numbers of a key beside its refusal, without the bytes.
fn numbers<'a>(k: Keyed<'a>) -> Numbers
    ensures { result ≡ numbers_held k.entry }
{
    Numbers {
        refusal: k.refusal,
        ikey: k.key.ikey,
        shift_count: k.key.shift_count,
        suffix_start: k.key.suffix_start,
    }
}

// The numbers of the key eight bytes further on.
pub fn shift(bytes: &[u8], ikey: u64, shift_count: usize, suffix_start: usize) -> Numbers
    ensures { result ≡ numbers_in (shift_said bytes.now ikey shift_count suffix_start) }
{
    numbers(held_key::shift(Key {
        bytes,
        ikey,
        shift_count,
        suffix_start,
    }))
}

// The numbers of the key eight bytes back.
pub fn unshift(bytes: &[u8], ikey: u64, shift_count: usize, suffix_start: usize) -> Numbers
    ensures { result ≡ numbers_in (unshift_said bytes.now ikey shift_count suffix_start) }
{
    numbers(held_key::unshift(Key {
        bytes,
        ikey,
        shift_count,
        suffix_start,
    }))
}

// The numbers of the key at layer 0 again.
pub fn unshift_all(bytes: &[u8], ikey: u64, shift_count: usize, suffix_start: usize) -> Numbers
    ensures { result ≡ numbers_in (answer_to UnshiftAll bytes.now ikey shift_count suffix_start) }
{
    numbers(held_key::unshift_all(Key {
        bytes,
        ikey,
        shift_count,
        suffix_start,
    }))
}

// The number beside a part: 0, or that of a refusal.
fn number<'a>(p: Part<'a>) -> u64
    ensures { result ≡ p.entry.refusal }
{
    p.refusal
}

// The bytes of a part.
fn bytes_of<'a>(p: Part<'a>) -> &'a [u8]
    ensures { result ≡ p.entry.bytes }
{
    p.bytes
}

// The number that `suffix` gives: 0, or that of its refusal.
pub fn suffix_number(bytes: &[u8], ikey: u64, shift_count: usize, suffix_start: usize) -> u64
    ensures { result ≡ (suffix_said bytes.now ikey shift_count suffix_start).number }
{
    number(held_key::suffix(Key {
        bytes,
        ikey,
        shift_count,
        suffix_start,
    }))
}

// The bytes that `suffix` hands back.
pub fn suffix<'a>(bytes: &'a [u8], ikey: u64, shift_count: usize, suffix_start: usize) -> &'a [u8]
    ensures { result.now ≡ (suffix_said bytes.now ikey shift_count suffix_start).values }
{
    bytes_of(held_key::suffix(Key {
        bytes,
        ikey,
        shift_count,
        suffix_start,
    }))
}

// The number that `full_data` gives: 0, or that of its refusal.
pub fn full_data_number(bytes: &[u8], ikey: u64, shift_count: usize, suffix_start: usize) -> u64
    ensures { result ≡ (data_said bytes.now ikey shift_count suffix_start).number }
{
    number(held_key::full_data(Key {
        bytes,
        ikey,
        shift_count,
        suffix_start,
    }))
}

// The bytes that `full_data` hands back.
pub fn full_data<'a>(
    bytes: &'a [u8],
    ikey: u64,
    shift_count: usize,
    suffix_start: usize,
) -> &'a [u8]
    ensures { result.now ≡ (data_said bytes.now ikey shift_count suffix_start).values }
{
    bytes_of(held_key::full_data(Key {
        bytes,
        ikey,
        shift_count,
        suffix_start,
    }))
}

// The numbers of a new key.
pub fn new(bytes: &[u8]) -> Numbers
    ensures { result ≡ numbers_in (new_said bytes.now) }
{
    numbers(held_key::new(bytes))
}

// The numbers of the key that many bytes further on.
pub fn shift_by(
    bytes: &[u8],
    ikey: u64,
    shift_count: usize,
    suffix_start: usize,
    by: usize,
) -> Numbers
    ensures { result ≡ numbers_in (shift_by_said bytes.now ikey shift_count suffix_start by) }
{
    numbers(held_key::shift_by(
        Key {
            bytes,
            ikey,
            shift_count,
            suffix_start,
        },
        by,
    ))
}

// How the key stands to an ikey and a length, at one layer.
pub fn compare(
    bytes: &[u8],
    ikey: u64,
    shift_count: usize,
    suffix_start: usize,
    other_ikey: u64,
    keylenx: usize,
) -> Result<Ordering, Refused>
    ensures { said_compared result ≡ answer_to (Compare other_ikey keylenx) bytes.now ikey shift_count suffix_start }
{
    held_key::compare(
        Key {
            bytes,
            ikey,
            shift_count,
            suffix_start,
        },
        other_ikey,
        keylenx,
    )
}

// How the key's suffix stands to another, byte by byte.
pub fn compare_suffix(
    bytes: &[u8],
    ikey: u64,
    shift_count: usize,
    suffix_start: usize,
    other: &[u8],
) -> Result<Ordering, Refused>
    ensures { said_compared result ≡ answer_to (CompareSuffix other.now) bytes.now ikey shift_count
        suffix_start }
{
    held_key::compare_suffix(
        Key {
            bytes,
            ikey,
            shift_count,
            suffix_start,
        },
        other,
    )
}
