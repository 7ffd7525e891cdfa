// Keys for C: the caller's bytes, and where a key stands at a layer as three numbers (ikey, shift count, suffix start).
ghost use Rattle.std.specs.Prelude.{◌≡◌, [], ◌∷◌};
ghost use Rattle.order.specs.Layer.{ikey_at};
ghost use Rattle.ikey.specs.Said.{compare_keys_said};
ghost use Rattle.key_layer.specs.Keys.{new_said, shift_said, shift_by_said, unshift_said, answer_to, UnshiftAll, Compare, CompareSuffix};
ghost use Rattle.crossing.specs.Crossing.{Crossed};

use keys_crossing::{give_compared, give_made, give_moved, give_whole};

// The next eight bytes at an offset, the first one highest, zero-filled at the end.
#[unsafe(no_mangle)]
pub extern "C" fn cherchivola_read_ikey(bytes: &[u8], offset: usize) -> u64
    ensures { result ≡ ikey_at bytes.now offset }
{
    ikey::read_ikey(bytes, offset)
}

// How two whole keys stand to each other, byte by byte.
#[unsafe(no_mangle)]
pub extern "C" fn cherchivola_compare_keys(a: &[u8], b: &[u8], order: &mut u64) -> u64
    ensures { Crossed (compare_keys_said a.now b.now) result
        (order.old ∷ []) (order.new ∷ []) }
{
    give_whole(ikey::compare_keys(a, b), order)
}

// The numbers of a key at layer 0.
#[unsafe(no_mangle)]
pub extern "C" fn cherchivola_key_new(
    bytes: &[u8],
    ikey: &mut u64,
    shift_count: &mut usize,
    suffix_start: &mut usize,
) -> u64
    ensures { Crossed (new_said bytes.now) result
        (ikey.old ∷ shift_count.old ∷ suffix_start.old ∷ [])
        (ikey.new ∷ shift_count.new ∷ suffix_start.new ∷ []) }
{
    give_made(key::new(bytes), ikey, shift_count, suffix_start)
}

// The numbers of the key eight bytes further on.
#[unsafe(no_mangle)]
pub extern "C" fn cherchivola_key_shift(
    bytes: &[u8],
    ikey: &mut u64,
    shift_count: &mut usize,
    suffix_start: &mut usize,
) -> u64
    ensures { Crossed
        (shift_said bytes.now ikey.old shift_count.old suffix_start.old) result
        (ikey.old ∷ shift_count.old ∷ suffix_start.old ∷ [])
        (ikey.new ∷ shift_count.new ∷ suffix_start.new ∷ []) }
{
    give_moved(
        key::shift(bytes, *ikey, *shift_count, *suffix_start),
        ikey,
        shift_count,
        suffix_start,
    )
}

// The numbers of the key that many bytes further on: all shifts, or none.
#[unsafe(no_mangle)]
pub extern "C" fn cherchivola_key_shift_by(
    bytes: &[u8],
    ikey: &mut u64,
    shift_count: &mut usize,
    suffix_start: &mut usize,
    by: usize,
) -> u64
    ensures { Crossed
        (shift_by_said bytes.now ikey.old shift_count.old suffix_start.old by) result
        (ikey.old ∷ shift_count.old ∷ suffix_start.old ∷ [])
        (ikey.new ∷ shift_count.new ∷ suffix_start.new ∷ []) }
{
    give_moved(
        key::shift_by(bytes, *ikey, *shift_count, *suffix_start, by),
        ikey,
        shift_count,
        suffix_start,
    )
}

// The numbers of the key eight bytes back.
#[unsafe(no_mangle)]
pub extern "C" fn cherchivola_key_unshift(
    bytes: &[u8],
    ikey: &mut u64,
    shift_count: &mut usize,
    suffix_start: &mut usize,
) -> u64
    ensures { Crossed
        (unshift_said bytes.now ikey.old shift_count.old suffix_start.old) result
        (ikey.old ∷ shift_count.old ∷ suffix_start.old ∷ [])
        (ikey.new ∷ shift_count.new ∷ suffix_start.new ∷ []) }
{
    give_moved(
        key::unshift(bytes, *ikey, *shift_count, *suffix_start),
        ikey,
        shift_count,
        suffix_start,
    )
}

// The numbers of the key at layer 0 again.
#[unsafe(no_mangle)]
pub extern "C" fn cherchivola_key_unshift_all(
    bytes: &[u8],
    ikey: &mut u64,
    shift_count: &mut usize,
    suffix_start: &mut usize,
) -> u64
    ensures { Crossed
        (answer_to UnshiftAll bytes.now ikey.old shift_count.old suffix_start.old) result
        (ikey.old ∷ shift_count.old ∷ suffix_start.old ∷ [])
        (ikey.new ∷ shift_count.new ∷ suffix_start.new ∷ []) }
{
    give_moved(
        key::unshift_all(bytes, *ikey, *shift_count, *suffix_start),
        ikey,
        shift_count,
        suffix_start,
    )
}

// The key against an ikey and a length, at one layer.
#[unsafe(no_mangle)]
pub extern "C" fn cherchivola_key_compare(
    bytes: &[u8],
    ikey: u64,
    shift_count: usize,
    suffix_start: usize,
    other_ikey: u64,
    other_length: usize,
    order: &mut u64,
) -> u64
    ensures { Crossed
        (answer_to (Compare other_ikey other_length) bytes.now ikey shift_count suffix_start) result
        (order.old ∷ []) (order.new ∷ []) }
{
    give_compared(
        key::compare(
            bytes,
            ikey,
            shift_count,
            suffix_start,
            other_ikey,
            other_length,
        ),
        order,
    )
}

// The key's suffix against another, byte by byte.
#[unsafe(no_mangle)]
pub extern "C" fn cherchivola_key_compare_suffix(
    bytes: &[u8],
    ikey: u64,
    shift_count: usize,
    suffix_start: usize,
    other: &[u8],
    order: &mut u64,
) -> u64
    ensures { Crossed
        (answer_to (CompareSuffix other.now) bytes.now ikey shift_count suffix_start) result
        (order.old ∷ []) (order.new ∷ []) }
{
    give_compared(
        key::compare_suffix(bytes, ikey, shift_count, suffix_start, other),
        order,
    )
}
