// The parts of the caller's bytes. No enum holds a slice, so the number of the refusal is asked for by itself.
ghost use Rattle.std.specs.Prelude.{◌≡◌, []};
ghost use Rattle.key_layer.specs.Keys.{asked, suffix_from, data_from, IsTail};

use refusal::Refusal;

// The number of a key's refusal: 0 where it fits.
pub fn refusal_of(bytes: &[u8], ikey: u64, shift_count: usize, suffix_start: usize) -> u64
    ensures { result ≡ (asked bytes.now ikey shift_count suffix_start []).number }
{
    if !keys_fit::is_fit(bytes, ikey, shift_count, suffix_start) {
        return refusal::number(Refusal::Key);
    }
    0
}

// The caller's own bytes from suffix_start on: an empty part where there is no suffix, and where the key does not fit.
pub fn suffix<'a>(bytes: &'a [u8], ikey: u64, shift_count: usize, suffix_start: usize) -> &'a [u8]
    ensures { IsTail bytes.entry (suffix_from bytes.now ikey shift_count suffix_start) result }
{
    if keys_fit::is_fit(bytes, ikey, shift_count, suffix_start) {
        return &bytes[suffix_start..];
    }
    let n = bytes.len();
    &bytes[n..]
}

// All of the caller's own bytes: an empty part where the key does not fit.
pub fn full_data<'a>(
    bytes: &'a [u8],
    ikey: u64,
    shift_count: usize,
    suffix_start: usize,
) -> &'a [u8]
    ensures { IsTail bytes.entry (data_from bytes.now ikey shift_count suffix_start) result }
{
    if keys_fit::is_fit(bytes, ikey, shift_count, suffix_start) {
        return &bytes[0..];
    }
    let end = bytes.len();
    &bytes[end..]
}
