// What the plain calls say of a key that is made or taken back, as numbers alone: the refusal's number or 0, and the key's three numbers.
ghost use Rattle.std.specs.Prelude.{◌≡◌};
ghost use Rattle.key_layer.specs.Keys.{answer_to, UnshiftAll, new_said, unshift_said};
ghost use Rattle.keys_moved_numbers.specs.Numbers.{numbers_in};

use keys_moved_numbers::Numbers;

// The numbers of the key of these bytes, at layer 0.
pub fn made(bytes: &[u8]) -> Numbers
    ensures { result ≡ numbers_in (new_said bytes.now) }
{
    keys_moved_numbers::of_made(keys_made::new(bytes))
}

// The numbers of the key eight bytes back.
pub fn unshifted(bytes: &[u8], ikey: u64, shift_count: usize, suffix_start: usize) -> Numbers
    ensures { result ≡ numbers_in (unshift_said bytes.now ikey shift_count suffix_start) }
{
    keys_moved_numbers::of_moved(key_moves::unshift(bytes, ikey, shift_count, suffix_start))
}

// The numbers of the key at layer 0 again.
pub fn unshifted_all(bytes: &[u8], ikey: u64, shift_count: usize, suffix_start: usize) -> Numbers
    ensures { result ≡ numbers_in (answer_to UnshiftAll bytes.now ikey shift_count suffix_start) }
{
    keys_moved_numbers::of_moved(key_moves::unshift_all(bytes, ikey, shift_count, suffix_start))
}
