// Keys, plain: the caller's bytes and three numbers by value (ikey, shift count, suffix start), which every call judges first.
// A key that does not fit its own bytes is refused with 7, a shift that it does not allow with 8, and the numbers come back.
// The questions, the moves and what they share are passed on from the crates below; the parts of the caller's bytes are made here.
#![tactic(auto)]

ghost use Rattle.key.specs.Parts.{IsSuffix, IsData};

pub use key_layer::{Layer, Refused};
pub use key_moves::{shift, unshift, unshift_all};
pub use key_questions::{ikey, shift_count, suffix_start};
pub use keys_compares::{compare, compare_suffix};
pub use keys_lengths::{current_len, len, suffix_len};
pub use keys_made::{judge, new};
pub use keys_shift_by::shift_by;
pub use keys_told::{has_suffix, is_empty, is_shifted};

pub mod inside;

// A part of the caller's own bytes, beside the number of a refusal: 0 where nothing was refused. Refused, the part is empty.
#[derive(Clone, Copy)]
pub struct Part<'a> {
    pub refusal: u64,
    pub bytes: &'a [u8],
}

// The caller's own bytes from the suffix start on: an empty part where there is no suffix.
pub fn suffix<'a>(bytes: &'a [u8], ikey: u64, shift_count: usize, suffix_start: usize) -> Part<'a>
    ensures { IsSuffix bytes.entry ikey shift_count suffix_start result }
{
    Part {
        refusal: inside::refusal_of(bytes, ikey, shift_count, suffix_start),
        bytes: inside::suffix(bytes, ikey, shift_count, suffix_start),
    }
}

// All of the caller's own bytes.
pub fn full_data<'a>(
    bytes: &'a [u8],
    ikey: u64,
    shift_count: usize,
    suffix_start: usize,
) -> Part<'a>
    ensures { IsData bytes.entry ikey shift_count suffix_start result }
{
    Part {
        refusal: inside::refusal_of(bytes, ikey, shift_count, suffix_start),
        bytes: inside::full_data(bytes, ikey, shift_count, suffix_start),
    }
}
