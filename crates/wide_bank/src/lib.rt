// Wide banks: which of 16 to 24 frame buffers are in use, in which order, in 25 bytes: one for the size, and one for each position. The
// width goes beside the bank; a bank goes in by value and comes back in the answer. Every call judges its width and its bank, and refuses
// by number. All calls and their answers are passed on from the crates below; what they mean, the history of a bank, is proved here.
#![tactic(auto)]

pub use wide_answers::{HandedOut, Refused};
pub use wide_insert::insert_from_back;
pub use wide_made::{empty, from_bytes, make_sorted};
pub use wide_places::{exchange, rotate};
pub use wide_questions::{back, get, size};
pub use wide_remove::{insert_first_free, remove, remove_slot, remove_to_back};
