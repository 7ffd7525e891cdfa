// Slot words: which of the frame buffers are in use, in which order, in one u64. The width goes beside the word; a word
// goes in by value and comes back in the answer. Every call judges its width and its word, and refuses by number.
// All calls and their answers are passed on from the crates below; what they mean, the history of a word, is proved here.
#![tactic(auto)]

pub use slot_answers::{HandedOut, Refused};
pub use slot_places::{exchange, rotate, set_size, swap_free_slots};
pub use slot_questions::{back, back_at_offset, get, size};
pub use slots_insert::insert_from_back;
pub use slots_made::{empty, from_value, make_sorted};
pub use slots_remove::{insert_first_free, remove, remove_slot, remove_to_back};
