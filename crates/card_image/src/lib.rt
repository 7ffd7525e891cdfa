// An image of the index: saved, and read back. Both calls are passed on, each from the crate that proves it.
#![tactic(auto)]

pub use card_load::{Loaded, load};
pub use card_save::{Saved, save};
