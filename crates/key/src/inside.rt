// What neighbours that hold a key's numbers share with the calls on keys, passed on from the crates below.
pub use key_layer::inside::left;
pub use keys_fit::is_fit;
pub use keys_parts::inside::{full_data, refusal_of, suffix};
