// The steps of the calls on an internode, and the split that the index asks for, passed on from the crates below.
pub use internode_inserts::inside::{insert, part, shift_from, split_insert};
pub use internode_places::inside::{child_place, insert_position, is_good, keeps_order};
