// Nodes, cells and parts of lent memory, for whoever has judged the lent lengths: passed on from the crates below.
pub use lent_nodes::inside::{
    Internode, Leaf, count_zeros, frame, free_cell, free_cells, free_node, free_nodes, key_of,
    load_internode, lowest_free_cell, lowest_free_node, lowest_zero, mark, store_cell,
    store_internode, store_leaf,
};
pub use lent_words::inside::{
    copy_bytes, copy_words, put_words, put1, words_at, zero_bytes, zero_words,
};
