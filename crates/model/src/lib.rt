// What each call of the index answers and leaves in lent memory, as definitions over its words and bytes. The program's own are
// these kinds of answer on the way.
#![tactic(auto)]

// Where a key is: in a leaf, at a position, with its cell; or another key stands there that is longer too; or nothing does, in
// the layer of this root, whose number stands in the word `holder`.
#[derive(Clone, Copy)]
pub enum Met {
    Stored {
        leaf: u64,
        position: usize,
        cell: u64,
    },
    Conflict {
        leaf: u64,
        position: usize,
        cell: u64,
        links: usize,
    },
    Missing {
        holder: usize,
        root: u64,
        links: usize,
    },
}

// The k-th cell, or how many more there are to go.
#[derive(Clone, Copy)]
pub enum Reached {
    Here(u64),
    Beyond(u64),
}

// What became of a node: it is one node still, or a right half with this first ikey stands in another.
#[derive(Clone, Copy)]
pub enum Grown {
    One,
    Two { ikey: u64, node: u64 },
}

// What became of a node that an entry more went into, and how many slots rest in the leaf where that entry is now.
#[derive(Clone, Copy)]
pub struct Landed {
    pub grown: Grown,
    pub resting: usize,
}
