// The numbers of docs/LAYOUT.md, by name. Contracts have the same ones from specs/Numbers.antt.
#![tactic(auto)]

// The words before node 0.
pub const HEADER_WORDS: usize = 2;

// The words of a node.
pub const NODE_WORDS: usize = 47;

// The first word of a node says what it is.
pub const LEAF: u64 = 1;

pub const INTERNODE: u64 = 2;

// Where the fifteen ikeys of a node begin, from its first word on.
pub const IKEYS: usize = 2;

// Where the classes of a leaf begin.
pub const CLASSES: usize = 17;

// Where the cells and nodes that a leaf refers to begin.
pub const REFS: usize = 32;

// Where the children of an internode begin.
pub const CHILDREN: usize = 17;

// The words of a cell.
pub const CELL_WORDS: usize = 2;

// The bytes of a cell: as many as the longest key has.
pub const CELL_BYTES: usize = ikey::LONGEST;

// The most nodes, and the most cells.
pub const MOST_LENT: usize = 255;
