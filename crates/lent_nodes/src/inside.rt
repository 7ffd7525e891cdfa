// Nodes and cells of lent memory by value, for whoever has judged the lent lengths. What a caller must know stands in
// `requires`.
ghost use Rattle.std.specs.Prelude.{◌≡◌, List, ℕ, ◌+◌, ◌-◌, ◌*◌, ◌≤◌, ◌<◌, length};
ghost use Rattle.lent_words.specs.Parts.{part};
ghost use Rattle.lent_nodes.specs.Layout.{node_start, node_end, cell_start, cell_end, key_start, key_end, internode_at, put_leaf};
ghost use Rattle.lent_nodes.specs.Layout.{put_internode, freed_node, mark_at, frame_at, put_cell, put_key, freed_cell, freed_key};
ghost use Rattle.lent_nodes.specs.Free.{frees, every, free_nodes, free_cells, lowest};

use lent_words::inside::{copy_bytes, put_words, put1, words_at, zero_bytes, zero_words};
use memory_layout::{
    CELL_BYTES, CELL_WORDS, CHILDREN, CLASSES, HEADER_WORDS, IKEYS, INTERNODE, LEAF, NODE_WORDS,
    REFS,
};

// A leaf: its slot word, and three columns by slot.
#[derive(Clone, Copy)]
pub struct Leaf {
    pub word: u64,
    pub ikeys: [u64; 15],
    pub classes: [u64; 15],
    pub refs: [u64; 15],
}

// An internode: how many ikeys, the ikeys, and the children.
#[derive(Clone, Copy)]
pub struct Internode {
    pub n: u64,
    pub ikeys: [u64; 15],
    pub children: [u64; 16],
}

// ---- nodes

// Writes a leaf to node k: its kind, its slot word and its three columns.
pub fn store_leaf(nodes: &mut [u64], k: usize, leaf: Leaf)
    requires { node_end k ≤ length nodes.old }
    ensures { nodes.new ≡ put_leaf nodes.old k leaf }
{
    let at = HEADER_WORDS + k * NODE_WORDS;
    put1(nodes, at, LEAF);
    put1(nodes, at + 1, leaf.word);
    put_words(nodes, at + IKEYS, &leaf.ikeys);
    put_words(nodes, at + CLASSES, &leaf.classes);
    put_words(nodes, at + REFS, &leaf.refs);
}

// Internode k by value.
pub fn load_internode(nodes: &[u64], k: usize) -> Internode
    requires { node_end k ≤ length nodes.now }
    ensures { result ≡ internode_at nodes.now k }
{
    let at = HEADER_WORDS + k * NODE_WORDS;
    let n = nodes[at + 1];
    let ikeys = words_at::<15>(nodes, at + IKEYS);
    let children = words_at::<16>(nodes, at + CHILDREN);
    Internode { n, ikeys, children }
}

// Writes an internode to node k, with zeros behind the children.
pub fn store_internode(nodes: &mut [u64], k: usize, x: Internode)
    requires { node_end k ≤ length nodes.old }
    ensures { nodes.new ≡ put_internode nodes.old k x }
{
    let at = HEADER_WORDS + k * NODE_WORDS;
    put1(nodes, at, INTERNODE);
    put1(nodes, at + 1, x.n);
    put_words(nodes, at + IKEYS, &x.ikeys);
    put_words(nodes, at + CHILDREN, &x.children);
    zero_words(nodes, at + 33, 14);
}

// Makes node k free: all its words are zero.
pub fn free_node(nodes: &mut [u64], k: usize)
    requires { node_end k ≤ length nodes.old }
    ensures { nodes.new ≡ freed_node nodes.old k }
{
    zero_words(nodes, HEADER_WORDS + k * NODE_WORDS, NODE_WORDS);
}

// ---- cells

// The key's length plus 1, or 0 where the cell is free.
pub fn mark(cells: &[u64], k: usize) -> u64
    requires { cell_end k ≤ length cells.now }
    ensures { result ≡ mark_at cells.now k }
{
    cells[k * CELL_WORDS]
}

// The frame number in cell k.
pub fn frame(cells: &[u64], k: usize) -> u64
    requires { cell_end k ≤ length cells.now }
    ensures { result ≡ frame_at cells.now k }
{
    cells[k * CELL_WORDS + 1]
}

// Writes a key and its frame number to cell k, with zeros behind the key.
pub fn store_cell(cells: &mut [u64], bytes: &mut [u8], k: usize, key: &[u8], frame: u64)
    requires { (cell_end k ≤ length cells.old) × (key_end k ≤ length bytes.old) × (length key.now ≤ 256) }
    ensures { (cells.new ≡ put_cell cells.old k (length key.now) frame)
        × (bytes.new ≡ put_key bytes.old k key.now) }
{
    let len = key.len();
    put1(cells, k * CELL_WORDS, len as u64 + 1);
    put1(cells, k * CELL_WORDS + 1, frame);
    copy_bytes(key, 0, bytes, k * CELL_BYTES, len);
    zero_bytes(bytes, k * CELL_BYTES + len, CELL_BYTES - len);
}

// Makes cell k free: its words and bytes are zero.
pub fn free_cell(cells: &mut [u64], bytes: &mut [u8], k: usize)
    requires { (cell_end k ≤ length cells.old) × (key_end k ≤ length bytes.old) }
    ensures { (cells.new ≡ freed_cell cells.old k) × (bytes.new ≡ freed_key bytes.old k) }
{
    zero_words(cells, k * CELL_WORDS, CELL_WORDS);
    zero_bytes(bytes, k * CELL_BYTES, CELL_BYTES);
}

// The key's bytes in cell k: a part of the lent bytes.
pub fn key_of<'a>(bytes: &'a [u8], k: usize, len: usize) -> &'a [u8]
    requires { (key_end k ≤ length bytes.now) × (len ≤ 256) }
    ensures { result.now ≡ part bytes.now (key_start k) len }
{
    &bytes[k * CELL_BYTES..k * CELL_BYTES + len]
}

// ---- what is free

// The lowest k below n with a 0 at start + k * step.
pub fn lowest_zero(words: &[u64], start: usize, step: usize, n: usize) -> Option<usize>
    requires { (0 < step) × (every start step n ≤ length words.now) }
    ensures { result ≡ lowest (frees (every start step) words.now n) }
{
    // No k below i has a 0 there.
    for i in 0..n {
        if words[start + i * step] == 0 {
            return Some(i);
        }
    }
    None
}

// How many k below n have a 0 at start + k * step.
pub fn count_zeros(words: &[u64], start: usize, step: usize, n: usize) -> usize
    requires { (0 < step) × (every start step n ≤ length words.now) }
    ensures { result ≡ length (frees (every start step) words.now n) }
{
    let mut found = 0;
    // `found` of the first i have a 0.
    for i in 0..n {
        if words[start + i * step] == 0 {
            found += 1;
        }
    }
    found
}

// The lowest free number of n nodes.
pub fn lowest_free_node(nodes: &[u64], n: usize) -> Option<usize>
    requires { node_start n ≤ length nodes.now }
    ensures { result ≡ lowest (free_nodes nodes.now n) }
{
    lowest_zero(nodes, HEADER_WORDS, NODE_WORDS, n)
}

// How many of n nodes are free.
pub fn free_nodes(nodes: &[u64], n: usize) -> usize
    requires { node_start n ≤ length nodes.now }
    ensures { result ≡ length (free_nodes nodes.now n) }
{
    count_zeros(nodes, HEADER_WORDS, NODE_WORDS, n)
}

// The lowest free number of n cells.
pub fn lowest_free_cell(cells: &[u64], n: usize) -> Option<usize>
    requires { cell_start n ≤ length cells.now }
    ensures { result ≡ lowest (free_cells cells.now n) }
{
    lowest_zero(cells, 0, CELL_WORDS, n)
}

// How many of n cells are free.
pub fn free_cells(cells: &[u64], n: usize) -> usize
    requires { cell_start n ≤ length cells.now }
    ensures { result ≡ length (free_cells cells.now n) }
{
    count_zeros(cells, 0, CELL_WORDS, n)
}
