// Layers of lent memory with an entry more, where nodes enough are free. What a caller must know stands in `requires`; what only a
// tree has is not required.
ghost use Rattle.std.specs.Prelude.{◌≡◌, [], ◌∷◌, ◌+◌, ◌-◌, ◌≤◌, length, take};
ghost use Rattle.memory_layout.specs.Numbers.{most_node_words};
ghost use Rattle.arena.specs.Layout.{node_start, node_end, put_leaf};
ghost use Rattle.model.specs.Leaves.{leaf_with};
ghost use Rattle.model.specs.Needed.{split_too, need_in, both_go_on, layers_of};
ghost use Rattle.model.specs.Grow.{entry_for, entries_in_order, link_for, both_put, layers_grown};

pub use index_grow_layer::inside::grow_layer;
pub use index_grow_node::inside::grow_node;
use leaf::Entry;
use leaf::inside::size_of;
use memory_layout::{HEADER_WORDS, NODE_WORDS, REFS};
use node_words::inside::word_of;

// ---- what is needed

// How many nodes an entry more takes in a layer: one for each full node from the leaf upward, and one for a new root if all are full.
pub fn need(nodes: &[u64], height: usize, root: u64, ikey: u64) -> usize
    requires { (length nodes.now ≤ most_node_words) × (height ≤ 255) }
    ensures { result ≡ need_in nodes.now height root ikey 1 }
{
    let mut n = root;
    let mut h = height;
    let mut taken: usize = 1;
    // If n is split, `taken` more nodes are needed: one for each full node right above it, and a new root where those reach the root.
    while 0 < h {
        taken = split_too(word_of(nodes, n, 1), taken);
        n = seek::inside::child_for(nodes, n, ikey);
        h -= 1;
    }
    split_too(size_of(word_of(nodes, n, 1)) as u64, taken)
}

// The nodes needed so far if a node of this size is split too: one more where it is full, else none.
fn split_too(size: u64, taken: usize) -> usize
    requires { taken ≤ 1000 }
    ensures { result ≡ split_too size taken }
{
    if size < 15 {
        return 0;
    }
    taken + 1
}

// How many layers a conflict makes, from a layer on.
pub fn layers(key: &[u8], other: &[u8], links: usize) -> usize
    requires { links ≤ 32 }
    ensures { result ≡ layers_of (31 - links) key.now other.now links }
{
    let mut made: usize = 1;
    let mut at = links;
    // Both keys go on alike in the layers before `at`, so that `made` layers are made, the one at `at` among them.
    while at < 31 {
        if !both_go_on(key, other, at) {
            return made;
        }
        made += 1;
        at += 1;
    }
    made
}

// Whether both keys have the same ikey at a layer, and are longer.
pub fn both_go_on(key: &[u8], other: &[u8], links: usize) -> bool
    requires { links ≤ 32 }
    ensures { result ≡ both_go_on key.now other.now links }
{
    if key.len() <= 8 * links + 8 {
        return false;
    }
    if other.len() <= 8 * links + 8 {
        return false;
    }
    ikey::read_ikey(key, 8 * links) == ikey::read_ikey(other, 8 * links)
}

// ---- a conflict

// The entry of a key with its cell, at a layer.
pub fn entry_for(key: &[u8], cell: u64, links: usize) -> Entry
    requires { links ≤ 32 }
    ensures { result ≡ entry_for key.now cell links }
{
    let left = shape::inside::left_behind(key.len(), 8 * links);
    let ikey = ikey::read_ikey(key, 8 * links);
    let class = shape::inside::class_of(left);
    Entry {
        ikey,
        class,
        at: cell,
    }
}

// Two entries in order, in the first two places.
fn two_of(a: Entry, b: Entry) -> [Entry; 16]
    ensures { take 2 result ≡ entries_in_order a b }
{
    let mut all = [a; 16];
    if leaf::inside::is_less(a, b) {
        all[1] = b;
        return all;
    }
    all[0] = b;
    all
}

// Writes a leaf with one link to node k; the number of the layer below is filled in later.
fn put_link(nodes: &mut [u64], k: usize, key: &[u8], links: usize)
    requires { (node_end k ≤ length nodes.old) × (links ≤ 32) }
    ensures { nodes.new ≡ put_leaf nodes.old k (leaf_with (link_for key.now links ∷ [])) }
{
    let link = Entry {
        ikey: ikey::read_ikey(key, 8 * links),
        class: 10,
        at: 0,
    };
    let leaf = edit::inside::leaf_of([link; 16], 0, 1);
    arena::inside::store_leaf(nodes, k, leaf);
}

// Writes a leaf with the entries of two keys to node k.
fn put_both(
    nodes: &mut [u64],
    k: usize,
    key: &[u8],
    cell: u64,
    other: &[u8],
    other_cell: u64,
    links: usize,
)
    requires { (node_end k ≤ length nodes.old) × (links ≤ 32) }
    ensures { nodes.new ≡ both_put nodes.old k (record { key = key.entry.now; cell = cell })
        (record { key = other.now; cell = other_cell }) links }
{
    let two = two_of(
        entry_for(key, cell, links),
        entry_for(other, other_cell, links),
    );
    let leaf = edit::inside::leaf_of(two, 0, 2);
    arena::inside::store_leaf(nodes, k, leaf);
}

// Makes the layers of a conflict, from a layer on; the number of the first goes into the word `holder`.
pub fn grow_layers(
    nodes: &mut [u64],
    count: usize,
    holder: usize,
    key: &[u8],
    cell: u64,
    other: &[u8],
    other_cell: u64,
    links: usize,
)
    requires { (node_start count ≡ length nodes.old) × (1 ≤ count) × (count ≤ 255) × (links ≤ 32) }
    ensures { nodes.new ≡ layers_grown (31 - links) nodes.old count holder
        (record { key = key.entry.now; cell = cell }) (record { key = other.now; cell = other_cell }) links }
{
    let k = edit::inside::lowest(nodes, count);
    edit::inside::put_at(nodes, holder, k as u64);
    if 31 <= links {
        put_both(nodes, k, key, cell, other, other_cell, links);
        return;
    }
    if !both_go_on(key, other, links) {
        put_both(nodes, k, key, cell, other, other_cell, links);
        return;
    }
    put_link(nodes, k, key, links);
    grow_layers(
        nodes,
        count,
        HEADER_WORDS + k * NODE_WORDS + REFS,
        key,
        cell,
        other,
        other_cell,
        links + 1,
    );
}
