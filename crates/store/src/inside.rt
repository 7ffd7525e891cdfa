// What a put counts before it writes, and writes, at the place that its key has met. What a caller must know stands in `requires`: right
// lent lengths, and a place within them. That memory is a tree is not required.
ghost use Rattle.std.specs.Prelude.{◌≡◌, ◌+◌, ◌≤◌, ◌<◌, length, get_or, set};
ghost use Rattle.memory_layout.specs.Numbers.{classes_from, most_lent};
ghost use Rattle.bank.specs.Bank.{slot_at};
ghost use Rattle.arena.specs.Layout.{node_start, key_at};
ghost use Rattle.arena.specs.Free.{free_cells};
ghost use Rattle.arena.specs.Memory.{memory, node_count, cell_count};
ghost use Rattle.forest.specs.Nodes.{slots_at};
ghost use Rattle.model.specs.Meet.{number_word};
ghost use Rattle.forest.specs.Count.{count_of};
ghost use Rattle.model.specs.Calls.{needed_at, nodes_with, with_count, rests_passed};
ghost use Rattle.seek.specs.Lengths.{NodesLent, CellsLent};
ghost use Rattle.store.specs.Places.{has_cell_in, lacking_at, with_at, rests_with, Lent};

use memory_layout::{CELL_BYTES, CELL_WORDS, CLASSES, HEADER_WORDS, NODE_WORDS, REFS};
use model::Met;

// The lowest free cell, 0 where none is free.
fn lowest_cell(cells: &[u64]) -> usize
    requires { 1 ≤ cell_count (length cells.now) }
    ensures { (result ≡ get_or (free_cells cells.now (cell_count (length cells.now))) 0 0)
        × (result < cell_count (length cells.now)) }
{
    let Some(c) = arena::inside::lowest_free_cell(cells, cells.len() / CELL_WORDS) else {
        return 0;
    };
    c
}

// The key in a cell, as far as lent memory has it.
fn key_in<'a>(cells: &[u64], bytes: &'a [u8], cell: u64) -> &'a [u8]
    requires { CellsLent (length cells.now) (length bytes.now) }
    ensures { result.now ≡ key_at cells.now bytes.now cell }
{
    if (cells.len() / CELL_WORDS) as u64 <= cell {
        return &bytes[0..0];
    }
    let from = cell as usize * CELL_BYTES;
    let mark = cells[cell as usize * CELL_WORDS];
    if mark < 1 {
        return &bytes[from..from];
    }
    let room = bytes.len() - from;
    if room as u64 <= mark - 1 {
        return &bytes[from..bytes.len()];
    }
    &bytes[from..from + (mark - 1) as usize]
}

// How many nodes a put needs at the place that its key has met; 0 where the key is stored.
fn needed(nodes: &[u64], cells: &[u64], bytes: &[u8], key: &[u8], met: Met) -> usize
    requires { Lent nodes.now cells.now bytes.now met }
    ensures { result ≡ needed_at (memory nodes.now cells.now bytes.now) key.now met }
{
    match met {
        Met::Stored {
            leaf: _,
            position: _,
            cell: _,
        } => 0,
        Met::Conflict {
            leaf: _,
            position: _,
            cell,
            links,
        } => {
            let other = key_in(cells, bytes, cell);
            grow::inside::layers(key, other, links + 1)
        }
        Met::Missing {
            holder: _,
            root,
            links,
        } => {
            let height = seek::inside::height_of(nodes, root);
            let ikey = ikey::read_ikey(key, 8 * links);
            grow::inside::need(nodes, height, root, ikey)
        }
    }
}

// Whether a cell is free.
pub fn has_cell(cells: &[u64]) -> bool
    ensures { result ≡ has_cell_in cells.now }
{
    let Some(_) = arena::inside::lowest_free_cell(cells, cells.len() / CELL_WORDS) else {
        return false;
    };
    true
}

// How many nodes a put lacks at the place that its key has met; 0 where as many are free as it needs.
pub fn lacking(nodes: &[u64], cells: &[u64], bytes: &[u8], key: &[u8], met: Met) -> usize
    requires { Lent nodes.now cells.now bytes.now met }
    ensures { result ≡ lacking_at (memory nodes.now cells.now bytes.now) key.now met }
{
    let need = needed(nodes, cells, bytes, key, met);
    if need == 0 {
        return 0;
    }
    let free = arena::inside::free_nodes(nodes, nodes.len() / NODE_WORDS);
    if need <= free {
        return 0;
    }
    need - free
}

// Turns the entry at a position of a leaf into a link, and tells which word holds its number.
fn make_link(nodes: &mut [u64], leaf: u64, position: usize) -> usize
    requires { NodesLent (length nodes.old) × (leaf < node_count (length nodes.old)) × (position < 15) }
    ensures { (nodes.new ≡ set nodes.old
        (node_start leaf + classes_from + slot_at position (slots_at nodes.old leaf)) 10)
        × (result ≡ number_word nodes.old leaf position) }
{
    let at = HEADER_WORDS + leaf as usize * NODE_WORDS;
    let slot = node_words::inside::slot_of(nodes[at + 1], position);
    edit::inside::put_at(nodes, at + CLASSES + slot, 10);
    at + REFS + slot
}

// Puts the key's entry into the nodes: in its layer, or below the entry that it is in conflict with. Tells how many slots rest in the
// leaf where the entry is then.
fn put_nodes(nodes: &mut [u64], cells: &[u64], bytes: &[u8], key: &[u8], c: u64, met: Met) -> usize
    requires { Lent nodes.old cells.now bytes.now met }
    ensures { (nodes.new ≡ nodes_with (memory nodes.old cells.now bytes.now)
        key.now c met)
        × (result ≡ rests_with (memory nodes.old cells.now bytes.now) key.now c met) }
{
    let count = nodes.len() / NODE_WORDS;
    match met {
        Met::Stored {
            leaf: _,
            position: _,
            cell: _,
        } => 0,
        Met::Conflict {
            leaf,
            position,
            cell,
            links,
        } => {
            let other = key_in(cells, bytes, cell);
            let holder = make_link(nodes, leaf, position);
            grow::inside::grow_layers(nodes, count, holder, key, c, other, cell, links + 1);
            13
        }
        Met::Missing {
            holder,
            root,
            links,
        } => {
            let e = grow::inside::entry_for(key, c, links);
            grow::inside::grow_layer(nodes, count, holder, root, e)
        }
    }
}

// Puts the key's entry into the nodes, and the key with its frame number into the lowest free cell. Tells how many slots rest in the leaf
// where the entry is then.
fn put_new(
    nodes: &mut [u64],
    cells: &mut [u64],
    bytes: &mut [u8],
    key: &[u8],
    frame: u64,
    met: Met,
) -> usize
    requires { Lent nodes.old cells.old bytes.old met × (length key.now ≤ 256) }
    ensures { (memory nodes.new cells.new bytes.new
        ≡ with_at (memory nodes.old cells.old bytes.old) key.now frame met)
        × (result ≡ rests_passed (memory nodes.old cells.old bytes.old) key.now met) }
{
    let c = lowest_cell(cells);
    let resting = put_nodes(nodes, cells, bytes, key, c as u64, met);
    arena::inside::store_cell(cells, bytes, c, key, frame);
    resting
}

// The same, and one entry more is counted.
pub fn put_counted(
    nodes: &mut [u64],
    cells: &mut [u64],
    bytes: &mut [u8],
    key: &[u8],
    frame: u64,
    met: Met,
) -> usize
    requires { Lent nodes.old cells.old bytes.old met × (length key.now ≤ 256) × (get_or nodes.old 1 0 ≤ most_lent) }
    ensures { (memory nodes.new cells.new bytes.new
        ≡ with_count (with_at (memory nodes.old cells.old bytes.old) key.now frame met)
        (count_of (memory nodes.old cells.old bytes.old) + 1))
        × (result ≡ rests_passed (memory nodes.old cells.old bytes.old) key.now met) }
{
    let count = nodes[1];
    let resting = put_new(nodes, cells, bytes, key, frame, met);
    edit::inside::put_at(nodes, 1, count + 1);
    resting
}
