// The label index for C: each call of the library `index` on memory that the caller lends, by number.
ghost use Rattle.std.specs.Prelude.{[], ◌∷◌, length};
ghost use Rattle.arena.specs.Memory.{memory, cleared, measured};
ghost use Rattle.audit.specs.Audit.{audited};
ghost use Rattle.model.specs.Calls.{put_done, removed, find_said, kth_said, count_said};
ghost use Rattle.crossing.specs.Crossing.{Crossed};
ghost use Rattle.index_crossing.specs.Lent.{CrossedLent};
ghost use Rattle.index_crossing.specs.Both.{CrossedLentBoth};

use index_crossing::{
    give_added, give_audited, give_cleared, give_counted, give_found, give_listed, give_measured,
    give_removed,
};

// How many nodes and cells the lent slices have room for.
#[unsafe(no_mangle)]
pub extern "C" fn cherchivola_lengths(
    nodes: &[u64],
    cells: &[u64],
    bytes: &[u8],
    n: &mut usize,
    c: &mut usize,
) -> u64
    ensures { Crossed (measured (length nodes.now) (length cells.now) (length bytes.now)) result
        (n.old ∷ c.old ∷ []) (n.new ∷ c.new ∷ []) }
{
    give_measured(arena::lengths(nodes, cells, bytes), n, c)
}

// Leaves an index with no entry.
#[unsafe(no_mangle)]
pub extern "C" fn cherchivola_clear(nodes: &mut [u64], cells: &mut [u64], bytes: &mut [u8]) -> u64
    ensures { CrossedLent (cleared (memory nodes.old cells.old bytes.old)) result
        (memory nodes.new cells.new bytes.new) }
{
    give_cleared(index::clear(nodes, cells, bytes))
}

// Stores a new key with its frame number, and tells how many slots rest in its leaf; where nodes are too few, how many are lacking.
#[unsafe(no_mangle)]
pub extern "C" fn cherchivola_put(
    nodes: &mut [u64],
    cells: &mut [u64],
    bytes: &mut [u8],
    key: &[u8],
    frame: u64,
    resting: &mut usize,
    lacking: &mut u64,
) -> u64
    ensures { CrossedLentBoth
        (put_done (memory nodes.old cells.old bytes.old) key.now frame) result
        (memory nodes.new cells.new bytes.new)
        (resting.old ∷ []) (resting.new ∷ []) (lacking.old ∷ []) (lacking.new ∷ []) }
{
    give_added(
        index::put(nodes, cells, bytes, key, frame),
        resting,
        lacking,
    )
}

// Takes a key away.
#[unsafe(no_mangle)]
pub extern "C" fn cherchivola_remove_key(
    nodes: &mut [u64],
    cells: &mut [u64],
    bytes: &mut [u8],
    key: &[u8],
) -> u64
    ensures { CrossedLent
        (removed (memory nodes.old cells.old bytes.old) key.now) result
        (memory nodes.new cells.new bytes.new) }
{
    give_removed(index::remove(nodes, cells, bytes, key))
}

// The frame number stored with a key.
#[unsafe(no_mangle)]
pub extern "C" fn cherchivola_find(
    nodes: &[u64],
    cells: &[u64],
    bytes: &[u8],
    key: &[u8],
    frame: &mut u64,
) -> u64
    ensures { Crossed (find_said (memory nodes.now cells.now bytes.now) key.now) result
        (frame.old ∷ []) (frame.new ∷ []) }
{
    give_found(index::find(nodes, cells, bytes, key), frame)
}

// The k-th entry in key order: its cell, the length of its key and its frame number.
#[unsafe(no_mangle)]
pub extern "C" fn cherchivola_kth(
    nodes: &[u64],
    cells: &[u64],
    bytes: &[u8],
    k: u64,
    cell: &mut u64,
    key_length: &mut u64,
    frame: &mut u64,
) -> u64
    ensures { Crossed (kth_said (memory nodes.now cells.now bytes.now) k) result
        (cell.old ∷ key_length.old ∷ frame.old ∷ [])
        (cell.new ∷ key_length.new ∷ frame.new ∷ []) }
{
    give_listed(index::kth(nodes, cells, bytes, k), cell, key_length, frame)
}

// How many entries there are, as the number is stored.
#[unsafe(no_mangle)]
pub extern "C" fn cherchivola_count(
    nodes: &[u64],
    cells: &[u64],
    bytes: &[u8],
    count: &mut u64,
) -> u64
    ensures { Crossed (count_said (memory nodes.now cells.now bytes.now)) result
        (count.old ∷ []) (count.new ∷ []) }
{
    give_counted(index::count(nodes, cells, bytes), count)
}

// Whether lent memory is a tree by the rules.
#[unsafe(no_mangle)]
pub extern "C" fn cherchivola_audit(nodes: &[u64], cells: &[u64], bytes: &[u8]) -> u64
    ensures { Crossed (audited (memory nodes.now cells.now bytes.now)) result [] [] }
{
    give_audited(audit::audit(nodes, cells, bytes))
}
