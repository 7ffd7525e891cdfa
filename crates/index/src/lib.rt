// The label index in lent memory: clear, put, find, remove, the k-th entry in key order, and the count. Every call but clear and count
// judges the whole of lent memory first; a refused call leaves every word and byte as it was. All but put are passed on, each from the
// crate that proves it.
#![tactic(auto)]

ghost use Rattle.std.specs.Prelude.{◌≡◌};
ghost use Rattle.arena.specs.Memory.{memory, did};
ghost use Rattle.model.specs.Calls.{put_done};
ghost use Rattle.index.specs.Answers.{said_added};

pub use arena::clear;
pub use index_count::count;
pub use index_put::PutRefused;
pub use index_questions::{Listed, find, kth};
pub use index_remove::remove;
use memory_layout::CELL_BYTES;
use refusal::Refusal;

// The most bytes that a key has.
const LONGEST: usize = CELL_BYTES;

// Stores a new key with its frame number, and counts it.
pub fn put(
    nodes: &mut [u64],
    cells: &mut [u64],
    bytes: &mut [u8],
    key: &[u8],
    frame: u64,
) -> Result<usize, PutRefused>
    ensures { did (said_added result) (memory nodes.new cells.new bytes.new)
        ≡ put_done (memory nodes.old cells.old bytes.old) key.now frame }
{
    if LONGEST < key.len() {
        return Err(PutRefused::Refused(Refusal::Key));
    }
    if !audit::is_tree(nodes, cells, bytes) {
        return Err(PutRefused::Refused(Refusal::Memory));
    }
    index_put::inside::put_lent(nodes, cells, bytes, key, frame)
}
