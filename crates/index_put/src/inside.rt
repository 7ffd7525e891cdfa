// Put without the audit. What a caller must know stands in `requires`: right lent lengths, and a key of 256 bytes at most. That memory is
// a tree is not required; where it is, this is put.
ghost use Rattle.std.specs.Prelude.{◌≡◌, true, ◌≤◌, length};
ghost use Rattle.memory_layout.specs.Numbers.{cell_bytes};
ghost use Rattle.arena.specs.Memory.{memory, did, right_lengths};
ghost use Rattle.model.specs.Calls.{put_lent};
ghost use Rattle.index_put.specs.Answers.{said_added};

use crate::PutRefused;
use memory_layout::MOST_LENT;
use model::Met;
use refusal::Refusal;

// Stores a new key with its frame number, and counts it. Of what stands in memory the count alone is judged, so that it can grow.
pub fn put_lent(
    nodes: &mut [u64],
    cells: &mut [u64],
    bytes: &mut [u8],
    key: &[u8],
    frame: u64,
) -> Result<usize, PutRefused>
    requires { (right_lengths (length nodes.old) (length cells.old) (length bytes.old) ≡ true) × (length key.now ≤ cell_bytes) }
    ensures { did (said_added result) (memory nodes.new cells.new bytes.new)
        ≡ put_lent (memory nodes.old cells.old bytes.old) key.now frame }
{
    if (MOST_LENT as u64) < nodes[1] {
        return Err(PutRefused::Refused(Refusal::Memory));
    }
    let met = seek::inside::seek(nodes, cells, bytes, key, 0, 0, nodes[0]);
    if let Met::Stored {
        leaf: _,
        position: _,
        cell: _,
    } = met
    {
        return Err(PutRefused::Refused(Refusal::Stored));
    }
    if !store::inside::has_cell(cells) {
        return Err(PutRefused::Refused(Refusal::Room));
    }
    let lacking = store::inside::lacking(nodes, cells, bytes, key, met);
    if 0 < lacking {
        return Err(PutRefused::TooFewNodes(lacking as u64));
    }
    let resting = store::inside::put_counted(nodes, cells, bytes, key, frame, met);
    Ok(resting)
}
