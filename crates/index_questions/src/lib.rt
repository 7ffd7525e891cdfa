// The questions to the index in lent memory: find, and the k-th entry in key order. Each judges the whole of lent memory first and changes
// no byte.
#![tactic(auto)]

mod entries;

ghost use Rattle.std.specs.Prelude.{◌≡◌};
ghost use Rattle.arena.specs.Memory.{memory};
ghost use Rattle.model.specs.Calls.{find_said, kth_said};
ghost use Rattle.index_questions.specs.Answers.{said_found, said_listed};

use memory_layout::CELL_BYTES;
use model::{Met, Reached};
use refusal::Refusal;

// The most bytes that a key has.
const LONGEST: usize = CELL_BYTES;

// The k-th entry: its cell, the length of its key, its frame number. The key's bytes are the caller's own, in that cell.
#[derive(Clone, Copy)]
pub struct Listed {
    pub cell: u64,
    pub length: u64,
    pub frame: u64,
}

// The frame number stored with a key.
pub fn find(nodes: &[u64], cells: &[u64], bytes: &[u8], key: &[u8]) -> Result<u64, Refusal>
    ensures { said_found result ≡ find_said (memory nodes.now cells.now bytes.now) key.now }
{
    if LONGEST < key.len() {
        return Err(Refusal::Key);
    }
    if !audit::is_tree(nodes, cells, bytes) {
        return Err(Refusal::Memory);
    }
    let met = seek::inside::seek(nodes, cells, bytes, key, 0, 0, nodes[0]);
    if let Met::Stored {
        leaf: _,
        position: _,
        cell,
    } = met
    {
        let frame = arena::inside::frame(cells, cell as usize);
        return Ok(frame);
    }
    Err(Refusal::Missing)
}

// The k-th entry in key order.
pub fn kth(nodes: &[u64], cells: &[u64], bytes: &[u8], k: u64) -> Result<Listed, Refusal>
    ensures { said_listed result ≡ kth_said (memory nodes.now cells.now bytes.now) k }
{
    if !audit::is_tree(nodes, cells, bytes) {
        return Err(Refusal::Memory);
    }
    let reached = seek::inside::kth_layer(nodes, 0, nodes[0], k);
    match reached {
        Reached::Here(cell) => Ok(entries::entry_at(cells, cell)),
        Reached::Beyond(_) => Err(Refusal::Missing),
    }
}
