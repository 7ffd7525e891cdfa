// Remove, a change of the label index in lent memory: it judges the whole of lent memory first, and where it is refused every word and
// byte is as it was.
#![tactic(auto)]

ghost use Rattle.std.specs.Prelude.{◌≡◌, ◌-◌, ◌≤◌, ◌<◌, length, get_or, set};
ghost use Rattle.memory_layout.specs.Numbers.{most_lent, most_node_words};
ghost use Rattle.arena.specs.Memory.{memory, did};
ghost use Rattle.model.specs.Leaves.{entry_taken};
ghost use Rattle.model.specs.Calls.{removed};
ghost use Rattle.index_remove.specs.Answers.{said_removed};

use memory_layout::CELL_BYTES;
use model::Met;
use refusal::Refusal;

// The most bytes that a key has.
const LONGEST: usize = CELL_BYTES;

// The most links on the way to a key.
const MOST_LINKS: usize = 31;

// Takes the entry at a position of a leaf away, and counts one less.
fn take_counted(nodes: &mut [u64], leaf: usize, position: usize)
    requires { (length nodes.old ≤ most_node_words) × (leaf < most_lent) × (position < 15) × (1 < length nodes.old) }
    ensures { nodes.new ≡ set (entry_taken nodes.old leaf position) 1 (get_or nodes.old 1 0 - 1) }
{
    let less = one_less(nodes[1]);
    edit::inside::take_entry(nodes, leaf, position);
    edit::inside::put_at(nodes, 1, less);
}

// One less; 0 where it is 0.
fn one_less(n: u64) -> u64
    ensures { result ≡ n - 1 }
{
    if n < 1 {
        return 0;
    }
    n - 1
}

// Takes a key away: its entry goes, its cell is free again, one entry less is counted, and layers that this leaves empty are given back.
pub fn remove(
    nodes: &mut [u64],
    cells: &mut [u64],
    bytes: &mut [u8],
    key: &[u8],
) -> Result<(), Refusal>
    ensures { did (said_removed result) (memory nodes.new cells.new bytes.new)
        ≡ removed (memory nodes.old cells.old bytes.old) key.now }
{
    if LONGEST < key.len() {
        return Err(Refusal::Key);
    }
    if !audit::is_tree(nodes, cells, bytes) {
        return Err(Refusal::Memory);
    }
    let met = seek::inside::seek(nodes, cells, bytes, key, 0, 0, nodes[0]);
    if let Met::Stored {
        leaf,
        position,
        cell,
    } = met
    {
        take_counted(nodes, leaf as usize, position);
        arena::inside::free_cell(cells, bytes, cell as usize);
        index_empty_layers::inside::give_back(nodes, cells, bytes, key, MOST_LINKS);
        return Ok(());
    }
    Err(Refusal::Missing)
}
