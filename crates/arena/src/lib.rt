// The lent memory of the index as a whole, as docs/LAYOUT.md has it: its lengths, and `clear`. Nodes, cells and what is free are
// passed on from the crate below.
#![tactic(auto)]

pub mod inside;

ghost use Rattle.std.specs.Prelude.{◌≡◌, length};
ghost use Rattle.arena.specs.Memory.{memory, did, measured, cleared, said_measured, said_cleared};

use inside::Leaf;
use memory_layout::{CELL_BYTES, CELL_WORDS, HEADER_WORDS, MOST_LENT, NODE_WORDS};
use refusal::Refusal;

// The slot word of an empty leaf, width 15.
const EMPTY: u64 = 0x0123_4567_89AB_CDE0;

// How many nodes and cells fit into the lent slices.
#[derive(Clone, Copy)]
pub struct Fit {
    pub nodes: usize,
    pub cells: usize,
}

// How many nodes and cells the lent slices have room for; refusal 10 where their lengths are wrong.
pub fn lengths(nodes: &[u64], cells: &[u64], bytes: &[u8]) -> Result<Fit, Refusal>
    ensures { said_measured result ≡ measured (length nodes.now) (length cells.now) (length bytes.now) }
{
    measure(nodes.len(), cells.len(), bytes.len())
}

// The same by the three lengths alone.
pub fn measure(nodes: usize, cells: usize, bytes: usize) -> Result<Fit, Refusal>
    ensures { said_measured result ≡ measured nodes cells bytes }
{
    if nodes < 49 {
        return Err(Refusal::Memory);
    }
    let n = (nodes - HEADER_WORDS) / NODE_WORDS;
    if MOST_LENT < n || nodes != HEADER_WORDS + n * NODE_WORDS {
        return Err(Refusal::Memory);
    }
    let c = cells / CELL_WORDS;
    if c < 1 || MOST_LENT < c || cells != c * CELL_WORDS || bytes != c * CELL_BYTES {
        return Err(Refusal::Memory);
    }
    Ok(Fit { nodes: n, cells: c })
}

// Leaves node 0, an empty leaf, as root, and everything else zero.
#[tactic(auto, using(crate::proofs::Clears::clearing))]
pub fn clear(nodes: &mut [u64], cells: &mut [u64], bytes: &mut [u8]) -> Result<(), Refusal>
    ensures { did (said_cleared result) (memory nodes.new cells.new bytes.new)
        ≡ cleared (memory nodes.old cells.old bytes.old) }
{
    lengths(nodes, cells, bytes)?;
    inside::zero_words(nodes, 0, nodes.len());
    inside::zero_words(cells, 0, cells.len());
    inside::zero_bytes(bytes, 0, bytes.len());
    inside::store_leaf(
        nodes,
        0,
        Leaf {
            word: EMPTY,
            ikeys: [0u64; 15],
            classes: [0u64; 15],
            refs: [0u64; 15],
        },
    );
    Ok(())
}
