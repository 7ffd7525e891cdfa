// How many entries the index in lent memory has, as the number is stored. Nothing is walked, and no byte changes.
#![tactic(auto)]

ghost use Rattle.std.specs.Prelude.{◌≡◌};
ghost use Rattle.arena.specs.Memory.{memory};
ghost use Rattle.model.specs.Calls.{count_said};
ghost use Rattle.index_count.specs.Answers.{said_counted};

use refusal::Refusal;

// The number of entries as it is stored; refusal 10 for wrong lent lengths only.
#[tactic(auto, using(crate::proofs::Counting::counting))]
pub fn count(nodes: &[u64], cells: &[u64], bytes: &[u8]) -> Result<u64, Refusal>
    ensures { said_counted result ≡ count_said (memory nodes.now cells.now bytes.now) }
{
    arena::lengths(nodes, cells, bytes)?;
    Ok(nodes[1])
}
