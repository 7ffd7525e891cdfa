// The index saved as an image: one walk lists its cells in key order, and the writer takes them from there.
#![tactic(auto)]

pub mod inside;

ghost use Rattle.std.specs.Prelude.{◌≡◌};
ghost use Rattle.arena.specs.Memory.{memory};
ghost use Rattle.card_said.specs.Save.{save_done};
ghost use Rattle.card_save.specs.Answers.{said_saved};

use card_writer::Written;
use refusal::Refusal;

// What saving answers.
#[derive(Clone, Copy)]
pub enum Saved {
    // so many blocks
    Blocks(usize),
    // 18: the buffer is too short
    Short,
    // 10: wrong lent lengths, or memory is no tree
    Refused(Refusal),
}

// Writes the image of the index. Bytes behind the last block stay; refused, all of them do. The index is only read.
pub fn save(nodes: &[u64], cells: &[u64], bytes: &[u8], out: &mut [u8]) -> Saved
    ensures { (out.new, said_saved result)
        ≡ save_done (memory nodes.now cells.now bytes.now) out.old }
{
    if !audit::is_tree(nodes, cells, bytes) {
        return Saved::Refused(Refusal::Memory);
    }
    let written = inside::write_all(nodes, cells, bytes, out);
    match written {
        Written::Blocks(n) => Saved::Blocks(n),
        Written::Short => Saved::Short,
    }
}
