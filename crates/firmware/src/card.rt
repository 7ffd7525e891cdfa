// The index on a card for C: its image written into a buffer that the caller lends, and read back into lent memory.
ghost use Rattle.std.specs.Prelude.{[], ◌∷◌};
ghost use Rattle.arena.specs.Memory.{memory};
ghost use Rattle.card_said.specs.Save.{save_done};
ghost use Rattle.card_said.specs.Load.{load_done};
ghost use Rattle.index_crossing.specs.Both.{CrossedLentBoth};
ghost use Rattle.card_crossing.specs.Out.{CrossedOut};

use card_crossing::{give_loaded, give_saved};

// Writes the index as an image into a lent buffer, and tells how many blocks it has.
#[unsafe(no_mangle)]
pub extern "C" fn cherchivola_save(
    nodes: &[u64],
    cells: &[u64],
    bytes: &[u8],
    out: &mut [u8],
    blocks: &mut usize,
) -> u64
    ensures { CrossedOut
        (save_done (memory nodes.now cells.now bytes.now) out.old) result
        out.new (blocks.old ∷ []) (blocks.new ∷ []) }
{
    give_saved(card_save::save(nodes, cells, bytes, out), blocks)
}

// Makes of lent memory the index whose image this is, and tells how many entries it has; refused, what the refusal tells.
#[unsafe(no_mangle)]
pub extern "C" fn cherchivola_load(
    nodes: &mut [u64],
    cells: &mut [u64],
    bytes: &mut [u8],
    image: &[u8],
    entries: &mut u64,
    told: &mut u64,
) -> u64
    ensures { CrossedLentBoth
        (load_done (memory nodes.old cells.old bytes.old) image.now) result
        (memory nodes.new cells.new bytes.new)
        (entries.old ∷ []) (entries.new ∷ []) (told.old ∷ []) (told.new ∷ []) }
{
    give_loaded(card_load::load(nodes, cells, bytes, image), entries, told)
}
