// The cells of a tree listed once, and written.
ghost use Rattle.std.specs.Prelude.{◌≡◌, true};
ghost use Rattle.arena.specs.Memory.{memory};
ghost use Rattle.forest.specs.Walk.{is_tree};
ghost use Rattle.card_writer.specs.Save.{written};
ghost use Rattle.card_said.specs.Save.{entries_in};

use card_writer::Written;

// The image of a tree, or nothing where the buffer is too short.
pub fn write_all(nodes: &[u64], cells: &[u64], bytes: &[u8], out: &mut [u8]) -> Written
    requires { is_tree (memory nodes.now cells.now bytes.now) ≡ true }
    ensures { (out.new, result)
        ≡ written (entries_in (memory nodes.now cells.now bytes.now)) out.old }
{
    let mut order = [0u64; 255];
    let n = index_listed::inside::list_layer(nodes, 0, nodes[0], &mut order, 0);
    card_writer::inside::save(&order, cells, bytes, n, out)
}
