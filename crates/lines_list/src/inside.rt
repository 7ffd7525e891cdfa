// The listing of an index: how many entries there are, and a line for each. What a caller must lend stands in `requires`: bytes enough for
// what is printed.
ghost use Rattle.std.specs.Prelude.{◌≡◌, true, ◌+◌, ◌*◌, ◌≤◌, length};
ghost use Rattle.refusal.specs.Refusals.{number_of};
ghost use Rattle.arena.specs.Parts.{part};
ghost use Rattle.arena.specs.Memory.{memory};
ghost use Rattle.forest.specs.Walk.{is_tree};
ghost use Rattle.model.specs.Calls.{in_key_order};
ghost use Rattle.page.specs.Page.{Typed};
ghost use Rattle.page.specs.Shown.{refused_line};
ghost use Rattle.lines_said.specs.Said.{listed, entry_texts};
ghost use Rattle.lines_list.specs.Room.{Room};

use memory_layout::CELL_BYTES;
use refusal::Refusal;

// Prints `refused` and the number of the refusal.
pub fn refused(out: &mut [u8], why: Refusal) -> usize
    requires { 100 ≤ length out.old }
    ensures { Typed out.old 0 (refused_line (number_of why)) result out.new }
{
    page::inside::refused(out, 0, refusal::number(why))
}

// How many entries a tree has: it counts them.
fn count(nodes: &[u64], cells: &[u64], bytes: &[u8]) -> u64
    requires { is_tree (memory nodes.now cells.now bytes.now) ≡ true }
    ensures { result ≡ length (in_key_order (memory nodes.now cells.now bytes.now)) }
{
    nodes[1]
}

// The part of the bytes that a cell's key takes up.
fn key_in<'a>(bytes: &'a [u8], cell: u64, length: u64) -> &'a [u8]
    ensures { result.now ≡ part bytes.now (cell * 256) length }
{
    let all = bytes.len();
    if all as u64 / 256 < cell {
        return &bytes[all..all];
    }
    let from = cell as usize * CELL_BYTES;
    if ((all - from) as u64) < length {
        return &bytes[from..all];
    }
    &bytes[from..from + length as usize]
}

// Prints a line for each of n entries, in key order, from a place on.
fn entries(nodes: &[u64], cells: &[u64], bytes: &[u8], n: u64, out: &mut [u8], at: usize) -> usize
    requires bytes_value { is_tree (memory nodes.now cells.now bytes.now) ≡ true }
    requires n_value { n ≡ length (in_key_order (memory nodes.now cells.now bytes.now)) }
    requires bytes_in_bounds { at + length (entry_texts (memory nodes.now cells.now bytes.now)
        (in_key_order (memory nodes.now cells.now bytes.now))) ≤ length out.old }
    ensures { Typed out.old at
        (entry_texts (memory nodes.now cells.now bytes.now)
        (in_key_order (memory nodes.now cells.now bytes.now))) result out.new }
{
    let mut next = at;
    // The lines of the first k entries are printed, up to the place `next`.
    for k in 0..n {
        let Ok(entry) = index_questions::kth(nodes, cells, bytes, k) else {
            return next;
        };
        let key = key_in(bytes, entry.cell, entry.length);
        next = page::inside::entry(out, next, key, entry.frame);
    }
    next
}

// Prints how many entries there are, as memory counts them, and a line for each; or the refusal.
pub fn list(nodes: &[u64], cells: &[u64], bytes: &[u8], out: &mut [u8]) -> usize
    requires { Room (memory nodes.now cells.now bytes.now) out.old }
    ensures { Typed out.old 0 (listed (memory nodes.now cells.now bytes.now)) result
        out.new }
{
    if !audit::is_tree(nodes, cells, bytes) {
        return refused(out, Refusal::Memory);
    }
    let n = count(nodes, cells, bytes);
    let next = page::inside::header(out, 0, n);
    entries(nodes, cells, bytes, n, out, next)
}
