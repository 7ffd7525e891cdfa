// A number taken once, whether all that was not seen is free, and whether the cells that were seen are as many as memory counts. For the
// audit, which has judged the lent lengths. What a caller must know stands in `requires`.
ghost use Rattle.std.specs.Prelude.{◌≡◌, ◌&&◌, ◌*◌, ◌≤◌, ◌<◌, eqb, length};
ghost use Rattle.std.proofs.Math.Option.{some};
ghost use Rattle.arena.specs.Layout.{node_start, cell_start, key_start};
ghost use Rattle.arena.specs.Memory.{memory};
ghost use Rattle.bank.specs.Lists.{all_below};
ghost use Rattle.forest.specs.Count.{how_many};
ghost use Rattle.forest.specs.Walk.{see, walked_well};
ghost use Rattle.audit_seen.specs.Seen.{told, node_left, cell_left, cell_seen, LentAll};

// Marks a number; false if it was marked.
pub fn see_number(seen: &mut [u8], i: usize) -> bool
    requires { i < length seen.old }
    ensures { told result seen.new ≡ see i seen.old }
{
    if seen[i] != 0 {
        return false;
    }
    seen[i] = 1;
    true
}

// Whether everything that the walk has not seen is free, and memory counts as many entries as the walk has seen cells.
pub fn rest_right(
    nodes: &[u64],
    cells: &[u64],
    bytes: &[u8],
    seen: &[u8],
    n: usize,
    c: usize,
) -> bool
    requires { LentAll nodes.now cells.now bytes.now seen.now n c }
    ensures { result ≡ walked_well (memory nodes.now cells.now bytes.now) (some seen.now) }
{
    if !nodes_free(nodes, seen, n) {
        return false;
    }
    cells_right(cells, bytes, seen, c, nodes[1])
}

// Whether each of the n nodes was seen or is free.
fn nodes_free(nodes: &[u64], seen: &[u8], n: usize) -> bool
    requires { (node_start n ≤ length nodes.now) × (2 * n ≤ length seen.now) }
    ensures { result ≡ all_below n (node_left nodes.now seen.now) }
{
    // Every node below k was seen or is free.
    for k in 0..n {
        if seen[2 * k] == 1 {
            continue;
        }
        if !shape::inside::node_free(nodes, k) {
            return false;
        }
    }
    true
}

// Whether each of the c cells was seen or is free, and so many of them were seen.
fn cells_right(cells: &[u64], bytes: &[u8], seen: &[u8], c: usize, count: u64) -> bool
    requires { (cell_start c ≤ length cells.now) × (key_start c ≤ length bytes.now) × (2 * c ≤ length seen.now) }
    ensures { result ≡ all_below c (cell_left cells.now bytes.now seen.now)
        && eqb count (how_many c (cell_seen seen.now)) }
{
    let mut many: u64 = 0;
    // Every cell below k was seen or is free, and `many` of them were seen.
    for k in 0..c {
        if seen[2 * k + 1] == 1 {
            many += 1;
            continue;
        }
        if !shape::inside::cell_free(cells, bytes, k) {
            return false;
        }
    }
    count == many
}
