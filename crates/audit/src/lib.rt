// The audit: whether lent memory is a tree by the rules. It ends on any memory whatever, and changes no byte.
#![tactic(auto)]

ghost use Rattle.std.specs.Prelude.{◌≡◌};
ghost use Rattle.arena.specs.Memory.{memory};
ghost use Rattle.forest.specs.Walk.{is_tree};
ghost use Rattle.audit.specs.Audit.{audited, said_audited};

use refusal::Refusal;

// Refusal 10 unless memory is a tree by the rules.
pub fn audit(nodes: &[u64], cells: &[u64], bytes: &[u8]) -> Result<(), Refusal>
    ensures { said_audited result ≡ audited (memory nodes.now cells.now bytes.now) }
{
    if !is_tree(nodes, cells, bytes) {
        return Err(Refusal::Memory);
    }
    Ok(())
}

// Whether memory is a tree by the rules.
pub fn is_tree(nodes: &[u64], cells: &[u64], bytes: &[u8]) -> bool
    ensures { result ≡ is_tree (memory nodes.now cells.now bytes.now) }
{
    let Ok(fit) = arena::lengths(nodes, cells, bytes) else {
        return false;
    };
    let root = nodes[0];
    let mut seen = [0u8; 510];
    let mut above = [0u64; 32];
    if !walk::inside::walk_layer(nodes, cells, bytes, &mut seen, &mut above, 0, root) {
        return false;
    }
    audit_seen::inside::rest_right(nodes, cells, bytes, &seen, fit.nodes, fit.cells)
}
