// One recorded answer: 70 numbers of sixteen lower-case hex digits, each with a space or the line feed behind it.
ghost use Rattle.std.specs.Prelude.{true, ◌≡◌, ◌+◌, ◌≤◌, ◌<◌};

use crate::asked;
use internode::Internode;
use std::array;

// Field i of the line.
fn field(text: &[u8], i: usize) -> u64
    requires { i < 70 }
{
    hex_digits::sixteen(text, 17 * i)
}

// The node whose n is field i, and whose ikeys and children follow.
fn node_at(text: &[u8], i: usize) -> Internode
    requires { i + 32 ≤ 70 }
{
    Internode {
        n: field(text, i) as usize,
        ikeys: array::from_fn(|k| field(text, i + 1 + k)),
        children: array::from_fn(|k| field(text, i + 16 + k)),
    }
}

// Whether two nodes hold the same numbers.
fn same(a: Internode, b: Internode) -> bool
    ensures { result ≡ true → a ≡ b }
{
    a.n == b.n && a.ikeys == b.ikeys && a.children == b.children
}

// Whether the port says to the recorded call what the line says.
pub(crate) fn agrees(text: &[u8]) -> bool {
    let given = node_at(text, 6);
    let call = field(text, 0);
    let p = field(text, 2) as usize;
    let ikey = field(text, 3);
    let child = field(text, 4);
    let said = asked::ask(call, p, ikey, child, given);
    said.number == field(text, 1)
        && said.value == field(text, 5)
        && same(said.node, node_at(text, 38))
}
