// An internode by value: n ikeys in strictly rising order and one child more. A node goes in by value; where it is changed
// it comes back in the answer, refused as well. Every call judges its node, and refuses by number. The node, its places and what is
// inserted are passed on from the crates below.
#![tactic(auto)]

ghost use Rattle.std.specs.Prelude.{◌≡◌, ◌<◌, ◌≤◌, ℕ, true, false, List, MatchResult};
ghost use Rattle.refusal.specs.Answer.{answered, refused};
ghost use Rattle.internode.specs.Answers.{said_place, said_child, said_compared, said_inserted};
ghost use Rattle.internode.specs.Lists.{rising, inserted_at};
ghost use Rattle.internode.specs.Node.{good, keys_of};
ghost use Rattle.internode.specs.Calls.{find_said, compare_said, child_said, insert_rules, Insertable, insert_said};

pub use internode_inserts::Split;
pub use internode_places::Internode;
use refusal::Refusal;
use std::cmp::Ordering;

pub mod inside;

// A refused insertion: why, and the node as it was given.
#[derive(Clone, Copy)]
pub struct Refused {
    pub why: Refusal,
    pub node: Internode,
}

// The judgement that every call begins with.
fn judge(node: Internode) -> Result<(), Refusal>
    ensures { MatchResult result (λ _. good node ≡ true)
        (λ why. (why ≡ Refusal.Node) × (good node ≡ false)) }
{
    if !inside::is_good(node) {
        return Err(Refusal::Node);
    }
    Ok(())
}

// The first ikey not below the target, or n.
pub fn find_insert_position(node: Internode, target: u64) -> Result<usize, Refusal>
    ensures { said_place result ≡ find_said node target }
{
    judge(node)?;
    Ok(inside::insert_position(node, target))
}

// How the target stands to ikey p.
pub fn compare_key(node: Internode, target: u64, p: usize) -> Result<Ordering, Refusal>
    ensures { said_compared result ≡ compare_said node target p }
{
    judge(node)?;
    if node.n <= p {
        return Err(Refusal::Position);
    }
    Ok(ikey::compare_ikey(target, node.ikeys[p]))
}

// The child after the last ikey not above the target.
pub fn child_for(node: Internode, target: u64) -> Result<u64, Refusal>
    ensures { said_child result ≡ child_said node target }
{
    judge(node)?;
    let at = inside::child_place(node, target);
    Ok(node.children[at])
}

// Whether an ikey may go in at p; the tests in the order of document 01's table.
fn judge_insertion(node: Internode, p: usize, ikey: u64) -> Result<(), Refusal>
    ensures { MatchResult result (λ _. Insertable node p ikey)
        (λ why. (values : List ℕ) → refused why values ≡ answered (insert_rules node p ikey) values values) }
{
    judge(node)?;
    let n = node.n;
    if n < p {
        return Err(Refusal::Position);
    }
    if 15 <= n {
        return Err(Refusal::Full);
    }
    if !inside::keeps_order(node, p, ikey) {
        return Err(Refusal::Order);
    }
    Ok(())
}

// Key p and child p+1 are written, and the later ones move up.
pub fn insert_key_and_child(
    node: Internode,
    p: usize,
    ikey: u64,
    child: u64,
) -> Result<Internode, Refused>
    ensures { said_inserted result ≡ insert_said node p ikey child }
{
    if let Err(why) = judge_insertion(node, p, ikey) {
        return Err(Refused { why, node });
    }
    Ok(inside::insert(node, p, ikey, child))
}
