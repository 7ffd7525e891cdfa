// The label index saved to a file as an image of checked blocks, and such a file listed.
#![tactic(auto)]

ghost use Rattle.std.specs.Prelude.{◌≤◌, length};

use std::env::{Env, FillError};
use std::io::Write;

// Says which arguments there are.
fn say_usage<E: Write>(err: &mut E) {
    let _ = err.write_all(
        b"card save FILE    answers the lines of standard input, then saves the labels to FILE\n",
    );
    let _ = err.write_all(b"card list FILE    lists the labels that were saved to FILE\n");
}

// Whether there is an argument with this number.
fn is_given<R: Env>(rt: &R, i: usize) -> bool {
    !matches!(rt.arg(i, &mut []), Err(FillError::NotPresent))
}

// Puts an argument at the front of the lent bytes, and tells its length. One that does not fit counts as empty.
fn argument<R: Env>(rt: &R, i: usize, lent: &mut [u8]) -> usize
    ensures { result ≤ length lent.new }
{
    rt.arg(i, lent).unwrap_or(0)
}

// Carries the command out. A FILE that does not fit into the buffer is no path either, and counts as empty.
fn main(rt: HostRuntime) {
    let mut err = rt.stderr();
    if !is_given(&rt, 2) || is_given(&rt, 3) {
        say_usage(&mut err);
        return;
    }
    let mut command = [0u8; 4];
    let mut path = [0u8; 65536];
    let k = argument(&rt, 1, &mut command);
    let n = argument(&rt, 2, &mut path);
    match &command[..k] {
        b"save" => card_commands::save(
            &rt,
            &mut rt.stdin(),
            &mut rt.stdout(),
            &mut err,
            &path[..n],
        ),
        b"list" => card_commands::list(&rt, &mut rt.stdout(), &mut err, &path[..n]),
        _ => say_usage(&mut err),
    }
}
