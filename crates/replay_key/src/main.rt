// Replays a recorded sample of what the Rust's Key answers, and says where this repository's keys answer otherwise. Standard input
// is a list of records of 64 bytes; oracle/key/README.md says what is in one.
#![tactic(auto)]

mod answers;
mod asked;
mod held;
mod record;

use std::io;

// Replays every record. No list is so long that the count of cases ends it.
fn main(rt: HostRuntime) -> io::Result<()> {
    let mut from = rt.stdin();
    let mut to = rt.stdout();
    let mut tally = tally::none();
    while tally.answers < u64::MAX {
        let mut rec = [0u8; 64];
        if !tally::next(&mut from, &mut to, &mut rec)? {
            break;
        }
        tally = tally::counted(&mut to, tally, record::agrees(&rec), b"\n")?;
    }
    tally::tell(&mut to, tally, b"cases")
}
