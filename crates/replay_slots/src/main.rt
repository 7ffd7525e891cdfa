// Replays the recorded answers on standard input through the library `permuter`: prints each line that differs, and at
// the end how many answers there were and how many differ. oracle/README.md says how the list was made.
#![tactic(auto)]

mod asked;
mod line;

use std::io;

// Replays every line. No list is so long that the count of answers ends it.
fn main(rt: HostRuntime) -> io::Result<()> {
    let mut from = rt.stdin();
    let mut to = rt.stdout();
    let mut tally = tally::none();
    for _ in 0..u64::MAX {
        let mut text = [0u8; 101];
        if !tally::next(&mut from, &mut to, &mut text)? {
            break;
        }
        tally = tally::counted(&mut to, tally, line::agrees(&text), &text)?;
    }
    tally::tell(&mut to, tally, b"answers")
}
