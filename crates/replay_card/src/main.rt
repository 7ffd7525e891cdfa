// Replays recorded calls that save an index and load an image: prints each line that differs, and at the end how many calls there were and
// how many differ. Each call has the sum of all that was lent to it, so that every word and byte is held to the plain index and the plain
// image of tests/plain.
#![tactic(auto)]

mod calls;
mod line;
mod rooms;

use std::io;
use std::io::{Read, Write};
use tally::Tally;

// Replays every line of the input: on memory with room for 256 nodes and cells, a card of 140 blocks, and as much room for what is written.
fn main(rt: HostRuntime) -> io::Result<()> {
    let mut from = rt.stdin();
    let mut to = rt.stdout();
    let mut nodes = [0u64; 12034];
    let mut cells = [0u64; 512];
    let mut bytes = [0u8; 65536];
    let mut card = [0u8; 71680];
    let mut out = [0u8; 71680];
    let tally = replay_all(
        &mut from, &mut to, &mut nodes, &mut cells, &mut bytes, &mut card, &mut out,
    )?;
    tally::tell(&mut to, tally, b"calls")
}

// Replays every line. No list is so long that the count of lines ends it.
fn replay_all<R: Read, W: Write>(
    from: &mut R,
    to: &mut W,
    nodes: &mut [u64],
    cells: &mut [u64],
    bytes: &mut [u8],
    card: &mut [u8],
    out: &mut [u8],
) -> io::Result<Tally> {
    let mut tally = tally::none();
    let mut lines: u64 = 0;
    // `lines` lines are carried out, and every call among them is counted.
    while lines < u64::MAX {
        let mut text = [0u8; 156];
        if !tally::next(from, to, &mut text)? {
            break;
        }
        lines += 1;
        tally = replay_line(to, nodes, cells, bytes, card, out, &text, tally)?;
    }
    Ok(tally)
}

// Carries one line out; a call is counted.
fn replay_line<W: Write>(
    to: &mut W,
    nodes: &mut [u64],
    cells: &mut [u64],
    bytes: &mut [u8],
    card: &mut [u8],
    out: &mut [u8],
    text: &[u8],
    tally: Tally,
) -> io::Result<Tally> {
    if rooms::written(nodes, cells, bytes, card, out, text) {
        return Ok(tally);
    }
    let agrees = replay_call(nodes, cells, bytes, card, out, text);
    tally::counted(to, tally, agrees, text)
}

// Makes one call on as much of the memory as the line lends; whether it agrees.
fn replay_call(
    nodes: &mut [u64],
    cells: &mut [u64],
    bytes: &mut [u8],
    card: &[u8],
    out: &mut [u8],
    text: &[u8],
) -> bool {
    let a = line::nodes(text);
    let b = line::cells(text);
    let d = line::bytes(text);
    if nodes.len() < a {
        return false;
    }
    if cells.len() < b {
        return false;
    }
    if bytes.len() < d {
        return false;
    }
    calls::agrees(
        &mut nodes[0..a],
        &mut cells[0..b],
        &mut bytes[0..d],
        card,
        out,
        text,
    )
}
