// Replays recorded calls on the index: prints each line that differs, and at the end how many lines there were and how many differ.
// Each line has the sum of the memory after the call, so that every word and byte is held to the plain index of tests/plain.
#![tactic(auto)]

mod line;

use memory_layout::{CELL_BYTES, CELL_WORDS, HEADER_WORDS, NODE_WORDS};
use std::io;
use std::io::{Read, Write};
use tally::Tally;

// Replays every line of the input on memory with room for 256 nodes and cells, and tells how many differ.
fn main(rt: HostRuntime) -> io::Result<()> {
    let mut from = rt.stdin();
    let mut to = rt.stdout();
    let mut nodes = [0u64; 12034];
    let mut cells = [0u64; 512];
    let mut bytes = [0u8; 65536];
    let tally = replay_all(&mut from, &mut to, &mut nodes, &mut cells, &mut bytes)?;
    tally::tell(&mut to, tally, b"lines")
}

// Replays every line. No list is so long that the count of lines ends it.
fn replay_all<R: Read, W: Write>(
    from: &mut R,
    to: &mut W,
    nodes: &mut [u64],
    cells: &mut [u64],
    bytes: &mut [u8],
) -> io::Result<Tally> {
    let mut tally = tally::none();
    let mut n: usize = 0;
    let mut c: usize = 0;
    // The last new memory has n nodes and c cells, and every line so far is counted.
    for _ in 0..u64::MAX {
        let mut text = [0u8; 570];
        if !tally::next(from, to, &mut text)? {
            break;
        }
        if line::call(&text) == b'm' {
            n = line::nodes_of(&text);
            c = line::cells_of(&text);
            wipe(nodes, cells, bytes);
            tally = tally::counted(to, tally, true, &text)?;
            continue;
        }
        let agrees = replay_call(nodes, cells, bytes, n, c, &text);
        tally = tally::counted(to, tally, agrees, &text)?;
    }
    Ok(tally)
}

// Makes all of the memory zero.
fn wipe(nodes: &mut [u64], cells: &mut [u64], bytes: &mut [u8]) {
    arena::inside::zero_words(nodes, 0, nodes.len());
    arena::inside::zero_words(cells, 0, cells.len());
    arena::inside::zero_bytes(bytes, 0, bytes.len());
}

// Replays one call on the first n nodes and c cells; whether it agrees.
fn replay_call(
    nodes: &mut [u64],
    cells: &mut [u64],
    bytes: &mut [u8],
    n: usize,
    c: usize,
    text: &[u8],
) -> bool {
    if 256 < n || 256 < c {
        return false;
    }
    let a = HEADER_WORDS + n * NODE_WORDS;
    let b = c * CELL_WORDS;
    let d = c * CELL_BYTES;
    if nodes.len() < a || cells.len() < b || bytes.len() < d {
        return false;
    }
    line::agrees(&mut nodes[0..a], &mut cells[0..b], &mut bytes[0..d], text)
}
