// Replays recorded verdicts on damaged memories through the audit: prints each line that differs, and at the end how many verdicts
// there were and how many differ. tests/README.md says how the list was made.
#![tactic(auto)]

mod line;
mod pace;

use line::Lengths;
use std::io;
use std::io::{Read, Write};
use tally::Tally;

// Replays every line of the input on memory with room for 256 nodes and cells, and tells how many verdicts differ.
fn main(rt: HostRuntime) -> io::Result<()> {
    let mut from = rt.stdin();
    let mut to = rt.stdout();
    let mut nodes = [0u64; 12034];
    let mut cells = [0u64; 512];
    let mut bytes = [0u8; 65536];
    let tally = replay_all(&mut from, &mut to, &mut nodes, &mut cells, &mut bytes)?;
    tally::tell(&mut to, tally, b"verdicts")
}

// Replays every line. No list is so long that the count of lines ends it.
fn replay_all<R: Read, W: Write>(
    from: &mut R,
    to: &mut W,
    nodes: &mut [u64],
    cells: &mut [u64],
    bytes: &mut [u8],
) -> io::Result<Tally> {
    let mut tally = tally::none();
    let mut lengths = Lengths {
        nodes: 0,
        cells: 0,
        bytes: 0,
    };
    // `lengths` is what the last new memory has.
    for _ in 0..u64::MAX {
        let mut text = [0u8; 28];
        if !tally::next(from, to, &mut text)? {
            break;
        }
        if line::operation(&text) == b'm' {
            lengths = line::room_for(&text);
            wipe(nodes, cells, bytes);
            continue;
        }
        tally = replay_line(to, nodes, cells, bytes, lengths, &text, tally)?;
    }
    Ok(tally)
}

// All of the memory becomes zero.
fn wipe(nodes: &mut [u64], cells: &mut [u64], bytes: &mut [u8]) {
    arena::inside::zero_words(nodes, 0, nodes.len());
    arena::inside::zero_words(cells, 0, cells.len());
    arena::inside::zero_bytes(bytes, 0, bytes.len());
}

// Replays one line but a new memory.
fn replay_line<W: Write>(
    to: &mut W,
    nodes: &mut [u64],
    cells: &mut [u64],
    bytes: &mut [u8],
    lengths: Lengths,
    text: &[u8],
    tally: Tally,
) -> io::Result<Tally> {
    if obeyed(to, nodes, cells, bytes, lengths, text)? {
        return Ok(tally);
    }
    let agrees = agrees(nodes, cells, bytes, lengths, text);
    tally::counted(to, tally, agrees, text)
}

// A line that asks for no verdict is carried out; says whether it was one.
fn obeyed<W: Write>(
    to: &mut W,
    nodes: &mut [u64],
    cells: &mut [u64],
    bytes: &mut [u8],
    lengths: Lengths,
    text: &[u8],
) -> io::Result<bool> {
    let operation = line::operation(text);
    if operation == b's' {
        line::change(nodes, cells, bytes, text);
        return Ok(true);
    }
    if operation == b'a' {
        let number = line::measured(nodes, cells, bytes, lengths, text);
        writeln!(to, "{number}")?;
        return Ok(true);
    }
    Ok(false)
}

// Whether the audit gives the recorded verdict: on other lent lengths, on one word or byte changed, or on the memory as it is.
fn agrees(
    nodes: &mut [u64],
    cells: &mut [u64],
    bytes: &mut [u8],
    lengths: Lengths,
    text: &[u8],
) -> bool {
    let operation = line::operation(text);
    if operation == b'l' {
        return line::agrees(nodes, cells, bytes, line::lent(text), text);
    }
    if operation == b't' {
        let old = line::change(nodes, cells, bytes, text);
        let same = line::agrees(nodes, cells, bytes, lengths, text);
        line::undo(nodes, cells, bytes, text, old);
        return same;
    }
    line::agrees(nodes, cells, bytes, lengths, text)
}
