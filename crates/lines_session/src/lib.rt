// A whole session: an input read to its end, and every line of it answered.
#![tactic(auto)]

use std::io::{Read, Write};

// How the answers to an input end.
#[derive(Clone, Copy)]
pub enum Ended {
    // every line is answered, and every answer is written
    Whole,
    // an answer could not be written, and no line behind it is answered
    NotWritten,
    // the input could not be read on; what came before is answered and written
    NotRead,
}

// Reads an input part by part, and answers and writes each line of it. No input is so long that the count of parts ends it.
pub fn answer_input<R: Read, W: Write>(
    from: &mut R,
    to: &mut W,
    nodes: &mut [u64],
    cells: &mut [u64],
    bytes: &mut [u8],
) -> Ended {
    let mut line = [0u8; 1201];
    let mut out = [0u8; 136182];
    let mut part = [0u8; 65536];
    let mut kept = 0;
    let mut parts: u64 = 0;
    let mut readable = true;
    // Of the line that has not ended the first `kept` bytes stand in `line`, 1,201 at most.
    while parts < u64::MAX {
        let got = from.read(&mut part);
        readable = got.is_ok();
        let n = got.unwrap_or(0);
        if n == 0 {
            break;
        }
        let done = each_line::inside::answer_part(
            to,
            nodes,
            cells,
            bytes,
            &part[..n],
            &mut line,
            kept,
            &mut out,
        );
        if done.failed {
            return Ended::NotWritten;
        }
        kept = done.kept;
        parts += 1;
    }
    if !each_line::inside::answer_last(to, nodes, cells, bytes, &line, kept, &mut out) {
        return Ended::NotWritten;
    }
    if !readable {
        return Ended::NotRead;
    }
    Ended::Whole
}
