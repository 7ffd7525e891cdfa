// The label index on standard input and output: a line in, its answer out. It has 64 nodes and 128 cells. It ends with its input, or at
// the first answer that cannot be written.
#![tactic(auto)]

use lines_session::Ended;
use std::io;

// Answers every line of the input; says so on standard error where an answer could not be written.
fn main(rt: HostRuntime) -> io::Result<()> {
    let mut from = rt.stdin();
    let mut to = rt.stdout();
    let mut nodes = [0u64; 3010];
    let mut cells = [0u64; 256];
    let mut bytes = [0u8; 32768];
    // These lengths are right ones, so the clear is not refused.
    let _ = index::clear(&mut nodes, &mut cells, &mut bytes);
    let ended = lines_session::answer_input(&mut from, &mut to, &mut nodes, &mut cells, &mut bytes);
    if let Ended::NotWritten = ended {
        eprintln!(rt; "cherchivola: output failed")?;
    }
    Ok(())
}
