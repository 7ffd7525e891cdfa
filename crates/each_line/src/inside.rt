// The lines of an input answered one after another. Where a write fails nothing more is read and answered. What a caller must lend
// stands in `requires`: bytes enough for the longest answer, and for as much of a line as is kept.
ghost use Rattle.std.specs.Prelude.{true, false, ◌≡◌, ◌≤◌, length, take};
ghost use Rattle.std.specs.Io.KnownBytes.{Appends};
ghost use Rattle.arena.specs.Memory.{memory};
ghost use Rattle.text.specs.Command.{read};
ghost use Rattle.line_input.specs.Input.{unless_empty};
ghost use Rattle.lines.specs.Answered.{left, printed};
ghost use Rattle.each_line.specs.Parts.{left_by, lines_here, PartDone};
ghost use Rattle.each_line.specs.Written.{printed_by};

use std::io::Write;

// How many bytes are kept of a line that has not ended, how many lines were answered, and whether the last write failed.
#[derive(Clone, Copy)]
pub struct Done {
    pub kept: usize,
    pub answered: usize,
    pub failed: bool,
}

// Answers one line, writes the answer, and says whether that was possible.
fn answer<W: Write>(
    to: &mut W,
    nodes: &mut [u64],
    cells: &mut [u64],
    bytes: &mut [u8],
    line: &[u8],
    out: &mut [u8],
) -> bool
    requires { 136182 ≤ length out.old }
    ensures leaves { memory nodes.new cells.new bytes.new
        ≡ left (memory nodes.old cells.old bytes.old) (read line.now) }
    ensures written { result ≡ true → Appends (W.contents to.old) (W.contents to.new)
        (printed (memory nodes.old cells.old bytes.old) (read line.now)) }
{
    let n = lines::inside::answer(nodes, cells, bytes, line, out);
    to.write_all(&out[..n]).is_ok()
}

// Answers every line that ends in this part of the input, up to the first that cannot be written. So many bytes are kept of the line
// that goes on in this part; of one that does not end in it they are kept again.
pub fn answer_part<W: Write>(
    to: &mut W,
    nodes: &mut [u64],
    cells: &mut [u64],
    bytes: &mut [u8],
    part: &[u8],
    line: &mut [u8],
    kept: usize,
    out: &mut [u8],
) -> Done
    requires { (kept ≤ 1201) × (1201 ≤ length line.old) × (136182 ≤ length out.old) }
    ensures kept_bound { result.kept ≤ 1201 }
    ensures part_done { PartDone (memory nodes.old cells.old bytes.old)
        (take kept line.old) part.now result.answered result.failed
        (memory nodes.new cells.new bytes.new) (take result.kept line.new) }
    ensures written { result.failed ≡ false → Appends (W.contents to.old) (W.contents to.new)
        (printed_by (memory nodes.old cells.old bytes.old)
        (take result.answered (lines_here (take kept line.old) part.now))) }
{
    let mut from = 0;
    let mut held = kept;
    let mut answered = 0;
    // All lines that end before `from` are answered and written; `held` bytes are kept of the line that goes on there.
    while from < part.len() {
        let taken = line_input::inside::take_line(&part[from..], line, held);
        from += taken.used;
        held = taken.kept;
        if taken.ended {
            answered += 1;
            if !answer(to, nodes, cells, bytes, &line[..held], out) {
                return Done {
                    kept: 0,
                    answered,
                    failed: true,
                };
            }
            held = 0;
            continue;
        }
    }
    Done {
        kept: held,
        answered,
        failed: false,
    }
}

// Answers what is kept when the input has ended: a line too, unless it is empty. Says whether the answer was written.
pub fn answer_last<W: Write>(
    to: &mut W,
    nodes: &mut [u64],
    cells: &mut [u64],
    bytes: &mut [u8],
    line: &[u8],
    kept: usize,
    out: &mut [u8],
) -> bool
    requires { (kept ≤ length line.now) × (136182 ≤ length out.old) }
    ensures leaves { memory nodes.new cells.new bytes.new
        ≡ left_by (memory nodes.old cells.old bytes.old)
        (unless_empty (take kept line.now)) }
    ensures written { result ≡ true → Appends (W.contents to.old) (W.contents to.new)
        (printed_by (memory nodes.old cells.old bytes.old)
        (unless_empty (take kept line.now))) }
{
    if 0 < kept {
        return answer(to, nodes, cells, bytes, &line[..kept], out);
    }
    true
}
