// The answer to one line. What a caller must lend stands in `requires`: bytes enough for what is printed.
ghost use Rattle.std.specs.Prelude.{◌≡◌, ◌≤◌, length};
ghost use Rattle.arena.specs.Memory.{memory};
ghost use Rattle.page.specs.Page.{Typed};
ghost use Rattle.text.specs.Command.{read};
ghost use Rattle.text.specs.Command.{put as Command·put, find as Command·find, del as Command·del};
ghost use Rattle.lines_list.specs.Room.{Room};
ghost use Rattle.lines.specs.Answered.{Answered, printed};

use index::PutRefused;
use text::inside::Line;

// Puts a key and prints `ok`, without the slots that rest, or the refusal: of 14 the number alone, without the nodes lacking.
fn put(
    nodes: &mut [u64],
    cells: &mut [u64],
    bytes: &mut [u8],
    key: &[u8],
    frame: u64,
    out: &mut [u8],
) -> usize
    requires { 100 ≤ length out.old }
    ensures { Answered (memory nodes.old cells.old bytes.old)
        (Command·put key.now frame) out.old result
        (memory nodes.new cells.new bytes.new) out.new }
{
    let answer = index::put(nodes, cells, bytes, key, frame);
    match answer {
        Ok(_) => page::inside::ok(out, 0),
        Err(PutRefused::TooFewNodes(_lacking)) => page::inside::refused(out, 0, 14),
        Err(PutRefused::Refused(why)) => lines_list::inside::refused(out, why),
    }
}

// Takes a key out and prints `ok`, or the refusal.
fn del(nodes: &mut [u64], cells: &mut [u64], bytes: &mut [u8], key: &[u8], out: &mut [u8]) -> usize
    requires { 100 ≤ length out.old }
    ensures { Answered (memory nodes.old cells.old bytes.old)
        (Command·del key.now) out.old result (memory nodes.new cells.new bytes.new)
        out.new }
{
    let answer = index::remove(nodes, cells, bytes, key);
    match answer {
        Ok(()) => page::inside::ok(out, 0),
        Err(why) => lines_list::inside::refused(out, why),
    }
}

// Prints the frame number of a key, or the refusal.
fn find(nodes: &[u64], cells: &[u64], bytes: &[u8], key: &[u8], out: &mut [u8]) -> usize
    requires { 100 ≤ length out.old }
    ensures { Typed out.old 0
        (printed (memory nodes.now cells.now bytes.now) (Command·find key.now)) result
        out.new }
{
    let answer = index::find(nodes, cells, bytes, key);
    match answer {
        Ok(frame) => page::inside::number(out, 0, frame),
        Err(why) => lines_list::inside::refused(out, why),
    }
}

// Answers one line, without its line feed: carries it out, prints the answer, and tells its length.
pub fn answer(
    nodes: &mut [u64],
    cells: &mut [u64],
    bytes: &mut [u8],
    line: &[u8],
    out: &mut [u8],
) -> usize
    requires { Room (memory nodes.old cells.old bytes.old) out.old }
    ensures { Answered (memory nodes.old cells.old bytes.old) (read line.now)
        out.old result (memory nodes.new cells.new bytes.new) out.new }
{
    let mut key = [0u8; 600];
    let asked = text::inside::read_line(line, &mut key);
    match asked {
        Line::Put { len, frame } => put(nodes, cells, bytes, &key[..len], frame, out),
        Line::Find { len } => find(nodes, cells, bytes, &key[..len], out),
        Line::Del { len } => del(nodes, cells, bytes, &key[..len], out),
        Line::List => lines_list::inside::list(nodes, cells, bytes, out),
        Line::Bad => page::inside::bad_line(out, 0),
    }
}
