// The two commands of the program `card`: the lines of an input answered and the index saved to a file, and a saved file listed. What is
// printed goes to one writer and what is said of failures to another, which the programs make standard output and standard error.
#![tactic(auto)]

ghost use Rattle.std.specs.Prelude.{◌≡◌, length};

use lines_session::Ended;
use std::io::{Read, Write};
use std::rt::Files;

// Says that an answer could not be written.
fn say_output_failed<E: Write>(err: &mut E) {
    let _ = err.write_all(b"card: output failed\n");
}

// Prints, or says that it could not be written.
fn print<O: Write, E: Write>(to: &mut O, err: &mut E, text: &[u8]) {
    if to.write_all(text).is_err() {
        say_output_failed(err);
    }
}

// Prints that nothing was saved; the reason was said.
fn say_not_saved<O: Write, E: Write>(to: &mut O, err: &mut E) {
    print(to, err, b"not saved\n");
}

// Saves the image of an index, and prints its number of blocks. There is room for the longest image, 135 blocks of 255 entries, and what
// lines leave of a cleared index is good, so that it always has one; nothing here leans on that.
fn save_index<R: Files, O: Write, E: Write>(
    rt: &R,
    to: &mut O,
    err: &mut E,
    path: &[u8],
    nodes: &[u64],
    cells: &[u64],
    bytes: &[u8],
) {
    let mut image = [0u8; 69120];
    let n = card_lines::inside::image_of(nodes, cells, bytes, &mut image);
    if n == 0 {
        let _ = err.write_all(b"card: there is no image of these labels\n");
        say_not_saved(to, err);
        return;
    }
    if !card_files::replace(rt, err, path, &image[..512 * n]) {
        say_not_saved(to, err);
        return;
    }
    let mut out = [0u8; 100];
    let end = card_lines::inside::blocks(&mut out, n as u64);
    print(to, err, &out[..end]);
}

// Answers every line of an input, on an index of 64 nodes and 128 cells that has nothing filed at first, and saves it. Where the
// input could not be read to its end, or an answer not be written, nothing is saved.
pub fn save<R: Files, I: Read, O: Write, E: Write>(
    rt: &R,
    from: &mut I,
    to: &mut O,
    err: &mut E,
    path: &[u8],
) {
    let mut nodes = [0u64; 3010];
    let mut cells = [0u64; 256];
    let mut bytes = [0u8; 32768];
    // These lengths are right ones, so the clear is not refused.
    let _ = index::clear(&mut nodes, &mut cells, &mut bytes);
    let ended = lines_session::answer_input(from, to, &mut nodes, &mut cells, &mut bytes);
    match ended {
        Ended::Whole => save_index(rt, to, err, path, &nodes, &cells, &bytes),
        Ended::NotWritten => say_output_failed(err),
        Ended::NotRead => {
            let _ = err.write_all(b"card: input failed\n");
            say_not_saved(to, err);
        }
    }
}

// Lists the labels of an image in memory of 255 nodes and 255 cells, the most that can be lent, or prints its refusal.
fn list_image<O: Write, E: Write>(to: &mut O, err: &mut E, image: &[u8]) {
    let mut nodes = [0u64; 11987];
    let mut cells = [0u64; 510];
    let mut bytes = [0u8; 65280];
    let mut out = [0u8; 136182];
    let n = card_lines::inside::list_image(&mut nodes, &mut cells, &mut bytes, image, &mut out);
    print(to, err, &out[..n]);
}

// Zeros for the bytes of a file, fifteen times as many as the longest image has. The `ensures` gives only their number, which lending them
// as a slice needs.
fn room() -> [u8; 1048576]
    ensures { 1048576 ≡ length result }
{
    [0; 1048576]
}

// Lists the labels that were saved to a file, or says that it is not read; the reason is said. A file for which there is not
// enough room is not read.
pub fn list<R: Files, O: Write, E: Write>(rt: &R, to: &mut O, err: &mut E, path: &[u8]) {
    let mut image = room();
    let contents = card_files::read(rt, err, path, &mut image);
    if !contents.whole {
        print(to, err, b"not read\n");
        return;
    }
    let n = contents.bytes;
    list_image(to, err, &image[..n]);
}
