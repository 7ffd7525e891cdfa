// Files by name: one read to its end, and one replaced by another as a whole. Where that fails the reason is said to a writer, which the
// programs make standard error. What cannot be said there is not said.
#![tactic(auto)]

ghost use Rattle.std.specs.Prelude.{true, false, ◌≡◌, ◌+◌, ◌-◌, [], ◌++◌, ◌<◌, ◌≤◌, length, slice_index, take};
ghost use Rattle.std.specs.Io.KnownBytes.{Consumes, IsAtEnd};
ghost use Rattle.page.specs.Page.{Typed};
ghost use Rattle.card_files.specs.Counts.{IsPrefixLen};
ghost use Rattle.card_files.specs.Names.{filled_in, low_digits, to_be_filled, IsFilledIn, IsNewName};

use std::fs::{File, OpenFile, OpenOptions};
use std::io::{Cursor, ErrorKind, Read, Write};
use std::os::unix::fs::OpenOptionsExt;
use std::rt::Files;
use std::{fs, io, str};

// Whether a file was read to its end, and how many bytes of it stand at the front of the lent ones.
#[derive(Clone, Copy)]
pub struct Contents {
    pub whole: bool,
    pub bytes: usize,
}

// A file that was not read.
fn nothing() -> Contents
    ensures { (result.bytes ≡ 0) × (result.whole ≡ false) }
{
    Contents {
        whole: false,
        bytes: 0,
    }
}

// ---- what is said of a failure

// Says of a file what stands behind its name.
fn say<E: Write>(err: &mut E, path: &[u8], what: &str) {
    let _ = err.write_all(path);
    let _ = err.write_all(what.as_bytes());
    let _ = err.write_all(b"\n");
}

// The reason of an error in words: without the number of the system's error, which std puts behind them.
fn words(text: &str) -> &str {
    match text.rsplit_once(" (os error ") {
        Some((words, _)) => words,
        None => text,
    }
}

// Says of a file why a call failed.
fn fail<E: Write>(err: &mut E, path: &[u8], error: io::Error) {
    let mut text = Cursor::new([0u8; 128]);
    let _ = write!(text, ": {error}");
    let n = text.position().min(128) as usize;
    let all = text.into_inner();
    match str::from_utf8(&all[..n]) {
        Ok(text) => say(err, path, words(text)),
        Err(_) => say(err, path, ""),
    }
}

// ---- reading

// Whether there is nothing more to be read from a file of which as much was read as was lent.
fn ends<F: Read, E: Write>(file: &mut F, err: &mut E, path: &[u8]) -> bool
    ensures { result ≡ true → Consumes (F.remaining file.old) (F.remaining file.new) [] × IsAtEnd (F.remaining file.new) }
{
    let mut more = [0u8; 1];
    match file.read(&mut more) {
        Ok(0) => true,
        Ok(_) => {
            say(err, path, ": longer than any image");
            false
        }
        Err(error) => {
            fail(err, path, error);
            false
        }
    }
}

// Reads an open file to its end, as far as the lent bytes reach.
fn read_on<F: Read, E: Write>(file: &mut F, err: &mut E, path: &[u8], lent: &mut [u8]) -> Contents
    ensures prefix_len { IsPrefixLen result.bytes lent.new }
    ensures whole { result.whole ≡ true → Consumes (F.remaining file.old) (F.remaining file.new) (take result.bytes lent.new) }
    ensures end { result.whole ≡ true → IsAtEnd (F.remaining file.new) }
{
    let mut done = 0;
    // The first `done` bytes of the file stand at the front of the lent ones.
    while done < lent.len() {
        match file.read(&mut lent[done..]) {
            Ok(0) => {
                return Contents {
                    whole: true,
                    bytes: done,
                };
            }
            Ok(n) => done += n,
            Err(error) => {
                fail(err, path, error);
                return nothing();
            }
        }
    }
    Contents {
        whole: ends(file, err, path),
        bytes: done,
    }
}

// Reads the file of this name to its end. A name that is no text, which std cannot open, is said to be none.
pub fn read<R: Files, E: Write>(rt: &R, err: &mut E, path: &[u8], lent: &mut [u8]) -> Contents
    ensures { IsPrefixLen result.bytes lent.new }
{
    let Ok(name) = str::from_utf8(path) else {
        say(err, path, ": the name of the file is no text");
        return nothing();
    };
    match File::open(rt, name) {
        Ok(mut file) => read_on(&mut file, err, path, lent),
        Err(error) => {
            fail(err, path, error);
            nothing()
        }
    }
}

// ---- replacing

// Writes the name of the new file, with letters behind the dot that are to be filled in, and tells its length.
fn new_name(path: &[u8], name: &mut [u8; 4096]) -> usize
    requires { length path.now ≤ 4088 }
    ensures typed { Typed name.old 0 (path.now ++ to_be_filled) result name.new }
    ensures prefix_len { IsPrefixLen result name.new }
{
    let next = page::inside::append(name, 0, path);
    page::inside::append(name, next, b".XXXXXX")
}

// Writes the last digits of a number, so many of them.
fn digits(name: &mut [u8], at: usize, count: usize, n: u32) -> usize
    requires { at + count ≤ length name.old }
    ensures { Typed name.old at (low_digits count n) result name.new }
{
    if count == 0 {
        return at;
    }
    let next = digits(name, at, count - 1, n / 10);
    page::inside::append_byte(name, next, b'0' + (n % 10) as u8)
}

// Fills six digits of a number in for the letters of a new file's name.
fn fill_in(path: &str, name: &mut [u8], n: u32)
    requires { IsNewName path.now name.old }
    ensures named { name.new ≡ path.now ++ filled_in n }
    ensures again { IsNewName path.now name.new }
{
    digits(name, path.len() + 1, 6, n);
}

// Makes a new file under a name with a number filled in, the first of a million that no file has.
fn make<R: Files>(rt: &R, path: &str, name: &mut [u8]) -> io::Result<R::File>
    requires { IsNewName path.now name.old }
    ensures { IsFilledIn path.now name.new }
{
    let mut how = OpenOptions::new();
    how.read(true).write(true).create_new(true).mode(0o600);
    let mut n: u32 = 0;
    fill_in(path, name, n);
    // All names with a number below n are taken.
    while n < 999999 {
        match how.open(rt, str::from_utf8(name).unwrap()) {
            Err(error) if error.kind() == ErrorKind::AlreadyExists => {
                n += 1;
                fill_in(path, name, n);
            }
            made => return made,
        }
    }
    how.open(rt, str::from_utf8(name).unwrap())
}

// Writes all bytes to an open file, waits until they have reached its device, and closes it.
fn fill<F: Write + OpenFile + Drop, E: Write>(
    mut file: F,
    err: &mut E,
    path: &str,
    bytes: &[u8],
) -> bool {
    if let Err(error) = file.write_all(bytes) {
        fail(err, path.as_bytes(), error);
        return false;
    }
    if let Err(error) = file.sync_all() {
        fail(err, path.as_bytes(), error);
        return false;
    }
    true
}

// Gives a filled file the name of the one that it replaces.
fn rename<R: Files, E: Write>(rt: &R, err: &mut E, name: &str, path: &str) -> bool {
    if let Err(error) = fs::rename(rt, name, path) {
        fail(err, path.as_bytes(), error);
        return false;
    }
    true
}

// How many bytes of a path name the folder that the file is in, with the slash behind it.
fn folder(path: &[u8]) -> usize
    ensures prefix_len { IsPrefixLen result path.now }
    ensures behind_slash { 0 < result → slice_index path.now (result - 1) ≡ 47 }
{
    let mut n = 0;
    let mut i = 0;
    // Behind the last slash of the first i bytes stands what begins at n.
    while i < path.len() {
        if path[i] == b'/' {
            i += 1;
            n = i;
            continue;
        }
        i += 1;
    }
    n
}

// Waits until the new name has reached the device too. Where a file system does not do that for folders, the name gets there by itself.
fn settle<R: Files>(rt: &R, path: &str) {
    let n = folder(path.as_bytes());
    let opened = if n == 0 {
        File::open(rt, ".")
    } else {
        File::open(rt, &path[..n])
    };
    if let Ok(folder) = opened {
        let _ = folder.sync_all();
    }
}

// Makes a new file under a name that is to be filled in, with these bytes, and gives it the name of the one that it replaces. Where that is
// not possible the new file is removed.
fn put_beside<R: Files, E: Write>(
    rt: &R,
    err: &mut E,
    name: &mut [u8],
    path: &str,
    bytes: &[u8],
) -> bool
    requires { IsNewName path.now name.old }
    ensures { IsFilledIn path.now name.new }
{
    let file = match make(rt, path, name) {
        Ok(file) => file,
        Err(error) => {
            fail(err, path.as_bytes(), error);
            return false;
        }
    };
    let name = str::from_utf8(name).unwrap();
    if fill(file, err, path, bytes) && rename(rt, err, name, path) {
        settle(rt, path);
        return true;
    }
    let _ = fs::remove_file(rt, name);
    false
}

// Puts these bytes in the place of the file of this name, or makes it: they go into a new file beside it, and only once that is whole and
// on its device it gets the name. Says whether that was possible; where it was not, the file of this name is as it was. A name that is no
// text, under which std makes no file, is said to be none.
pub fn replace<R: Files, E: Write>(rt: &R, err: &mut E, path: &[u8], bytes: &[u8]) -> bool {
    if 4088 < path.len() {
        let _ = err.write_all(b"card: the name of the file is too long\n");
        return false;
    }
    let Ok(text) = str::from_utf8(path) else {
        say(err, path, ": the name of the file is no text");
        return false;
    };
    let mut name = [0u8; 4096];
    let n = new_name(path, &mut name);
    put_beside(rt, err, &mut name[..n], text, bytes)
}
