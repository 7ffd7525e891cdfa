// A line read: what it asks for, and its key's bytes at the front of a lent buffer. The buffer must have room for the longest key.
ghost use Rattle.std.specs.Prelude.{◌≡◌, true, [], ◌∷◌, ◌≤◌, length};
ghost use Rattle.text.specs.Split.{split};
ghost use Rattle.text.specs.Fields.{is_key, key_in};
ghost use Rattle.text.specs.Command.{read, read_fields, framed, heard, taken};

use crate::fields;

// What a line asks for; the key stands in the buffer, here is its length.
#[derive(Clone, Copy)]
pub enum Line {
    Put { len: usize, frame: u64 },
    Find { len: usize },
    Del { len: usize },
    List,
    Bad,
}

// What a line of two fields asks for: a find or a del.
fn read_two(word: &[u8], field: &[u8], key: &mut [u8]) -> Line
    requires { (length field.now ≤ 1200) × (600 ≤ length key.old) }
    ensures { heard result key.new ≡ taken (read_fields (word.now ∷ field.now ∷ [])) key.old }
{
    if !fields::is_key(field) {
        return Line::Bad;
    }
    if fields::same(word, b"find") {
        return Line::Find {
            len: fields::key_to(field, key),
        };
    }
    if fields::same(word, b"del") {
        return Line::Del {
            len: fields::key_to(field, key),
        };
    }
    Line::Bad
}

// What a put with a good key asks for, if the last field is a frame number.
fn read_put(field: &[u8], last: &[u8], key: &mut [u8]) -> Line
    requires { (is_key field.now ≡ true) × (length field.now ≤ 1200) × (600 ≤ length key.old) }
    ensures { heard result key.new ≡ taken (framed (key_in field.now) last.now) key.old }
{
    let number = fields::frame_in(last);
    if let Some(frame) = number {
        let len = fields::key_to(field, key);
        return Line::Put { len, frame };
    }
    Line::Bad
}

// What a line of three fields asks for: a put.
fn read_three(word: &[u8], field: &[u8], last: &[u8], key: &mut [u8]) -> Line
    requires { (length field.now ≤ 1200) × (600 ≤ length key.old) }
    ensures { heard result key.new
        ≡ taken (read_fields (word.now ∷ field.now ∷ last.now ∷ [])) key.old }
{
    if !fields::same(word, b"put") || !fields::is_key(field) {
        return Line::Bad;
    }
    read_put(field, last, key)
}

// What a line of one field asks for: the list.
fn read_one(word: &[u8], key: &mut [u8]) -> Line
    ensures { heard result key.new ≡ taken (read_fields (word.now ∷ [])) key.old }
{
    if fields::same(word, b"list") {
        return Line::List;
    }
    Line::Bad
}

// What a line of at most 1,200 bytes asks for, by its fields.
fn read_fields(line: &[u8], key: &mut [u8]) -> Line
    requires { (length line.now ≤ 1200) × (600 ≤ length key.old) }
    ensures { heard result key.new ≡ taken (read_fields (split 32 line.now)) key.old }
{
    let a = crate::first(line, b' ');
    if a == line.len() {
        return read_one(line, key);
    }
    let word = &line[..a];
    let rest = &line[a + 1..];
    let b = crate::first(rest, b' ');
    if b == rest.len() {
        return read_two(word, rest, key);
    }
    let last = &rest[b + 1..];
    if crate::first(last, b' ') != last.len() {
        return Line::Bad;
    }
    read_three(word, &rest[..b], last, key)
}

// What a line asks for, without its line feed; one over 1,200 bytes is bad.
pub fn read_line(line: &[u8], key: &mut [u8]) -> Line
    requires { 600 ≤ length key.old }
    ensures { heard result key.new ≡ taken (read line.now) key.old }
{
    if 1200 < line.len() {
        return Line::Bad;
    }
    read_fields(line, key)
}
