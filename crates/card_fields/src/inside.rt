// One byte taken, and any number of bytes. What a caller must know stands in `requires`: lent rooms of 256 bytes, and a machine whose
// numbers are small.
ghost use Rattle.std.specs.Prelude.{◌≡◌, ◌+◌, ◌*◌, ◌-◌, ◌^◌, ◌≤◌, ◌<◌, length, set};
ghost use Rattle.card_stream.specs.Cuts.{arrived};
ghost use Rattle.card_block.specs.Words.{little_endian};
ghost use Rattle.card_fields.specs.Step.{begin, at_first, halt, comes, giving, above_last};
ghost use Rattle.card_fields.specs.Step.{names, counts, measures, fills, whole_of, step};
ghost use Rattle.card_fields.specs.Fits.{Fits};

use crate::{Fields, Stage};
use std::cmp::Ordering;

// The first byte of a field is to come.
fn started(
    stage: Stage,
    place: usize,
    need: usize,
    left: usize,
    zeros: usize,
    last: usize,
) -> Fields
    ensures { result ≡ begin stage place need left zeros last }
{
    Fields {
        stage,
        place,
        held: 0,
        need,
        left,
        zeros,
        last,
        got: false,
        frame: 0,
    }
}

// The machine before the first byte.
pub fn at_first() -> Fields
    ensures { result ≡ at_first }
{
    started(Stage::Counting, 0, 4, 0, 0, 0)
}

// A wrong part starts here.
fn stopped(place: usize) -> Fields
    ensures { result ≡ halt place }
{
    started(Stage::Stopped, place, 0, 0, 0, 0)
}

// So many entries are to come, or the fill.
fn to_come(n: usize, place: usize, last: usize) -> Fields
    requires { place ≤ 90000 }
    ensures { result ≡ comes n place last }
{
    if n == 0 {
        let full = 504 * ((place + 503) / 504);
        return started(Stage::Filling, place, 1, 0, full - place, last);
    }
    started(Stage::Measuring, place, 2, n - 1, 0, last)
}

// The number of entries has come.
fn counted(n: usize, place: usize) -> Fields
    requires { place ≤ 80000 }
    ensures { result ≡ counts n place }
{
    if 255 < n {
        return stopped(place);
    }
    to_come(n, place + 4, 0)
}

// A byte of the fill has come.
fn filled(byte: u8, place: usize, zeros: usize, last: usize) -> Fields
    requires { place ≤ 80000 }
    ensures { result ≡ fills byte place zeros last }
{
    if byte == 0 {
        if zeros == 0 {
            return stopped(place);
        }
        return started(Stage::Filling, place + 1, 1, 0, zeros - 1, last);
    }
    stopped(place)
}

// Whether a name is above the last key.
fn is_above(key: &[u8], last: usize, name: &[u8]) -> bool
    requires { last ≤ length key.now + 1 }
    ensures { result ≡ above_last key.now last name.now }
{
    if last == 0 {
        return true;
    }
    let n = last - 1;
    match ikey::inside::compare_parts(&key[0..n], name) {
        Ordering::Less => true,
        Ordering::Equal => false,
        Ordering::Greater => false,
    }
}

// A key has come.
fn named(field: &[u8], key: &mut [u8], left: usize, last: usize, place: usize, len: usize) -> Fields
    requires { (length field.now ≡ 256) × (length key.old ≡ 256) × (len ≤ 256) × (last ≤ 257) × (place ≤ 90000) }
    ensures { (key.new, result) ≡ names field.now key.old left last place len }
{
    if is_above(key, last, &field[0..len]) {
        lent_words::inside::copy_bytes(field, 0, key, 0, len);
        return started(Stage::Framing, place + len, 8, left, 0, len + 1);
    }
    stopped(place)
}

// The length of a key has come.
fn measured(
    field: &[u8],
    key: &mut [u8],
    left: usize,
    last: usize,
    place: usize,
    len: usize,
) -> Fields
    requires { (length field.now ≡ 256) × (length key.old ≡ 256) × (last ≤ 257) × (place ≤ 80000) }
    ensures { (key.new, result) ≡ measures field.now key.old left last place len }
{
    if 256 < len {
        return stopped(place);
    }
    if len == 0 {
        return named(field, key, left, last, place + 2, 0);
    }
    started(Stage::Naming, place + 2, len, left, 0, last)
}

// A byte as a number.
fn wide(x: u8) -> usize
    ensures { (result ≡ x) × (result < 256) }
{
    x as usize
}

// Two bytes as a number, the first one lowest.
fn two(bytes: &[u8]) -> usize
    requires { 2 ≤ length bytes.now }
    ensures { result ≡ little_endian 2 bytes.now }
{
    wide(bytes[0]) + wide(bytes[1]) * 0x100
}

// A word as a number of 64 bits.
fn long(x: u32) -> u64
    ensures { (result ≡ x) × (result < 2 ^ 32) }
{
    x as u64
}

// Eight bytes as a number, the first one lowest.
fn eight(bytes: &[u8]) -> u64
    requires { 8 ≤ length bytes.now }
    ensures { result ≡ little_endian 8 bytes.now }
{
    let low = long(card_block::inside::word(bytes, 0));
    let high = long(card_block::inside::word(bytes, 4));
    low + high * 0x1_0000_0000
}

// An entry has become whole.
fn gave(s: Fields, frame: u64) -> Fields
    ensures { result ≡ giving s frame }
{
    let mut r = s;
    r.got = true;
    r.frame = frame;
    r
}

// A field is whole.
fn whole(field: &[u8], key: &mut [u8], s: Fields) -> Fields
    requires { Fits s × (length field.now ≡ 256) × (length key.old ≡ 256) }
    ensures { (key.new, result) ≡ whole_of s.stage field.now key.old s }
{
    let stage = s.stage;
    match stage {
        Stage::Counting => counted(card_block::inside::word(field, 0) as usize, s.place),
        Stage::Measuring => measured(field, key, s.left, s.last, s.place, two(field)),
        Stage::Naming => named(field, key, s.left, s.last, s.place, s.need),
        Stage::Framing => gave(to_come(s.left, s.place + 8, s.last), eight(field)),
        Stage::Filling => filled(field[0], s.place, s.zeros, s.last),
        Stage::Stopped => s,
    }
}

// One byte at a place.
fn put(bytes: &mut [u8], at: usize, byte: u8)
    requires { at < length bytes.old }
    ensures { bytes.new ≡ set bytes.old at byte }
{
    bytes[at] = byte;
}

// One byte more.
pub fn take_byte(field: &mut [u8], key: &mut [u8], s: Fields, byte: u8) -> Fields
    requires { Fits s × (length field.old ≡ 256) × (length key.old ≡ 256) }
    ensures { (field.new, key.new, result) ≡ step (field.old, key.old, s) byte }
{
    if s.need == 0 {
        return s;
    }
    let at = s.held;
    put(field, at, byte);
    if at + 1 < s.need {
        let mut r = s;
        r.held = at + 1;
        r.got = false;
        r.frame = 0;
        return r;
    }
    whole(field, key, s)
}

// Any number of bytes, none too. Entries are passed over: this is how a stream is judged before anything is written.
pub fn pass_over(field: &mut [u8], key: &mut [u8], s: Fields, bytes: &[u8]) -> Fields
    requires { Fits s × (length field.old ≡ 256) × (length key.old ≡ 256) }
    ensures { (field.new, key.new, result)
        ≡ arrived step (field.old, key.old, s) bytes.now }
{
    let mut t = s;
    let mut i: usize = 0;
    while i < bytes.len() {
        t = take_byte(field, key, t, bytes[i]);
        i += 1;
    }
    t
}
