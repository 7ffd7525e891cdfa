// One byte, any number of bytes, and the blocks of an image. Right lent lengths are asked; that memory is a tree is not.
ghost use Rattle.std.specs.Prelude.{◌≡◌, true, ◌*◌, ◌-◌, ◌≤◌, length, take};
ghost use Rattle.arena.specs.Memory.{memory, did, right_lengths};
ghost use Rattle.card_stream.specs.Cuts.{arrived};
ghost use Rattle.card_fields.specs.Fits.{Fits};
ghost use Rattle.card_stream.specs.Payload.{payload};
ghost use Rattle.model.specs.Calls.{put_lent};
ghost use Rattle.index_put.specs.Answers.{said_added};
ghost use Rattle.map_loads.specs.Loads.{and_put};
ghost use Rattle.card_filing.specs.Filing.{entered, step_putting, both};

use crate::Filing;
use card_fields::Fields;
use index_put::PutRefused;

// The next put, unless one before it was refused.
#[tactic(auto, using(crate::proofs::Enters::puts))]
fn and_put(
    nodes: &mut [u64],
    cells: &mut [u64],
    bytes: &mut [u8],
    key: &[u8],
    frame: u64,
    added: Result<usize, PutRefused>,
) -> Result<usize, PutRefused>
    requires { (right_lengths (length nodes.old) (length cells.old) (length bytes.old) ≡ true) × (length key.now ≤ 256) }
    ensures { did (said_added result) (memory nodes.new cells.new bytes.new)
        ≡ and_put put_lent (did (said_added added) (memory nodes.old cells.old bytes.old))
        (key.now, frame) }
{
    match added {
        Ok(_) => index_put::inside::put_lent(nodes, cells, bytes, key, frame),
        Err(why) => Err(why),
    }
}

// The last key; `last` is its length and one.
fn key_of<'a>(key: &'a [u8], last: usize) -> &'a [u8]
    requires { last - 1 ≤ length key.now }
    ensures { result.now ≡ take (last - 1) key.now }
{
    if last == 0 {
        return &key[0..0];
    }
    let n = last - 1;
    &key[0..n]
}

// The entry that the last byte has made whole, put.
fn put_gained(
    nodes: &mut [u64],
    cells: &mut [u64],
    bytes: &mut [u8],
    key: &[u8],
    t: Fields,
    added: Result<usize, PutRefused>,
) -> Result<usize, PutRefused>
    requires { (right_lengths (length nodes.old) (length cells.old) (length bytes.old) ≡ true) × Fits t
        × (length key.now ≡ 256) }
    ensures { did (said_added result) (memory nodes.new cells.new bytes.new)
        ≡ entered key.now t (did (said_added added) (memory nodes.old cells.old bytes.old)) }
{
    if t.got {
        return and_put(nodes, cells, bytes, key_of(key, t.last), t.frame, added);
    }
    added
}

// One byte more, and the entry that it makes whole is put.
pub fn enter(
    nodes: &mut [u64],
    cells: &mut [u64],
    bytes: &mut [u8],
    field: &mut [u8],
    key: &mut [u8],
    s: Filing,
    byte: u8,
) -> Filing
    requires { (right_lengths (length nodes.old) (length cells.old) (length bytes.old) ≡ true) × Fits s.fields
        × (length field.old ≡ 256) × (length key.old ≡ 256) }
    ensures { both field.new key.new result (memory nodes.new cells.new bytes.new)
        ≡ step_putting (both field.old key.old s
        (memory nodes.old cells.old bytes.old)) byte }
{
    let before = s.fields;
    let added = s.added;
    let t = card_fields::inside::take_byte(field, key, before, byte);
    let next = put_gained(nodes, cells, bytes, key, t, added);
    Filing {
        fields: t,
        added: next,
    }
}

// Any number of bytes, none too.
pub fn enter_bytes(
    nodes: &mut [u64],
    cells: &mut [u64],
    bytes: &mut [u8],
    field: &mut [u8],
    key: &mut [u8],
    s: Filing,
    part: &[u8],
) -> Filing
    requires { (right_lengths (length nodes.old) (length cells.old) (length bytes.old) ≡ true) × Fits s.fields
        × (length field.old ≡ 256) × (length key.old ≡ 256) }
    ensures { both field.new key.new result (memory nodes.new cells.new bytes.new)
        ≡ arrived step_putting (both field.old key.old s
        (memory nodes.old cells.old bytes.old)) part.now }
{
    let mut t = s;
    let mut i: usize = 0;
    while i < part.len() {
        let byte = part[i];
        i += 1;
        t = enter(nodes, cells, bytes, field, key, t, byte);
    }
    t
}

// The stream in the first n blocks of an image.
pub fn enter_blocks(
    nodes: &mut [u64],
    cells: &mut [u64],
    bytes: &mut [u8],
    field: &mut [u8],
    key: &mut [u8],
    s: Filing,
    image: &[u8],
    n: usize,
) -> Filing
    requires { (right_lengths (length nodes.old) (length cells.old) (length bytes.old) ≡ true) × Fits s.fields
        × (length field.old ≡ 256) × (length key.old ≡ 256) × (512 * n ≤ length image.now) }
    ensures { both field.new key.new result (memory nodes.new cells.new bytes.new)
        ≡ arrived step_putting (both field.old key.old s
        (memory nodes.old cells.old bytes.old)) (payload n image.now) }
{
    let mut t = s;
    let mut i: usize = 0;
    while i < n {
        let at = 512 * i;
        i += 1;
        t = enter_bytes(nodes, cells, bytes, field, key, t, &image[at..at + 504]);
    }
    t
}
