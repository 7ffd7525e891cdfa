// The first bad check, and the stream in the blocks. What a caller must know stands in `requires`: that the image has so many blocks.
ghost use Rattle.std.specs.Prelude.{◌≡◌, ◌*◌, ◌≤◌, length};
ghost use Rattle.card_stream.specs.Cuts.{arrived};
ghost use Rattle.card_fields.specs.Step.{step};
ghost use Rattle.card_fields.specs.Fits.{Fits};
ghost use Rattle.card_stream.specs.Parse.{parse};
ghost use Rattle.card_stream.specs.Payload.{payload, first_bad};
ghost use Rattle.card_reader.specs.Verdict.{verdict_of, end_of};

use crate::Verdict;
use card_fields::{Fields, Stage};

// The first block with a bad check, or n. The number of a block runs round as its sums do.
pub fn first_bad(image: &[u8], n: usize) -> usize
    requires { 512 * n ≤ length image.now }
    ensures { result ≡ first_bad 0 n image.now }
{
    let mut i: usize = 0;
    while i < n {
        let at = 512 * i;
        if card_block::inside::is_good(&image[at..at + 512], (i % 0x1_0000_0000) as u32) {
            i += 1;
            continue;
        }
        return i;
    }
    i
}

// The stream in the first n blocks, taken by the machine.
fn take_blocks(image: &[u8], n: usize, field: &mut [u8], key: &mut [u8], s: Fields) -> Fields
    requires { (512 * n ≤ length image.now) × (length field.old ≡ 256) × (length key.old ≡ 256) × Fits s }
    ensures { (field.new, key.new, result)
        ≡ arrived step (field.old, key.old, s) (payload n image.now) }
{
    let mut t = s;
    let mut i: usize = 0;
    while i < n {
        let at = 512 * i;
        t = card_fields::inside::pass_over(field, key, t, &image[at..at + 504]);
        i += 1;
    }
    t
}

// No more bytes come.
fn end_of(t: Fields) -> Verdict
    ensures { result ≡ end_of t.stage t.zeros t.place }
{
    let stage = t.stage;
    if let Stage::Filling = stage {
        if t.zeros == 0 {
            return Verdict::Right;
        }
    }
    Verdict::Wrong(t.place)
}

// The stream in the first n blocks.
pub fn judge(image: &[u8], n: usize) -> Verdict
    requires { 512 * n ≤ length image.now }
    ensures { result ≡ verdict_of (parse (payload n image.now)) }
{
    let mut field = [0u8; 256];
    let mut key = [0u8; 256];
    let t = take_blocks(
        image,
        n,
        &mut field,
        &mut key,
        card_fields::inside::at_first(),
    );
    end_of(t)
}
