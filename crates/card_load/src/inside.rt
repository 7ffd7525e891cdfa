// An image judged, and the index filled from it. What a caller must know stands in `requires`: right lent lengths, and that the image
// has so many blocks.
ghost use Rattle.std.specs.Prelude.{◌≡◌, true, ◌*◌, ◌≤◌, length};
ghost use Rattle.arena.specs.Memory.{memory, did, right_lengths};
ghost use Rattle.card_block.specs.Words.{little_endian};
ghost use Rattle.card_stream.specs.Payload.{payload};
ghost use Rattle.index_put.specs.Answers.{said_added};
ghost use Rattle.map_loads.specs.Loads.{empty_of, settled};
ghost use Rattle.card_load.specs.Load.{examined, filled, said_loaded};

use crate::Loaded;
use card_filing::Filing;
use card_reader::Verdict;
use index_put::PutRefused;
use refusal::Refusal;

// What is known before the index is touched: the image has so many blocks, and can be loaded; or the answer.
#[derive(Clone, Copy)]
pub enum Exam {
    Good(usize),
    Bad(Loaded),
}

// The lent lengths, the length of the image, its checks, its stream.
pub fn examine(nodes: usize, cells: usize, bytes: usize, image: &[u8]) -> Exam
    ensures { result ≡ examined nodes cells bytes image.now }
{
    let Ok(_) = arena::measure(nodes, cells, bytes) else {
        return Exam::Bad(Loaded::Refused(Refusal::Memory));
    };
    if image.len() == 0 {
        return Exam::Bad(Loaded::Length);
    }
    if image.len() % 512 != 0 {
        return Exam::Bad(Loaded::Length);
    }
    let n = image.len() / 512;
    let bad = card_reader::inside::first_bad(image, n);
    if bad != n {
        return Exam::Bad(Loaded::Check(bad));
    }
    let verdict = card_reader::inside::judge(image, n);
    if let Verdict::Wrong(place) = verdict {
        return Exam::Bad(Loaded::Stream(place));
    }
    Exam::Good(n)
}

// What a clear leaves.
fn empty(nodes: &mut [u64], cells: &mut [u64], bytes: &mut [u8])
    requires { right_lengths (length nodes.old) (length cells.old) (length bytes.old) ≡ true }
    ensures { memory nodes.new cells.new bytes.new
        ≡ empty_of (memory nodes.old cells.old bytes.old) }
{
    let cleared = arena::clear(nodes, cells, bytes);
}

// A clear, and the entries of the stream, each put once it is whole.
fn fill(
    nodes: &mut [u64],
    cells: &mut [u64],
    bytes: &mut [u8],
    image: &[u8],
    n: usize,
) -> Result<usize, PutRefused>
    requires { (right_lengths (length nodes.old) (length cells.old) (length bytes.old) ≡ true) × (512 * n ≤ length image.now) }
    ensures { did (said_added result) (memory nodes.new cells.new bytes.new)
        ≡ filled (memory nodes.old cells.old bytes.old) (payload n image.now) }
{
    empty(nodes, cells, bytes);
    let mut field = [0u8; 256];
    let mut key = [0u8; 256];
    let s = Filing {
        fields: card_fields::inside::at_first(),
        added: Ok(0),
    };
    let t = card_filing::inside::enter_blocks(
        nodes, cells, bytes, &mut field, &mut key, s, image, n,
    );
    t.added
}

// The same, and where a put is refused, what a clear leaves.
pub fn refill(
    nodes: &mut [u64],
    cells: &mut [u64],
    bytes: &mut [u8],
    image: &[u8],
    n: usize,
) -> Loaded
    requires { (right_lengths (length nodes.old) (length cells.old) (length bytes.old) ≡ true) × (512 * n ≤ length image.now)
        × (1 ≤ n) }
    ensures { did (said_loaded result) (memory nodes.new cells.new bytes.new)
        ≡ settled (empty_of (memory nodes.old cells.old bytes.old))
        (little_endian 4 image.now)
        (filled (memory nodes.old cells.old bytes.old) (payload n image.now)) }
{
    let count = card_block::inside::word(image, 0) as usize;
    let added = fill(nodes, cells, bytes, image, n);
    match added {
        Ok(_) => Loaded::Entries(count),
        Err(PutRefused::TooFewNodes(lacking)) => {
            empty(nodes, cells, bytes);
            Loaded::TooFewNodes(lacking)
        }
        Err(PutRefused::Refused(why)) => {
            empty(nodes, cells, bytes);
            Loaded::Refused(why)
        }
    }
}
