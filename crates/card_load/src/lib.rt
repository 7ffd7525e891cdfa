// The index read from an image: every check and the whole stream are judged before the index is touched.
#![tactic(auto)]

pub mod inside;

ghost use Rattle.std.specs.Prelude.{◌≡◌};
ghost use Rattle.arena.specs.Memory.{memory, did};
ghost use Rattle.card_said.specs.Load.{load_done};
ghost use Rattle.card_load.specs.Load.{said_loaded};

use inside::Exam;
use refusal::Refusal;

// What reading an image answers.
#[derive(Clone, Copy)]
pub enum Loaded {
    // so many entries
    Entries(usize),
    // 10 for wrong lent lengths, or 13, as the first failing put says
    Refused(Refusal),
    // 14, as the first failing put says: so many nodes fewer are free than it needs
    TooFewNodes(u64),
    // 15: the image is no positive multiple of 512 bytes long
    Length,
    // 16: the first block with a bad check
    Check(usize),
    // 17: the place in the stream where the first wrong part starts
    Stream(usize),
}

// Clears the index, and puts the entries of the image in order.
pub fn load(nodes: &mut [u64], cells: &mut [u64], bytes: &mut [u8], image: &[u8]) -> Loaded
    ensures { did (said_loaded result) (memory nodes.new cells.new bytes.new)
        ≡ load_done (memory nodes.old cells.old bytes.old) image.now }
{
    let exam = inside::examine(nodes.len(), cells.len(), bytes.len(), image);
    match exam {
        Exam::Bad(why) => why,
        Exam::Good(n) => inside::refill(nodes, cells, bytes, image, n),
    }
}
