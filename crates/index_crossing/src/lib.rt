// An answer of the index taken apart for C: its number to return, its values into the lent numbers.
#![tactic(auto)]

ghost use Rattle.std.specs.Prelude.{[], ◌∷◌};
ghost use Rattle.arena.specs.Memory.{said_cleared, said_measured};
ghost use Rattle.audit.specs.Audit.{said_audited};
ghost use Rattle.index.specs.Answers.{said_added, said_removed, said_found, said_listed};
ghost use Rattle.index_count.specs.Answers.{said_counted};
ghost use Rattle.crossing.specs.Crossing.{Crossed};
ghost use Rattle.crossing.specs.Told.{CrossedBoth};

use arena::Fit;
use index::{Listed, PutRefused};
use refusal::Refusal;

// 0 for memory that was cleared, or the number of the refusal.
pub fn give_cleared(answer: Result<(), Refusal>) -> u64
    ensures { Crossed (said_cleared answer) result [] [] }
{
    match answer {
        Ok(()) => 0,
        Err(why) => refusal::number(why),
    }
}

// For a key that was put, writes how many slots rest in its leaf and returns 0. Refused, returns the number: with 14 the number of nodes
// lacking is written into the other lent number.
pub fn give_added(answer: Result<usize, PutRefused>, resting: &mut usize, lacking: &mut u64) -> u64
    ensures { CrossedBoth (said_added answer) result (resting.old ∷ []) (resting.new ∷ [])
        (lacking.old ∷ []) (lacking.new ∷ []) }
{
    match answer {
        Ok(left) => {
            *resting = left;
            0
        }
        Err(PutRefused::TooFewNodes(n)) => {
            *lacking = n;
            14
        }
        Err(PutRefused::Refused(why)) => refusal::number(why),
    }
}

// 0 for a key that was removed, or the number of the refusal.
pub fn give_removed(answer: Result<(), Refusal>) -> u64
    ensures { Crossed (said_removed answer) result [] [] }
{
    match answer {
        Ok(()) => 0,
        Err(why) => refusal::number(why),
    }
}

// 0 for memory that is a tree, or the number of the refusal.
pub fn give_audited(answer: Result<(), Refusal>) -> u64
    ensures { Crossed (said_audited answer) result [] [] }
{
    match answer {
        Ok(()) => 0,
        Err(why) => refusal::number(why),
    }
}

// Writes how many nodes and cells are lent and returns 0; refused, writes nothing and returns the number.
pub fn give_measured(answer: Result<Fit, Refusal>, nodes: &mut usize, cells: &mut usize) -> u64
    ensures { Crossed (said_measured answer) result
        (nodes.old ∷ cells.old ∷ []) (nodes.new ∷ cells.new ∷ []) }
{
    match answer {
        Ok(fit) => {
            *nodes = fit.nodes;
            *cells = fit.cells;
            0
        }
        Err(why) => refusal::number(why),
    }
}

// Writes the frame number that was found and returns 0; refused, writes nothing and returns the number.
pub fn give_found(answer: Result<u64, Refusal>, frame: &mut u64) -> u64
    ensures { Crossed (said_found answer) result (frame.old ∷ []) (frame.new ∷ []) }
{
    match answer {
        Ok(stored) => {
            *frame = stored;
            0
        }
        Err(not_found) => refusal::number(not_found),
    }
}

// Writes the number of entries and returns 0; refused, writes nothing and returns the number.
pub fn give_counted(answer: Result<u64, Refusal>, count: &mut u64) -> u64
    ensures { Crossed (said_counted answer) result (count.old ∷ []) (count.new ∷ []) }
{
    match answer {
        Ok(n) => {
            *count = n;
            0
        }
        Err(not_counted) => refusal::number(not_counted),
    }
}

// Writes the cell of an entry, the length of its key and its frame number, and returns 0; refused, writes nothing and returns the
// number.
pub fn give_listed(
    answer: Result<Listed, Refusal>,
    cell: &mut u64,
    length: &mut u64,
    frame: &mut u64,
) -> u64
    ensures { Crossed (said_listed answer) result (cell.old ∷ length.old ∷ frame.old ∷ [])
        (cell.new ∷ length.new ∷ frame.new ∷ []) }
{
    match answer {
        Ok(entry) => {
            *cell = entry.cell;
            *length = entry.length;
            *frame = entry.frame;
            0
        }
        Err(why) => refusal::number(why),
    }
}
