// An answer of a wide bank taken apart for C: its number to return, its bank into the lent 25 bytes, its numbers into the lent ones.
#![tactic(auto)]

ghost use Rattle.std.specs.Prelude.{[], ◌∷◌, ◌++◌};
ghost use Rattle.wide_answers.specs.Answers.{said_changed, said_inserted, said_told};
ghost use Rattle.crossing.specs.Crossing.{Crossed};

use refusal::Refusal;
use wide_answers::{HandedOut, Refused};

// Writes a bank that was changed or made and returns 0; refused, writes nothing and returns the number.
pub fn give_changed(answer: Result<[u8; 25], Refused>, bank: &mut [u8; 25]) -> u64
    ensures { Crossed (said_changed answer) result bank.old bank.new }
{
    match answer {
        Ok(new) => {
            *bank = new;
            0
        }
        Err(refused) => refusal::number(refused.why),
    }
}

// Writes the bank after an insertion, the slot handed out and how many rest, and returns 0; refused, writes nothing and returns the
// number.
pub fn give_inserted(
    answer: Result<HandedOut, Refused>,
    bank: &mut [u8; 25],
    slot: &mut usize,
    resting: &mut usize,
) -> u64
    ensures { Crossed (said_inserted answer) result
        (bank.old ++ slot.old ∷ resting.old ∷ [])
        (bank.new ++ slot.new ∷ resting.new ∷ []) }
{
    match answer {
        Ok(out) => {
            let next = out.bank;
            *bank = next;
            *slot = out.slot;
            *resting = out.resting;
            0
        }
        Err(not_inserted) => refusal::number(not_inserted.why),
    }
}

// Writes a number told of a bank, whichever it is, and returns 0; refused, writes nothing and returns the number.
pub fn give_told(answer: Result<usize, Refusal>, told: &mut usize) -> u64
    ensures { Crossed (said_told [] answer) result (told.old ∷ []) (told.new ∷ []) }
{
    match answer {
        Ok(number) => {
            *told = number;
            0
        }
        Err(why) => refusal::number(why),
    }
}
