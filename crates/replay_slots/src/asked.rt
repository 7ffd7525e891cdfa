// A recorded call put to the library `permuter`, and its answer as four numbers.
ghost use Rattle.std.specs.Prelude.{◌≡◌, ◌<◌};
ghost use Rattle.permuter.specs.Answers.{said_changed, said_inserted, said_told, said_made};
ghost use Rattle.replay_slots.specs.Recorded.{said_of, called};

use permuter::{HandedOut, Refused};
use refusal::Refusal;

// The number, the first value, the second and the third; 0 where there is none.
#[derive(Clone, Copy)]
pub struct Said {
    pub number: u64,
    pub first: u64,
    pub second: u64,
    pub third: u64,
}

// A number, and one value beside it.
fn one(number: u64, first: u64) -> Said
    ensures { result ≡ record { number = number; first = first; second = 0; third = 0 } }
{
    Said {
        number,
        first,
        second: 0,
        third: 0,
    }
}

// A changed word, or a refusal and the word as it was.
fn of_changed(answer: Result<u64, Refused>) -> Said
    ensures { result ≡ said_of (said_changed answer) }
{
    match answer {
        Ok(word) => one(0, word),
        Err(refused) => one(refusal::number(refused.why), refused.word),
    }
}

// The word after an insertion, the slot handed out and how many rest, or a refusal and the word as it was.
fn of_inserted(answer: Result<HandedOut, Refused>) -> Said
    ensures { result ≡ said_of (said_inserted answer) }
{
    match answer {
        Ok(out) => Said {
            number: 0,
            first: out.word,
            second: out.slot as u64,
            third: out.resting as u64,
        },
        Err(refused) => one(refusal::number(refused.why), refused.word),
    }
}

// A number told of a word, or a refusal and the word.
fn of_told(answer: Result<usize, Refused>) -> Said
    ensures { result ≡ said_of (said_told answer) }
{
    match answer {
        Ok(number) => one(0, number as u64),
        Err(refused) => one(refusal::number(refused.why), refused.word),
    }
}

// A word that was made, or a refusal alone.
fn of_made(answer: Result<u64, Refusal>) -> Said
    ensures { result ≡ said_of (said_made answer) }
{
    match answer {
        Ok(word) => one(0, word),
        Err(why) => one(refusal::number(why), 0),
    }
}

// The answer to the call with this code. A code that no call has says 16, which is no refusal.
pub fn ask(call: u64, width: usize, word: u64, a: usize, b: usize) -> Said
    ensures { result ≡ said_of (called call width word a b) }
{
    match call {
        0 => of_made(permuter::empty(width)),
        1 => of_made(permuter::make_sorted(width, a)),
        2 => of_changed(permuter::from_value(word, width)),
        3 => of_told(permuter::size(word, width)),
        4 => of_told(permuter::get(word, width, a)),
        5 => of_told(permuter::back(word, width)),
        6 => of_told(permuter::back_at_offset(word, width, a)),
        7 => of_changed(permuter::set_size(word, width, a)),
        8 => of_changed(permuter::swap_free_slots(word, width, a, b)),
        9 => of_inserted(permuter::insert_from_back(word, width, a)),
        10 => of_changed(permuter::remove(word, width, a)),
        11 => of_changed(permuter::remove_to_back(word, width, a)),
        12 => of_changed(permuter::remove_slot(word, width, a)),
        13 => of_changed(permuter::exchange(word, width, a, b)),
        14 => of_changed(permuter::rotate(word, width, a, b)),
        15 => of_changed(permuter::insert_first_free(word, width, a)),
        _ => one(16, 0),
    }
}
