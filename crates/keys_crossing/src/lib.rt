// An answer of the keys taken apart for C: its number to return, its values into the lent numbers.
#![tactic(auto)]

ghost use Rattle.std.specs.Prelude.{[], ◌∷◌, ◌≡◌};
ghost use Rattle.ikey.specs.Said.{place, order_of, said_whole};
ghost use Rattle.key.specs.Said.{said_made, said_moved, said_compared};
ghost use Rattle.crossing.specs.Crossing.{Crossed};

use key::{Layer, Refused};
use refusal::Refusal;
use std::cmp::Ordering;

// Less is 0, equal is 1, greater is 2.
pub fn order_number(order: Ordering) -> u64
    ensures { result ≡ place (order_of order) }
{
    match order {
        Ordering::Less => 0,
        Ordering::Equal => 1,
        Ordering::Greater => 2,
    }
}

// Writes how two whole keys stand to each other and returns 0; refused, writes nothing and returns the number.
pub fn give_whole(answer: Result<Ordering, Refusal>, order: &mut u64) -> u64
    ensures { Crossed (said_whole answer) result (order.old ∷ []) (order.new ∷ []) }
{
    match answer {
        Ok(is) => {
            *order = order_number(is);
            0
        }
        Err(why) => refusal::number(why),
    }
}

// Writes how a key stands to another and returns 0; refused, writes nothing and returns the number.
pub fn give_compared(answer: Result<Ordering, Refused>, order: &mut u64) -> u64
    ensures { Crossed (said_compared answer) result (order.old ∷ []) (order.new ∷ []) }
{
    match answer {
        Ok(is) => {
            *order = order_number(is);
            0
        }
        Err(refused) => refusal::number(refused.why),
    }
}

// Writes the numbers of a new key and returns 0; refused, writes nothing and returns the number.
pub fn give_made(
    answer: Result<Layer, Refusal>,
    ikey: &mut u64,
    shift_count: &mut usize,
    suffix_start: &mut usize,
) -> u64
    ensures { Crossed (said_made answer) result
        (ikey.old ∷ shift_count.old ∷ suffix_start.old ∷ [])
        (ikey.new ∷ shift_count.new ∷ suffix_start.new ∷ []) }
{
    match answer {
        Ok(key) => {
            *ikey = key.ikey;
            *shift_count = key.shift_count;
            *suffix_start = key.suffix_start;
            0
        }
        Err(why) => refusal::number(why),
    }
}

// Writes the numbers of a key at another layer and returns 0; refused, writes nothing and returns the number.
pub fn give_moved(
    answer: Result<Layer, Refused>,
    ikey: &mut u64,
    shift_count: &mut usize,
    suffix_start: &mut usize,
) -> u64
    ensures { Crossed (said_moved answer) result
        (ikey.old ∷ shift_count.old ∷ suffix_start.old ∷ [])
        (ikey.new ∷ shift_count.new ∷ suffix_start.new ∷ []) }
{
    match answer {
        Ok(key) => {
            *ikey = key.ikey;
            *shift_count = key.shift_count;
            *suffix_start = key.suffix_start;
            0
        }
        Err(stays) => refusal::number(stays.why),
    }
}
