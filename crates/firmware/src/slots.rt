// Slot words for C: each call of the library `permuter`, by number.
ghost use Rattle.std.specs.Prelude.{[], ◌∷◌};
ghost use Rattle.bank.specs.Calls.{from_value, set_size, swap_free_slots, insert_from_back, insert_first_free, remove};
ghost use Rattle.bank.specs.Calls.{remove_to_back, remove_slot, exchange, rotate, size, get, back, back_at_offset};
ghost use Rattle.permuter.specs.Words.{changed, asked, made_sorted, made_empty};
ghost use Rattle.crossing.specs.Crossing.{Crossed};

use crossing::{give_changed, give_inserted, give_made, give_told};

// The word with no slot in use.
#[unsafe(no_mangle)]
pub extern "C" fn cherchivola_empty(width: usize, word: &mut u64) -> u64
    ensures { Crossed (made_empty width) result (word.old ∷ []) (word.new ∷ []) }
{
    give_made(permuter::empty(width), word)
}

// The word with slots 0 to n-1 in use, in order.
#[unsafe(no_mangle)]
pub extern "C" fn cherchivola_make_sorted(width: usize, n: usize, word: &mut u64) -> u64
    ensures { Crossed (made_sorted width n) result (word.old ∷ []) (word.new ∷ []) }
{
    give_made(permuter::make_sorted(width, n), word)
}

// A word from outside, written where it is valid at this width.
#[unsafe(no_mangle)]
pub extern "C" fn cherchivola_from_value(value: u64, width: usize, word: &mut u64) -> u64
    ensures { Crossed (changed width value from_value) result (word.old ∷ []) (word.new ∷ []) }
{
    give_changed(permuter::from_value(value, width), word)
}

// How many slots are in use.
#[unsafe(no_mangle)]
pub extern "C" fn cherchivola_size(word: u64, width: usize, told: &mut usize) -> u64
    ensures { Crossed (asked width word size) result (told.old ∷ []) (told.new ∷ []) }
{
    give_told(permuter::size(word, width), told)
}

// The slot at a position, in use or free.
#[unsafe(no_mangle)]
pub extern "C" fn cherchivola_get(word: u64, width: usize, i: usize, told: &mut usize) -> u64
    ensures { Crossed (asked width word (get i)) result (told.old ∷ []) (told.new ∷ []) }
{
    give_told(permuter::get(word, width, i), told)
}

// The slot at the last position.
#[unsafe(no_mangle)]
pub extern "C" fn cherchivola_back(word: u64, width: usize, told: &mut usize) -> u64
    ensures { Crossed (asked width word back) result (told.old ∷ []) (told.new ∷ []) }
{
    give_told(permuter::back(word, width), told)
}

// The free slot that is so many places before the last position.
#[unsafe(no_mangle)]
pub extern "C" fn cherchivola_back_at_offset(
    word: u64,
    width: usize,
    offset: usize,
    told: &mut usize,
) -> u64
    ensures { Crossed (asked width word (back_at_offset offset)) result
        (told.old ∷ []) (told.new ∷ []) }
{
    give_told(permuter::back_at_offset(word, width, offset), told)
}

// The same positions with another size.
#[unsafe(no_mangle)]
pub extern "C" fn cherchivola_set_size(word: &mut u64, width: usize, n: usize) -> u64
    ensures { Crossed (changed width word.old (set_size n)) result
        (word.old ∷ []) (word.new ∷ []) }
{
    give_changed(permuter::set_size(*word, width, n), word)
}

// Two free positions change places.
#[unsafe(no_mangle)]
pub extern "C" fn cherchivola_swap_free_slots(
    word: &mut u64,
    width: usize,
    i: usize,
    j: usize,
) -> u64
    ensures { Crossed (changed width word.old (swap_free_slots i j)) result
        (word.old ∷ []) (word.new ∷ []) }
{
    give_changed(permuter::swap_free_slots(*word, width, i, j), word)
}

// The slot at the back is put to use at position i, and how many still rest is told.
#[unsafe(no_mangle)]
pub extern "C" fn cherchivola_insert_from_back(
    word: &mut u64,
    width: usize,
    i: usize,
    slot: &mut usize,
    resting: &mut usize,
) -> u64
    ensures { Crossed (changed width word.old (insert_from_back i)) result
        (word.old ∷ slot.old ∷ resting.old ∷ [])
        (word.new ∷ slot.new ∷ resting.new ∷ []) }
{
    let answer = permuter::insert_from_back(*word, width, i);
    give_inserted(answer, word, slot, resting)
}

// The first free slot, which is the one removed last, is put to use at position i.
#[unsafe(no_mangle)]
pub extern "C" fn cherchivola_insert_first_free(word: &mut u64, width: usize, i: usize) -> u64
    ensures { Crossed (changed width word.old (insert_first_free i)) result
        (word.old ∷ []) (word.new ∷ []) }
{
    give_changed(permuter::insert_first_free(*word, width, i), word)
}

// The slot at position i rests behind every other free one.
#[unsafe(no_mangle)]
pub extern "C" fn cherchivola_remove(word: &mut u64, width: usize, i: usize) -> u64
    ensures { Crossed (changed width word.old (remove i)) result
        (word.old ∷ []) (word.new ∷ []) }
{
    give_changed(permuter::remove(*word, width, i), word)
}

// The slot at position i goes to the back, where the next insertion finds it.
#[unsafe(no_mangle)]
pub extern "C" fn cherchivola_remove_to_back(word: &mut u64, width: usize, i: usize) -> u64
    ensures { Crossed (changed width word.old (remove_to_back i)) result
        (word.old ∷ []) (word.new ∷ []) }
{
    give_changed(permuter::remove_to_back(*word, width, i), word)
}

// The slot, wherever it is in use, rests behind every other free one.
#[unsafe(no_mangle)]
pub extern "C" fn cherchivola_remove_slot(word: &mut u64, width: usize, slot: usize) -> u64
    ensures { Crossed (changed width word.old (remove_slot slot)) result
        (word.old ∷ []) (word.new ∷ []) }
{
    give_changed(permuter::remove_slot(*word, width, slot), word)
}

// Two positions change places.
#[unsafe(no_mangle)]
pub extern "C" fn cherchivola_exchange(word: &mut u64, width: usize, i: usize, j: usize) -> u64
    ensures { Crossed (changed width word.old (exchange i j)) result
        (word.old ∷ []) (word.new ∷ []) }
{
    give_changed(permuter::exchange(*word, width, i, j), word)
}

// Positions i to width-1 become old j to width-1, then old i to j-1.
#[unsafe(no_mangle)]
pub extern "C" fn cherchivola_rotate(word: &mut u64, width: usize, i: usize, j: usize) -> u64
    ensures { Crossed (changed width word.old (rotate i j)) result
        (word.old ∷ []) (word.new ∷ []) }
{
    give_changed(permuter::rotate(*word, width, i, j), word)
}
