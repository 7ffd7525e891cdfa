// Wide banks for C: each call of the library `wide_bank`, by number. The bank is 25 bytes that the caller lends.
ghost use Rattle.std.specs.Prelude.{[], ◌∷◌, ◌++◌};
ghost use Rattle.bank.specs.Calls.{from_value, insert_from_back, insert_first_free, remove, remove_to_back, remove_slot};
ghost use Rattle.bank.specs.Calls.{exchange, rotate, size, get, back};
ghost use Rattle.wide_bank.specs.Wides.{changed, asked, made_sorted, made_empty};
ghost use Rattle.crossing.specs.Crossing.{Crossed};

use wide_crossing::{give_changed, give_inserted, give_told};

// The bank with no slot in use.
#[unsafe(no_mangle)]
pub extern "C" fn cherchivola_wide_empty(width: usize, bank: &mut [u8; 25]) -> u64
    ensures { Crossed (made_empty width) result bank.old bank.new }
{
    give_changed(wide_bank::empty(width), bank)
}

// The bank with slots 0 to n-1 in use, in order.
#[unsafe(no_mangle)]
pub extern "C" fn cherchivola_wide_make_sorted(width: usize, n: usize, bank: &mut [u8; 25]) -> u64
    ensures { Crossed (made_sorted width n) result bank.old bank.new }
{
    give_changed(wide_bank::make_sorted(width, n), bank)
}

// A bank from outside, written where it is valid at this width.
#[unsafe(no_mangle)]
pub extern "C" fn cherchivola_wide_from_bytes(
    bytes: &[u8; 25],
    width: usize,
    bank: &mut [u8; 25],
) -> u64
    ensures { Crossed (changed width bytes.now from_value) result bank.old bank.new }
{
    let given = *bytes;
    give_changed(wide_bank::from_bytes(given, width), bank)
}

// How many slots are in use.
#[unsafe(no_mangle)]
pub extern "C" fn cherchivola_wide_size(bank: &[u8; 25], width: usize, told: &mut usize) -> u64
    ensures { Crossed (asked width bank.now size) result (told.old ∷ []) (told.new ∷ []) }
{
    let given = *bank;
    give_told(wide_bank::size(given, width), told)
}

// The slot at a position, in use or free.
#[unsafe(no_mangle)]
pub extern "C" fn cherchivola_wide_get(
    bank: &[u8; 25],
    width: usize,
    i: usize,
    told: &mut usize,
) -> u64
    ensures { Crossed (asked width bank.now (get i)) result (told.old ∷ []) (told.new ∷ []) }
{
    let given = *bank;
    give_told(wide_bank::get(given, width, i), told)
}

// The slot at the last position.
#[unsafe(no_mangle)]
pub extern "C" fn cherchivola_wide_back(bank: &[u8; 25], width: usize, told: &mut usize) -> u64
    ensures { Crossed (asked width bank.now back) result (told.old ∷ []) (told.new ∷ []) }
{
    let given = *bank;
    give_told(wide_bank::back(given, width), told)
}

// The slot at the back is put to use at position i, and how many still rest is told.
#[unsafe(no_mangle)]
pub extern "C" fn cherchivola_wide_insert_from_back(
    bank: &mut [u8; 25],
    width: usize,
    i: usize,
    slot: &mut usize,
    resting: &mut usize,
) -> u64
    ensures { Crossed (changed width bank.old (insert_from_back i)) result
        (bank.old ++ slot.old ∷ resting.old ∷ [])
        (bank.new ++ slot.new ∷ resting.new ∷ []) }
{
    let given = *bank;
    let answer = wide_bank::insert_from_back(given, width, i);
    give_inserted(answer, bank, slot, resting)
}

// The first free slot, which is the one removed last, is put to use at position i.
#[unsafe(no_mangle)]
pub extern "C" fn cherchivola_wide_insert_first_free(
    bank: &mut [u8; 25],
    width: usize,
    i: usize,
) -> u64
    ensures { Crossed (changed width bank.old (insert_first_free i)) result bank.old bank.new }
{
    let given = *bank;
    give_changed(wide_bank::insert_first_free(given, width, i), bank)
}

// The slot at position i rests behind every other free one.
#[unsafe(no_mangle)]
pub extern "C" fn cherchivola_wide_remove(bank: &mut [u8; 25], width: usize, i: usize) -> u64
    ensures { Crossed (changed width bank.old (remove i)) result bank.old bank.new }
{
    let given = *bank;
    give_changed(wide_bank::remove(given, width, i), bank)
}

// The slot at position i goes to the back, where the next insertion finds it.
#[unsafe(no_mangle)]
pub extern "C" fn cherchivola_wide_remove_to_back(
    bank: &mut [u8; 25],
    width: usize,
    i: usize,
) -> u64
    ensures { Crossed (changed width bank.old (remove_to_back i)) result bank.old bank.new }
{
    let given = *bank;
    give_changed(wide_bank::remove_to_back(given, width, i), bank)
}

// The slot, wherever it is in use, rests behind every other free one.
#[unsafe(no_mangle)]
pub extern "C" fn cherchivola_wide_remove_slot(
    bank: &mut [u8; 25],
    width: usize,
    slot: usize,
) -> u64
    ensures { Crossed (changed width bank.old (remove_slot slot)) result bank.old bank.new }
{
    let given = *bank;
    give_changed(wide_bank::remove_slot(given, width, slot), bank)
}

// Two positions change places.
#[unsafe(no_mangle)]
pub extern "C" fn cherchivola_wide_exchange(
    bank: &mut [u8; 25],
    width: usize,
    i: usize,
    j: usize,
) -> u64
    ensures { Crossed (changed width bank.old (exchange i j)) result bank.old bank.new }
{
    let given = *bank;
    give_changed(wide_bank::exchange(given, width, i, j), bank)
}

// Positions i to width-1 become old j to width-1, then old i to j-1.
#[unsafe(no_mangle)]
pub extern "C" fn cherchivola_wide_rotate(
    bank: &mut [u8; 25],
    width: usize,
    i: usize,
    j: usize,
) -> u64
    ensures { Crossed (changed width bank.old (rotate i j)) result bank.old bank.new }
{
    let given = *bank;
    give_changed(wide_bank::rotate(given, width, i, j), bank)
}
