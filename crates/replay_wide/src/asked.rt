// A recorded call put to the library `wide_bank`, and its answer: a number, two values, and the bank that is handed back.
use refusal::Refusal;
use wide_bank::{HandedOut, Refused};

// What a call said: 0 or the number of a refusal, a number told or 0, how many rest or 0, and the bank.
#[derive(Clone, Copy)]
pub struct Said {
    pub number: u64,
    pub told: u64,
    pub resting: u64,
    pub bank: [u8; 25],
}

// A refusal and the bank beside it.
fn of_refused(why: Refusal, bank: [u8; 25]) -> Said {
    Said {
        number: refusal::number(why),
        told: 0,
        resting: 0,
        bank,
    }
}

// A bank that was changed or made, or a refusal and the bank beside it.
fn of_changed(answer: Result<[u8; 25], Refused>) -> Said {
    match answer {
        Ok(bank) => Said {
            number: 0,
            told: 0,
            resting: 0,
            bank,
        },
        Err(refused) => of_refused(refused.why, refused.bank),
    }
}

// The bank after an insertion, the slot handed out and how many rest, or a refusal and the bank as it was.
fn of_inserted(answer: Result<HandedOut, Refused>) -> Said {
    match answer {
        Ok(out) => {
            let bank = out.bank;
            Said {
                number: 0,
                told: out.slot as u64,
                resting: out.resting as u64,
                bank,
            }
        }
        Err(refused) => of_refused(refused.why, refused.bank),
    }
}

// A number told of a bank, or a refusal; the bank is as it was.
fn of_told(answer: Result<usize, Refusal>, bank: [u8; 25]) -> Said {
    match answer {
        Ok(number) => Said {
            number: 0,
            told: number as u64,
            resting: 0,
            bank,
        },
        Err(why) => of_refused(why, bank),
    }
}

// The answer to the call with this code. A code that no call has says 16, which is no refusal of these calls.
pub(crate) fn ask(call: u64, width: usize, bank: [u8; 25], a: usize, b: usize) -> Said {
    match call {
        0 => of_changed(wide_bank::empty(width)),
        1 => of_changed(wide_bank::make_sorted(width, a)),
        2 => of_changed(wide_bank::from_bytes(bank, width)),
        3 => of_told(wide_bank::size(bank, width), bank),
        4 => of_told(wide_bank::get(bank, width, a), bank),
        5 => of_told(wide_bank::back(bank, width), bank),
        6 => of_inserted(wide_bank::insert_from_back(bank, width, a)),
        7 => of_changed(wide_bank::insert_first_free(bank, width, a)),
        8 => of_changed(wide_bank::remove(bank, width, a)),
        9 => of_changed(wide_bank::remove_to_back(bank, width, a)),
        10 => of_changed(wide_bank::remove_slot(bank, width, a)),
        11 => of_changed(wide_bank::exchange(bank, width, a, b)),
        12 => of_changed(wide_bank::rotate(bank, width, a, b)),
        _ => Said {
            number: 16,
            told: 0,
            resting: 0,
            bank,
        },
    }
}
