// The recorded calls: each is made, and held to the line's number, to what it tells and to the sum of what is lent.
use crate::line;
use card_image::{Loaded, Saved};
use index::PutRefused;
use refusal::Refusal;

// Whether the call says what the line has, and what is lent has the line's sum after it.
pub(crate) fn agrees(
    nodes: &mut [u64],
    cells: &mut [u64],
    bytes: &mut [u8],
    card: &[u8],
    out: &mut [u8],
    text: &[u8],
) -> bool {
    if !says(nodes, cells, bytes, card, out, text) {
        return false;
    }
    replay_sum::of(nodes, cells, bytes) == line::sum(text)
}

// Makes the recorded call; whether it says what the line has.
fn says(
    nodes: &mut [u64],
    cells: &mut [u64],
    bytes: &mut [u8],
    card: &[u8],
    out: &mut [u8],
    text: &[u8],
) -> bool {
    let does = line::does(text);
    if does == b'c' {
        return cleared(index::clear(nodes, cells, bytes), text);
    }
    if does == b's' {
        return saves(nodes, cells, bytes, out, text);
    }
    if does == b'l' {
        return loads(nodes, cells, bytes, card, text);
    }
    with_key(nodes, cells, bytes, card, text)
}

// Saves into as much room as the line has; whether the answer and the sum of that room are the line's.
fn saves(nodes: &[u64], cells: &[u64], bytes: &[u8], out: &mut [u8], text: &[u8]) -> bool {
    let n = line::length(text);
    if out.len() < n {
        return false;
    }
    if !saved(card_image::save(nodes, cells, bytes, &mut out[0..n]), text) {
        return false;
    }
    replay_sum::all(1, &out[0..n]) == line::frame(text)
}

// Loads as much of the card as the line has.
fn loads(nodes: &mut [u64], cells: &mut [u64], bytes: &mut [u8], card: &[u8], text: &[u8]) -> bool {
    let n = line::length(text);
    if card.len() < n {
        return false;
    }
    loaded(card_image::load(nodes, cells, bytes, &card[0..n]), text)
}

// Puts or removes the key that stands on the card.
fn with_key(
    nodes: &mut [u64],
    cells: &mut [u64],
    bytes: &mut [u8],
    card: &[u8],
    text: &[u8],
) -> bool {
    let from = line::place(text);
    let to = from + line::length(text);
    if card.len() < to {
        return false;
    }
    let key = &card[from..to];
    if line::does(text) == b'p' {
        return put(
            index::put(nodes, cells, bytes, key, line::frame(text)),
            text,
        );
    }
    removed(index::remove(nodes, cells, bytes, key), text)
}

// Whether a number, and what is told with it, are the line's.
fn same(number: u64, told: u64, text: &[u8]) -> bool {
    number == line::number(text) && told == line::told(text)
}

// Whether a clear says what the line has.
fn cleared(answer: Result<(), Refusal>, text: &[u8]) -> bool {
    match answer {
        Ok(()) => same(0, 0, text),
        Err(why) => same(refusal::number(why), 0, text),
    }
}

// Whether a put does; accepted also how many slots rest, of 14 how many nodes are lacking.
fn put(answer: Result<usize, PutRefused>, text: &[u8]) -> bool {
    match answer {
        Ok(resting) => same(0, resting as u64, text),
        Err(PutRefused::TooFewNodes(lacking)) => same(14, lacking, text),
        Err(PutRefused::Refused(why)) => same(refusal::number(why), 0, text),
    }
}

// Whether a removal does.
fn removed(answer: Result<(), Refusal>, text: &[u8]) -> bool {
    match answer {
        Ok(()) => same(0, 0, text),
        Err(why) => same(refusal::number(why), 0, text),
    }
}

// Whether a save does; accepted, also in how many blocks.
fn saved(answer: Saved, text: &[u8]) -> bool {
    match answer {
        Saved::Blocks(n) => same(0, n as u64, text),
        Saved::Short => same(18, 0, text),
        Saved::Refused(why) => same(refusal::number(why), 0, text),
    }
}

// Whether a load does: how many entries, nodes lacking, the block, the place.
fn loaded(answer: Loaded, text: &[u8]) -> bool {
    match answer {
        Loaded::Entries(n) => same(0, n as u64, text),
        Loaded::Refused(why) => same(refusal::number(why), 0, text),
        Loaded::TooFewNodes(lacking) => same(14, lacking, text),
        Loaded::Length => same(15, 0, text),
        Loaded::Check(block) => same(16, block as u64, text),
        Loaded::Stream(place) => same(17, place as u64, text),
    }
}
