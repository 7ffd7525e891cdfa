// What the programs that replay recorded answers share: how many answers there were, how many differ, and what is printed of it.
// A read or a write that fails is handed on as it came.
#![tactic(auto)]

ghost use Rattle.std.specs.Prelude.{true, false, ◌≡◌, ◌+◌, ◌<◌, ◌≤◌, cond, length, min, take, IfOk, IfSome, IsOk, OnOk};
ghost use Rattle.std.specs.Io.KnownBytes.{Appends, Consumes, IsAtEnd, Keeps};
ghost use Rattle.tally.specs.Printed.{ending, if_differing, told};

use std::io;
use std::io::{Read, Write};

// How many answers were replayed, and how many differed.
#[derive(Clone, Copy)]
pub struct Tally {
    pub answers: u64,
    pub mismatches: u64,
}

// Reads until the text is full or the input ends, and says how many bytes were read.
fn filled<R: Read>(from: &mut R, text: &mut [u8]) -> io::Result<usize>
    ensures bound { IfOk result (λ n. n ≤ length text.new) }
    ensures bytes { IfOk result (λ n. Consumes (R.remaining from.old) (R.remaining from.new) (take n text.new)) }
    ensures end { IfOk result (λ n. n < length text.new → IsAtEnd (R.remaining from.new)) }
{
    let mut done: usize = 0;
    // No `for`: a read gives any number of bytes; and `read_exact` does not tell how many came before the end.
    while done < text.len() {
        let n = from.read(&mut text[done..])?;
        if n == 0 {
            return Ok(done);
        }
        done += n;
    }
    Ok(done)
}

// Reads the next line, of a fixed length, and says whether there was one. An input that ends within a line is told.
pub fn next<R: Read, W: Write>(from: &mut R, to: &mut W, text: &mut [u8]) -> io::Result<bool>
    ensures line { IfOk result (λ there. there ≡ true → Consumes (R.remaining from.old) (R.remaining from.new) text.new) }
    ensures silent { IfOk result (λ there. there ≡ true → Keeps (W.contents to.old) (W.contents to.new)) }
    ensures end { IfOk result (λ there. there ≡ false → IsAtEnd (R.remaining from.new)) }
    ensures short { IfOk result (λ there. there ≡ false → IfSome (R.remaining from.old) (λ left. length left < length text.new)) }
    ensures told { IfOk result (λ there. there ≡ false →
        IfSome (R.remaining from.old) (λ left. Appends (W.contents to.old) (W.contents to.new) (ending left))) }
{
    let n = filled(from, text)?;
    if n == text.len() {
        return Ok(true);
    }
    if n != 0 {
        writeln!(to, "a line is cut short")?;
    }
    Ok(false)
}

// Nothing replayed yet.
pub fn none() -> Tally
    ensures { (result.answers ≡ 0) × (result.mismatches ≡ 0) }
{
    Tally {
        answers: 0,
        mismatches: 0,
    }
}

// One answer more. Of one that differs its number and its text are printed.
pub fn counted<W: Write>(to: &mut W, tally: Tally, agrees: bool, text: &[u8]) -> io::Result<Tally>
    ensures answers_value { IfOk result (λ r. r.answers ≡ min (tally.answers + 1) 18446744073709551615) }
    ensures mismatches_value { IfOk result (λ r.
        r.mismatches ≡ cond agrees tally.mismatches (min (tally.mismatches + 1) 18446744073709551615)) }
    ensures printed { OnOk result (Appends (W.contents to.old) (W.contents to.new) (if_differing agrees tally.answers text.now)) }
    ensures no_error { agrees ≡ true → IsOk result }
{
    let answers = tally.answers.saturating_add(1);
    if agrees {
        return Ok(Tally {
            answers,
            mismatches: tally.mismatches,
        });
    }
    write!(to, "{} differs: ", tally.answers)?;
    to.write_all(text)?;
    Ok(Tally {
        answers,
        mismatches: tally.mismatches.saturating_add(1),
    })
}

// `N answers, M mismatches`, with the word for what was replayed.
pub fn tell<W: Write>(to: &mut W, tally: Tally, what: &[u8]) -> io::Result<()>
    ensures { OnOk result (Appends (W.contents to.old) (W.contents to.new) (told tally.answers tally.mismatches what.now)) }
{
    write!(to, "{} ", tally.answers)?;
    to.write_all(what)?;
    writeln!(to, ", {} mismatches", tally.mismatches)
}
