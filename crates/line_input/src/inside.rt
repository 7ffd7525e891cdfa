// The lines of an input that comes in parts: a line is kept until its line feed comes, up to 1,201 bytes of it.
ghost use Rattle.std.specs.Prelude.{◌≡◌, ◌≤◌, min, length};
ghost use Rattle.arena.specs.Parts.{put_part};
ghost use Rattle.line_input.specs.Input.{taken_from, taken_over};

// How many bytes of a part are used up, how many of the line are kept, and whether the line has ended. No Option: both numbers stand,
// whether it has or not.
#[derive(Clone, Copy)]
pub struct Taken {
    pub used: usize,
    pub kept: usize,
    pub ended: bool,
}

// Goes on with a line of which so many bytes are kept, as far as its line feed or the end of the part.
pub fn take_line(part: &[u8], line: &mut [u8], kept: usize) -> Taken
    requires { (kept ≤ 1201) × (1201 ≤ length line.old) }
    ensures value { (result ≡ taken_from kept part.now)
        × (line.new ≡ put_part line.old kept (taken_over kept part.now)) }
    ensures used_in_bounds { (result.used ≤ length part.now) × (min 1 (length part.now) ≤ result.used) × (result.kept ≤ 1201) }
{
    let end = text::first(part, b'\n');
    let more = end.min(1201 - kept);
    arena::inside::copy_bytes(part, 0, line, kept, more);
    if end < part.len() {
        return Taken {
            used: end + 1,
            kept: kept + more,
            ended: true,
        };
    }
    Taken {
        used: end,
        kept: kept + more,
        ended: false,
    }
}
