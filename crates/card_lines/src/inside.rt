// An image listed, and an index made into one. What a caller must lend stands in `requires`: bytes enough for what is printed.
ghost use Rattle.std.specs.Prelude.{◌≡◌, ◌≤◌, length};
ghost use Rattle.arena.specs.Memory.{memory};
ghost use Rattle.page.specs.Page.{Typed};
ghost use Rattle.lines_said.specs.Said.{listed};
ghost use Rattle.card_image.specs.Loaded.{said_loaded};
ghost use Rattle.card_lines.specs.Printed.{image_listed, blocks_line, Shown, Imaged};

use card_image::{Loaded, Saved};

// The number of the refusal of an image, without what it carries, and 0 where the image is read.
fn number(loaded: Loaded) -> u64
    ensures { result ≡ (said_loaded loaded).number }
{
    match loaded {
        Loaded::Entries(_) => 0,
        Loaded::Refused(why) => refusal::number(why),
        Loaded::TooFewNodes(_) => 14,
        Loaded::Length => 15,
        Loaded::Check(_) => 16,
        Loaded::Stream(_) => 17,
    }
}

// Prints the listing of lent memory: its entries are short enough for as many bytes.
fn listing(nodes: &[u64], cells: &[u64], bytes: &[u8], out: &mut [u8]) -> usize
    requires { 136182 ≤ length out.old }
    ensures { Typed out.old 0 (listed (memory nodes.now cells.now bytes.now)) result
        out.new }
{
    lines_list::inside::list(nodes, cells, bytes, out)
}

// Reads an image into lent memory, prints the listing or the refusal, and tells the length of what is printed.
pub fn list_image(
    nodes: &mut [u64],
    cells: &mut [u64],
    bytes: &mut [u8],
    image: &[u8],
    out: &mut [u8],
) -> usize
    requires { 136182 ≤ length out.old }
    ensures { Shown out.old
        (image_listed (memory nodes.old cells.old bytes.old) image.now) result
        out.new }
{
    let loaded = card_image::load(nodes, cells, bytes, image);
    let refused = number(loaded);
    if refused != 0 {
        return page::inside::refused(out, 0, refused);
    }
    listing(nodes, cells, bytes, out)
}

// Writes the image of an index to the front of lent bytes, and tells how many blocks it has: none where that is refused.
pub fn image_of(nodes: &[u64], cells: &[u64], bytes: &[u8], image: &mut [u8]) -> usize
    ensures { Imaged (memory nodes.now cells.now bytes.now) image.old result
        image.new }
{
    let saved = card_image::save(nodes, cells, bytes, image);
    match saved {
        Saved::Blocks(n) => n,
        Saved::Short => 0,
        Saved::Refused(_) => 0,
    }
}

// Prints the line `N blocks`.
pub fn blocks(out: &mut [u8], n: u64) -> usize
    requires { 100 ≤ length out.old }
    ensures { Shown out.old (blocks_line n) result out.new }
{
    let next = page::inside::decimal(out, 0, n);
    page::inside::append(out, next, b" blocks\n")
}
