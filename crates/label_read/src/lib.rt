// Frame labels read: by a reader of both editions, and by one that knows edition 1 alone. Neither asks anything of the bytes.
#![tactic(auto, using(crate::proofs::Readings::readings))]

ghost use Rattle.std.specs.Prelude.{◌≡◌, ◌+◌, ◌≤◌, length, drop};
ghost use Rattle.order.specs.Layer.{big_endian};
ghost use Rattle.label_said.specs.Read.{edition_byte, read_said, read_first_said};
ghost use Rattle.label_read.specs.Answers.{said_label, said_first_label};

// What a reader of both editions finds.
#[derive(Clone, Copy)]
pub enum Label {
    First {
        station: u16,
        burst: u32,
        frame: u8,
    },
    Second {
        station: u16,
        burst: u32,
        frame: u16,
    },
}

// What a reader of edition 1 finds.
#[derive(Clone, Copy)]
pub struct FirstLabel {
    pub station: u16,
    pub burst: u32,
    pub frame: u8,
}

// 19: no label of an edition that the reader knows; its edition byte, 0 where there is none.
#[derive(Clone, Copy)]
pub struct Unknown {
    pub edition: u8,
}

// The number in two bytes from a place on, the first one highest.
fn two(label: &[u8], at: usize) -> u16
    requires { at + 2 ≤ length label.now }
    ensures { result ≡ big_endian 2 (drop at label.now) }
{
    u16::from_be_bytes([label[at], label[at + 1]])
}

// The number in four bytes from a place on, the first one highest.
fn four(label: &[u8], at: usize) -> u32
    requires { at + 4 ≤ length label.now }
    ensures { result ≡ big_endian 4 (drop at label.now) }
{
    u32::from_be_bytes([label[at], label[at + 1], label[at + 2], label[at + 3]])
}

// The edition byte of a label, the first one; 0 where there is none.
fn edition(label: &[u8]) -> u8
    ensures { result ≡ edition_byte label.now }
{
    label.first().copied().unwrap_or(0)
}

// Reads a label of either edition.
pub fn read(label: &[u8]) -> Result<Label, Unknown>
    ensures { said_label result ≡ read_said label.now }
{
    let edition = edition(label);
    match (edition, label.len()) {
        (1, 8) => Ok(Label::First {
            station: two(label, 1),
            burst: four(label, 3),
            frame: label[7],
        }),
        (2, 9) => Ok(Label::Second {
            station: two(label, 1),
            burst: four(label, 3),
            frame: two(label, 7),
        }),
        _ => Err(Unknown { edition }),
    }
}

// Reads a label of edition 1. One of edition 2 is refused by its byte, and no frame is told.
pub fn read_first(label: &[u8]) -> Result<FirstLabel, Unknown>
    ensures { said_first_label result ≡ read_first_said label.now }
{
    let edition = edition(label);
    match (edition, label.len()) {
        (1, 8) => Ok(FirstLabel {
            station: two(label, 1),
            burst: four(label, 3),
            frame: label[7],
        }),
        _ => Err(Unknown { edition }),
    }
}
