// One recorded answer: 65 bytes with the line feed, its fields in lower-case hex at fixed places. tests/editions.py says which.
ghost use Rattle.std.specs.Prelude.{◌≤◌, length};

use label_read::{FirstLabel, Label, Unknown};

// The edition and the fields that a line has; what it does not have is 0.
#[derive(Clone, Copy, PartialEq)]
struct Fields {
    edition: u64,
    station: u64,
    burst: u64,
    frame: u64,
}

impl From<Label> for Fields {
    fn from(label: Label) -> Fields {
        match label {
            Label::First {
                station,
                burst,
                frame,
            } => Fields {
                edition: 1,
                station: u64::from(station),
                burst: u64::from(burst),
                frame: u64::from(frame),
            },
            Label::Second {
                station,
                burst,
                frame,
            } => Fields {
                edition: 2,
                station: u64::from(station),
                burst: u64::from(burst),
                frame: u64::from(frame),
            },
        }
    }
}

// A reader of edition 1 tells no edition.
impl From<FirstLabel> for Fields {
    fn from(label: FirstLabel) -> Fields {
        Fields {
            edition: 0,
            station: u64::from(label.station),
            burst: u64::from(label.burst),
            frame: u64::from(label.frame),
        }
    }
}

// No label has its edition byte alone.
impl From<Unknown> for Fields {
    fn from(unknown: Unknown) -> Fields {
        Fields {
            edition: u64::from(unknown.edition),
            station: 0,
            burst: 0,
            frame: 0,
        }
    }
}

// The label of the line, of which the line has the first 16 bytes; those behind are 0.
fn label_of(text: &[u8]) -> [u8; 300] {
    let mut label = [0u8; 300];
    for i in 0..16 {
        label[i] = hex_digits::byte(text, 32 + 2 * i);
    }
    label
}

// Whether a label that was built is the one of the line.
fn built(text: &[u8], label: &[u8]) -> bool
    requires { length label.now ≤ 16 }
{
    hex_digits::four(text, 27) == label.len() as u64
        && (0..label.len()).all(|i| label[i] == hex_digits::byte(text, 32 + 2 * i))
}

// Whether a reader said what the line says: 0 and the fields, or 19 and the edition byte.
fn is_recorded(text: &[u8], said: Result<Fields, Unknown>) -> bool {
    let recorded = Fields {
        edition: hex_digits::two(text, 5),
        station: hex_digits::four(text, 8),
        burst: hex_digits::eight(text, 13),
        frame: hex_digits::four(text, 22),
    };
    match said {
        Ok(fields) => hex_digits::two(text, 2) == 0 && recorded == fields,
        Err(unknown) => hex_digits::two(text, 2) == 19 && recorded == Fields::from(unknown),
    }
}

// Whether the call of this code reads a label as the line says: 2 with a reader of both editions, any other with one of edition 1.
fn reads(text: &[u8], label: &[u8], call: u64) -> bool {
    if call == 2 {
        return is_recorded(text, label_read::read(label).map(Fields::from));
    }
    is_recorded(text, label_read::read_first(label).map(Fields::from))
}

// The same, with as many bytes of it as the line says.
fn reads_part(text: &[u8], label: &[u8], call: u64) -> bool {
    let length = hex_digits::four(text, 27) as usize;
    if label.len() < length {
        return false;
    }
    reads(text, &label[0..length], call)
}

// Whether the libraries answer the call that the line records as the line says.
pub(crate) fn agrees(text: &[u8]) -> bool {
    let call = hex_digits::one(text, 0);
    let station = hex_digits::four(text, 8) as u16;
    let burst = hex_digits::eight(text, 13) as u32;
    if call == 0 {
        let first = label_build::build_first(station, burst, hex_digits::byte(text, 24));
        return built(text, &first);
    }
    if call == 1 {
        let second = label_build::build_second(station, burst, hex_digits::four(text, 22) as u16);
        return built(text, &second);
    }
    let label = label_of(text);
    reads_part(text, &label, call)
}
