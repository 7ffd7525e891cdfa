// Frame labels for C: built into bytes that the caller lends, which is never refused, and read from any bytes.
ghost use Rattle.std.specs.Prelude.{◌≡◌, [], ◌∷◌};
ghost use Rattle.label_said.specs.Label.{first, second, fields, label_of};
ghost use Rattle.label_said.specs.Read.{read_said, read_first_said};
ghost use Rattle.crossing.specs.Told.{CrossedBoth};

use label_crossing::{give_first_label, give_label};

// Writes the label of edition 1 with these fields.
#[unsafe(no_mangle)]
pub extern "C" fn cherchivola_label_build_first(
    station: u16,
    burst: u32,
    frame: u8,
    label: &mut [u8; 8],
)
    ensures { label.new ≡ label_of first (fields station burst frame) }
{
    let built = label_build::build_first(station, burst, frame);
    *label = built;
}

// Writes the label of edition 2 with these fields.
#[unsafe(no_mangle)]
pub extern "C" fn cherchivola_label_build_second(
    station: u16,
    burst: u32,
    frame: u16,
    label: &mut [u8; 9],
)
    ensures { label.new ≡ label_of second (fields station burst frame) }
{
    let built = label_build::build_second(station, burst, frame);
    *label = built;
}

// Reads a label of either edition, and tells its edition and fields; refused, its edition byte.
#[unsafe(no_mangle)]
pub extern "C" fn cherchivola_label_read(
    label: &[u8],
    edition: &mut u8,
    station: &mut u16,
    burst: &mut u32,
    frame: &mut u16,
    told: &mut u64,
) -> u64
    ensures { CrossedBoth (read_said label.now) result
        (edition.old ∷ station.old ∷ burst.old ∷ frame.old ∷ [])
        (edition.new ∷ station.new ∷ burst.new ∷ frame.new ∷ [])
        (told.old ∷ []) (told.new ∷ []) }
{
    give_label(
        label_read::read(label),
        edition,
        station,
        burst,
        frame,
        told,
    )
}

// Reads a label as a reader of edition 1 alone does, and tells its fields; refused, its edition byte.
#[unsafe(no_mangle)]
pub extern "C" fn cherchivola_label_read_first(
    label: &[u8],
    station: &mut u16,
    burst: &mut u32,
    frame: &mut u8,
    told: &mut u64,
) -> u64
    ensures { CrossedBoth (read_first_said label.now) result
        (station.old ∷ burst.old ∷ frame.old ∷ [])
        (station.new ∷ burst.new ∷ frame.new ∷ [])
        (told.old ∷ []) (told.new ∷ []) }
{
    give_first_label(label_read::read_first(label), station, burst, frame, told)
}
