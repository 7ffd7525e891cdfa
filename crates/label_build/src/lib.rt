// Frame labels built from their fields, the highest byte of each first.
#![tactic(auto)]

ghost use Rattle.std.specs.Prelude.{◌≡◌, ◌++◌};
ghost use Rattle.label_said.specs.Label.{first, second, fields, high_first, label_of};

// The six bytes that both editions have behind the first: station and burst.
fn station_and_burst(station: u16, burst: u32) -> [u8; 6]
    ensures { result ≡ high_first 2 station ++ high_first 4 burst }
{
    [
        (station / 0x100) as u8,
        (station % 0x100) as u8,
        (burst / 0x100_0000) as u8,
        (burst / 0x1_0000 % 0x100) as u8,
        (burst / 0x100 % 0x100) as u8,
        (burst % 0x100) as u8,
    ]
}

// A label of edition 1: its frame is one byte.
pub fn build_first(station: u16, burst: u32, frame: u8) -> [u8; 8]
    ensures { result ≡ label_of first (fields station burst frame) }
{
    let m = station_and_burst(station, burst);
    [1, m[0], m[1], m[2], m[3], m[4], m[5], frame]
}

// A label of edition 2: its frame is two bytes.
pub fn build_second(station: u16, burst: u32, frame: u16) -> [u8; 9]
    ensures { result ≡ label_of second (fields station burst frame) }
{
    let m = station_and_burst(station, burst);
    let high = (frame / 0x100) as u8;
    let low = (frame % 0x100) as u8;
    [2, m[0], m[1], m[2], m[3], m[4], m[5], high, low]
}
