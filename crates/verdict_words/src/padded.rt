//! A number that one thread writes all the time.
ghost use Rattle.std.specs.Prelude.{◌≡◌};

/// A number with 64 unused bytes on each side, so that wherever it lies nothing else is on its cache line. Else each look
/// of one thread, which writes the number, would take the line from the threads whose passes lie beside.
#[derive(Drop)]
#[repr(C)]
pub struct Padded {
    before: [u64; 8],
    pub value: u64,
    after: [u64; 8],
}

impl Padded {
    pub fn new(value: u64) -> Padded
        ensures { result.value ≡ value }
    {
        Padded {
            before: [0; 8],
            value,
            after: [0; 8],
        }
    }
}
