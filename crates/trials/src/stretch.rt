// A stretch of bytes that have one value.
ghost use Rattle.std.specs.Prelude.{◌≡◌, ◌+◌, ◌-◌, ◌++◌, length, take, drop, min, replicate};

// One value over so many bytes from an address on.
#[derive(Clone, Copy, PartialEq, Eq, Debug)]
pub struct Stretch {
    pub address: usize,
    pub length: usize,
    pub value: u8,
}

impl Stretch {
    // Writes the value over the stretch, as far as the bytes reach.
    pub fn fill(self, bytes: &mut [u8])
        ensures { bytes.new ≡ take self.address bytes.old ++ (replicate (min self.length (length bytes.old - self.address)) self.value ++ drop (self.address + self.length) bytes.old) }
    {
        let from = self.address.min(bytes.len());
        let count = self.length.min(bytes.len() - from);
        bytes[from..from + count].fill(self.value);
    }
}
