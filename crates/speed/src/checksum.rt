// A checksum that depends on every number added to it, and on their order.
#[derive(Clone, Copy)]
pub struct Checksum {
    value: u64,
}

impl Checksum {
    // Nothing is added yet.
    pub(crate) fn new() -> Checksum {
        Checksum { value: 0 }
    }

    // Adds a number.
    pub(crate) fn add(&mut self, n: u64) {
        self.value = (self.value.rotate_left(7) ^ n).wrapping_mul(0x9e37_79b9_7f4a_7c15);
    }

    // The checksum of what was added so far.
    pub(crate) fn value(&self) -> u64 {
        self.value
    }
}
