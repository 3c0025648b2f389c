// Numbers that look random, and are the same in each run.
#![tactic(auto)]

ghost use Rattle.std.specs.Prelude.{◌≡◌, ◌/◌, ◌^◌, ◌<◌};
ghost use Rattle.seeded.specs.Random.{stepped, steps, upper_bytes};

// Marsaglia's xorshift of 64 bits.
#[derive(Clone, Copy)]
pub struct Random {
    state: u64,
}

impl Random {
    // From a seed of 0 every number is 0.
    pub fn new(seed: u64) -> Random
        ensures { result.state ≡ seed }
    {
        Random { state: seed }
    }

    // The next number, which is 0 only from a seed of 0.
    pub fn next(&mut self) -> u64
        ensures number { result ≡ stepped self.old.state }
        ensures state { self.new.state ≡ stepped self.old.state }
        ensures goes_on { 0 < self.old.state → 0 < self.new.state }
    {
        self.state ^= self.state << 13;
        self.state ^= self.state >> 7;
        self.state ^= self.state << 17;
        self.state
    }

    // The upper half of the next number.
    pub fn longword(&mut self) -> u32
        ensures number { result ≡ stepped self.old.state / 2 ^ 32 }
        ensures state { self.new.state ≡ stepped self.old.state }
    {
        (self.next() >> 32) as u32
    }

    // The upper byte of the next number.
    pub fn byte(&mut self) -> u8
        ensures number { result ≡ stepped self.old.state / 2 ^ 56 }
        ensures state { self.new.state ≡ stepped self.old.state }
    {
        (self.next() >> 56) as u8
    }

    // The upper bytes of the next 32 numbers.
    pub fn line(&mut self) -> [u8; 32]
        ensures bytes { result ≡ upper_bytes 32 self.old.state }
        ensures state { self.new.state ≡ steps 32 self.old.state }
    {
        let mut bytes = [0; 32];
        for byte in bytes.iter_mut() {
            *byte = self.byte();
        }
        bytes
    }
}
