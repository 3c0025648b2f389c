// A flat memory: n bytes from address 0, whole lines only, never spoiled.
ghost use Rattle.std.specs.Prelude.{◌≡◌, replicate, IfOk, vec_len};
ghost use Rattle.memory.specs.Layers.{lines_laid};
ghost use Rattle.memory.specs.Layouts.{flat, from_zero};
ghost use Rattle.std.proofs.Common.{rules};

use crate::layout::{LINES, Laid, Layout, Run};
use std::alloc::{AllocError, Global};

// Line k begins at byte 32 k.
#[derive(Clone, Copy)]
pub struct FromZero;

impl Layout for FromZero {
    ghost place = { λ _. from_zero };

    ghost apart = { Prim.search rules };

    ghost below = { Prim.search rules };

    fn run_of(&self, line: u64) -> Option<Run> {
        (line < LINES).then(|| Run {
            at: line as usize * 32,
            end: LINES as usize * 32,
        })
    }
}

// Bytes from address 0 on: line k is there if all of its bytes are, and it is below C000000h.
pub type Flat = Laid<FromZero>;

impl Flat {
    // A flat memory of the given bytes.
    pub fn of_bytes(bytes: Vec<u8>) -> Flat
        ensures { lines_laid (λ _. from_zero) result ≡ flat (vec_len bytes) bytes.items }
    {
        Laid::new(FromZero, bytes)
    }

    // A flat memory of n zero bytes.
    pub fn zeros(heap: Global, n: usize) -> Result<Flat, AllocError>
        ensures { IfOk result (λ m. lines_laid (λ _. from_zero) m ≡ flat n (replicate n 0)) }
    {
        Laid::over_zeros(heap, FromZero, n)
    }
}
