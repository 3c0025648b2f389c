// What the calls are drawn by.
ghost use Rattle.std.specs.Prelude.{◌<◌, length};

use seeded::Random;

pub(crate) trait Draws {
    // A number below the bound.
    fn below(&mut self, bound: u64) -> u64
        requires { 0 < bound }
        ensures { result < bound };

    // One time in `times`.
    fn once_in(&mut self, times: u64) -> bool
        requires { 0 < times };

    // One of the choices.
    fn pick<T: Copy>(&mut self, choices: &[T]) -> T
        requires { 0 < length choices.now };
}

impl Draws for Random {
    fn below(&mut self, bound: u64) -> u64 {
        self.next() % bound
    }

    fn once_in(&mut self, times: u64) -> bool {
        self.below(times) == 0
    }

    fn pick<T: Copy>(&mut self, choices: &[T]) -> T {
        choices[self.below(choices.len() as u64) as usize]
    }
}
