// Refusals as enums, each case with its number.
ghost use Rattle.std.specs.Prelude.{◌≡◌};
ghost use Rattle.memory.specs.Answers.{Cause};

// A kind of refusal: each case has the number of its cause, and the values that it returns.
pub trait Refusal {
    ghost cause: { Self → Cause };

    // The number of the cause.
    fn number(&self) -> u8
        ensures { result ≡ (cause self.now).number };
}
