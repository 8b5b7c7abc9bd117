// Why no venue is built: the line is refused, or there is no memory once the line is judged sound.
ghost use Rattle.std.specs.Prelude.{◌≡◌};
ghost use Rattle.gate.specs.declared.build_error.BuildError.TheVariants.{Refused, OutOfMemory};

use market::refusal::Refusal;
use std::alloc::AllocError;

#[derive(Clone, Copy, PartialEq, Eq, Debug)]
pub enum BuildError {
    Refused(Refusal),
    OutOfMemory,
}

impl From<Refusal> for BuildError {
    ghost from_gives = { λ refusal error. error ≡ Refused refusal };

    fn from(refusal: Refusal) -> BuildError {
        BuildError::Refused(refusal)
    }
}

impl From<AllocError> for BuildError {
    ghost from_gives = { λ _ error. error ≡ OutOfMemory };

    fn from(_: AllocError) -> BuildError {
        BuildError::OutOfMemory
    }
}
