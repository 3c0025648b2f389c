// What may stop the load.
use bridge::processor::AccessRefusal;
use bridge::registers::RegisterRefusal;
use memory::banks::BankListRefusal;
use memory::marks::MarkRefusal;
use std::alloc::AllocError;
use std::io;

// Why the load stops: the machine has no memory, printing or the clock fails, or the set-up of a row is refused.
#[derive(Debug, Drop)]
pub enum SpeedError {
    Memory,
    Io(io::Error),
    Banks(BankListRefusal),
    Mark(MarkRefusal),
    Register(RegisterRefusal),
    Access(AccessRefusal),
}

impl From<AllocError> for SpeedError {
    fn from(_: AllocError) -> SpeedError {
        SpeedError::Memory
    }
}

impl From<io::Error> for SpeedError {
    fn from(error: io::Error) -> SpeedError {
        SpeedError::Io(error)
    }
}

impl From<BankListRefusal> for SpeedError {
    fn from(refusal: BankListRefusal) -> SpeedError {
        SpeedError::Banks(refusal)
    }
}

impl From<MarkRefusal> for SpeedError {
    fn from(refusal: MarkRefusal) -> SpeedError {
        SpeedError::Mark(refusal)
    }
}

impl From<RegisterRefusal> for SpeedError {
    fn from(refusal: RegisterRefusal) -> SpeedError {
        SpeedError::Register(refusal)
    }
}

impl From<AccessRefusal> for SpeedError {
    fn from(refusal: AccessRefusal) -> SpeedError {
        SpeedError::Access(refusal)
    }
}
