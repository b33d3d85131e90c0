// Why a run stops before its end.
use std::alloc::AllocError;
use std::io;

#[derive(Drop)]
pub enum Stop {
    // A read or a write has failed, which has been told.
    Told,
    OutOfMemory,
    // The line that a file has next, if it has one, and the outcome that came, if one did.
    Differs(Option<Vec<u8>>, Option<String>),
}

impl From<io::Error> for Stop {
    fn from(_error: io::Error) -> Stop {
        Stop::Told
    }
}

impl From<AllocError> for Stop {
    fn from(_error: AllocError) -> Stop {
        Stop::OutOfMemory
    }
}
