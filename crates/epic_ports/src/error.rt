//! Why a port did nothing.

ghost use Rattle.std.specs.Prelude.{◌≡◌};
ghost use Rattle.epic_ports.specs.declared.error.PortError.TheVariants as port_error;
ghost use Rattle.epic_ports.specs.declared.error.ReadError.TheVariants as read_error;

use std::alloc::AllocError;
use thiserror::Error;

/// Why a call of a store or a sink did nothing.
#[derive(Debug, Clone, Copy, PartialEq, Eq, Error)]
pub enum PortError {
    /// The read or the write failed, which the object counted.
    #[error("the read or the write failed")]
    Failed,
    /// Memory ran out.
    #[error("out of memory")]
    OutOfMemory,
}

impl From<AllocError> for PortError {
    ghost from_gives = { λ _ e. e ≡ port_error.OutOfMemory };

    fn from(_e: AllocError) -> PortError {
        PortError::OutOfMemory
    }
}

/// Why a file was not read whole.
#[derive(Debug, Clone, Copy, PartialEq, Eq, Error)]
pub enum ReadError {
    /// A read failed, which the store counted at the file's name.
    #[error("the read failed")]
    Failed,
    /// The file is longer than the limit.
    #[error("the file is too long")]
    TooLong,
    /// Memory ran out.
    #[error("out of memory")]
    OutOfMemory,
}

impl From<AllocError> for ReadError {
    ghost from_gives = { λ _ e. e ≡ read_error.OutOfMemory };

    fn from(_e: AllocError) -> ReadError {
        ReadError::OutOfMemory
    }
}
