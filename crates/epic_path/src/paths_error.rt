//! Why there is no list of paths.
use std::alloc::AllocError;

/// Why there is no list of paths.
#[derive(Clone, Copy, Debug, PartialEq, Eq)]
pub enum PathsError {
    /// There are more paths than were asked for.
    TooMany,
    /// Memory was wanting.
    OutOfMemory,
}

impl From<AllocError> for PathsError {
    ghost use Rattle.std.specs.Prelude.{◌≡◌};
    ghost use Rattle.epic_path.specs.declared.paths_error.PathsError.TheVariants.{OutOfMemory};

    ghost from_gives = { λ _ e. e ≡ OutOfMemory };

    fn from(_error: AllocError) -> PathsError {
        PathsError::OutOfMemory
    }
}
