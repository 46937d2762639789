//! Why a call is refused.
ghost use Rattle.std.specs.Prelude.{◌≡◌};
ghost use Rattle.stm_leases.specs.GrantNames.{grant_error_name};
ghost use Rattle.stm_leases.specs.KeysNames.{keys_error_name};

use std::alloc::AllocError;
use std::error::Error;
use std::fmt;

/// Why a grant is refused. Where several causes hold, the first of them in this order is answered.
#[derive(Debug, Clone, Copy, PartialEq, Eq)]
pub enum GrantError {
    /// The id is not from 1 to `HIGHEST_ID`.
    LeaseIdOutOfRange,
    /// The time to live is not from 1 second to `HIGHEST_TTL` seconds.
    TtlOutOfRange,
    /// The id is live.
    LeaseExists,
    /// A growth was refused.
    OutOfMemory,
}

impl GrantError {
    /// The name of the refusal, as a report spells it.
    pub fn name(self) -> &'static str
        ensures { result.now ≡ grant_error_name self }
    {
        match self {
            GrantError::LeaseIdOutOfRange => "LeaseIdOutOfRange",
            GrantError::TtlOutOfRange => "TtlOutOfRange",
            GrantError::LeaseExists => "LeaseExists",
            GrantError::OutOfMemory => "OutOfMemory",
        }
    }
}

impl fmt::Display for GrantError {
    ghost use Rattle.std.specs.Prelude.{Some};
    ghost use Rattle.stm_leases.specs.GrantNames.{grant_error_name};

    ghost output = { λ error. Some (grant_error_name error) };

    fn fmt<W: fmt::Write>(&self, f: &mut fmt::Formatter<W>) -> fmt::Result {
        fmt::Display::fmt(&self.name(), f)
    }
}

impl Error for GrantError {}

/// The lease id is not live.
#[derive(Debug, Clone, Copy, PartialEq, Eq)]
pub struct LeaseNotFound;

impl fmt::Display for LeaseNotFound {
    ghost use Rattle.std.specs.Prelude.{Some, codes};

    ghost output = { λ _. Some (codes "LeaseNotFound") };

    fn fmt<W: fmt::Write>(&self, f: &mut fmt::Formatter<W>) -> fmt::Result {
        fmt::Display::fmt(&"LeaseNotFound", f)
    }
}

impl Error for LeaseNotFound {}

/// Why the keys of a lease are not returned.
#[derive(Debug, Clone, Copy, PartialEq, Eq)]
pub enum KeysError {
    /// The id is not live.
    LeaseNotFound,
    /// A growth was refused.
    OutOfMemory,
}

impl From<AllocError> for KeysError {
    ghost use Rattle.stm_leases.specs.declared.errors.KeysError.TheVariants.{OutOfMemory};
    ghost use Rattle.std.specs.Prelude.{◌≡◌};

    ghost from_gives = { λ _ made. made ≡ OutOfMemory };

    fn from(_: AllocError) -> KeysError {
        KeysError::OutOfMemory
    }
}

impl KeysError {
    /// The name of the cause, as a report spells it.
    pub fn name(self) -> &'static str
        ensures { result.now ≡ keys_error_name self }
    {
        match self {
            KeysError::LeaseNotFound => "LeaseNotFound",
            KeysError::OutOfMemory => "OutOfMemory",
        }
    }
}

impl fmt::Display for KeysError {
    ghost use Rattle.std.specs.Prelude.{Some};
    ghost use Rattle.stm_leases.specs.KeysNames.{keys_error_name};

    ghost output = { λ error. Some (keys_error_name error) };

    fn fmt<W: fmt::Write>(&self, f: &mut fmt::Formatter<W>) -> fmt::Result {
        fmt::Display::fmt(&self.name(), f)
    }
}

impl Error for KeysError {}
