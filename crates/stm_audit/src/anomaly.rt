//! The names of anomalies.
ghost use Rattle.std.specs.Prelude.{◌≡◌};
ghost use Rattle.stm_audit.specs.AnomalyNames.{anomaly_name};

use std::fmt;

/// What is wrong with a commit.
///
/// (Berenson and others, "A Critique of ANSI SQL Isolation Levels", 1995: P4, A5A and A5B; Adya, "Weak Consistency", 1999: G1. The other two are what etcd's
/// client promises beyond those.)
#[derive(Clone, Copy, Debug, PartialEq, Eq)]
pub enum Anomaly {
    /// A read says what its key never was at the revision that it is of: it shows a write that was not committed (G1).
    DirtyRead,
    /// A key that was read and then written had been changed between (P4).
    LostUpdate,
    /// One read shows its key as it was before a change, and another one a change made with it or later (A5A).
    FracturedRead,
    /// Two transactions each wrote what the other one had read (A5B).
    WriteSkew,
    /// A key that was read had been changed before the commit, and none of the above came of it.
    StaleRead,
    /// A key that was written had been put after the transaction's first read, which is the one of the least revision.
    BlindWrite,
}

impl Anomaly {
    /// Its name.
    pub fn name(self) -> &'static str
        ensures { result.now ≡ anomaly_name self }
    {
        match self {
            Anomaly::DirtyRead => "DirtyRead",
            Anomaly::LostUpdate => "LostUpdate",
            Anomaly::FracturedRead => "FracturedRead",
            Anomaly::WriteSkew => "WriteSkew",
            Anomaly::StaleRead => "StaleRead",
            Anomaly::BlindWrite => "BlindWrite",
        }
    }
}

impl fmt::Display for Anomaly {
    ghost use Rattle.std.specs.Prelude.{Some};
    ghost use Rattle.stm_audit.specs.AnomalyNames.{anomaly_name};

    ghost output = { λ anomaly. Some (anomaly_name anomaly) };

    fn fmt<W: fmt::Write>(&self, f: &mut fmt::Formatter<W>) -> fmt::Result {
        f.write_str(self.name())
    }
}
