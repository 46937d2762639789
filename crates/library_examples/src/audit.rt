//! An audit: whether each commit of the trace on standard input is what its level promises. A trace is written down elsewhere, as `etcd/stmprogram/tracing` does
//! it beside a real etcd.
use std::io::Input;
use stm_audit::{Std, audit_to};

/// Audits the trace, and gives the status that a command ends with.
pub(crate) fn run(rt: &HostRuntime) -> u8 {
    let mut input = Std::new(rt.reader());
    let mut out = Std::new(rt.stdout());
    let mut err = Std::new(rt.stderr());
    audit_to(rt.alloc(), &mut input, &mut out, &mut err)
}
