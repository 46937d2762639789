//! Devices: where bytes are read from and written to, and whole transfers.
#![tactic(auto)]

mod devices;
mod transfer;

pub use devices::{DeviceFault, Sink, Source, Std};
pub use transfer::{MOST_READ, ReadFault, read_all, write_all};
