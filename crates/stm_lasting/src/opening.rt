//! Opening the file of a world.
ghost use Rattle.std.specs.Prelude.{◌≡◌, ◌⊎◌, ◌<◌, ◌≤◌, ℕ, None, Some, length, IfOk, IfErr, OnOk, IsTrue};
ghost use Rattle.stm_records.specs.Disk.{Only, LeavesOnly};
ghost use Rattle.stm_records.specs.Head.{IsHurt};
ghost use Rattle.stm_records.specs.RecordFiles.{payloads_of, OpensAlike};
ghost use Rattle.stm_lasting.specs.Kept.{world_in, IsKept, OpensTo, LeadsNowhere, HasRecords};

use crate::fault::KeptFault;
use crate::replay::{ReplayFault, world_of};
use std::alloc::Global;
use stm_records::{Disk, DiskFault, Opened};
use stm_retry::World;

/// A world that a file leads to.
#[derive(Drop)]
pub struct Kept {
    /// The world.
    pub world: World,
    /// The length of the file, once a torn end is cut off.
    pub end: usize,
    /// How many records it has.
    pub count: usize,
}

/// What a fault of the records is called here.
fn fault_of(fault: DiskFault) -> KeptFault
    ensures damaged { (at : ℕ) → result ≡ KeptFault.Damaged at → fault ≡ DiskFault.Damaged at }
    ensures spelled { (at : ℕ) → result ≡ KeptFault.NoScenario at → ⊥ }
    ensures failed { result ≡ KeptFault.Failed → (fault ≡ DiskFault.Failed) ⊎ (fault ≡ DiskFault.Full) }
{
    match fault {
        DiskFault::OutOfMemory => KeptFault::OutOfMemory,
        DiskFault::Failed | DiskFault::Full => KeptFault::Failed,
        DiskFault::Damaged(at) => KeptFault::Damaged(at),
    }
}

/// The world that the records of a file lead to. `NoScenario`: they lead to none.
fn kept_of(alloc: Global, opened: Opened) -> Result<Kept, KeptFault>
    ensures world { IfOk result (λ kept. world_in (payloads_of opened) ≡ Some kept.world) }
    ensures end { IfOk result (λ kept. kept.end ≡ opened.end) }
    ensures count { IfOk result (λ kept. kept.count ≡ length (payloads_of opened)) }
    ensures nowhere { IfErr result (λ e. (at : ℕ) → e ≡ KeptFault.NoScenario at → world_in (payloads_of opened) ≡ None) }
    ensures hurt { IfErr result (λ e. (at : ℕ) → e ≡ KeptFault.Damaged at → ⊥) }
    ensures failed { IfErr result (λ e. e ≡ KeptFault.Failed → ⊥) }
{
    match world_of(alloc, &opened.bytes, opened.places.as_slice()) {
        Ok(world) => Ok(Kept {
            world,
            end: opened.end,
            count: opened.places.len(),
        }),
        Err(ReplayFault::OutOfMemory) => Err(KeptFault::OutOfMemory),
        Err(ReplayFault::NoScenario(at)) => Err(KeptFault::NoScenario(at)),
    }
}

/// Opens the file of a world, also one that a crash has left, and cuts off a torn end. The bytes are those that the disk was opened with. A file with no
/// bytes has no records, and its world an empty store.
///
/// `Damaged`: a record is not as it was written. Nothing behind it is served, nothing is changed, and its offset is told. `NoScenario`: the record at this
/// offset is whole, and spells no scenario, nor, as the first one, a checkpoint; the records lead to no world. `Failed`: the disk failed at the repair.
/// `OutOfMemory`. After each of them the file opens, later, to what it would have: what is refused is not changed, but for a torn end.
pub fn open<D: Disk>(alloc: Global, disk: &mut D, bytes: Vec<u8>) -> Result<Kept, KeptFault>
    requires bytes { bytes.items ≡ D.seen disk.old }
    // After a restart, what is read is what is on the disk.
    requires durable { Only (D.seen disk.old) (D.may_leave disk.old) }

    requires usable { IsTrue (D.is_usable disk.old) }

    ensures usable { OnOk result (IsTrue (D.is_usable disk.new)) }
    ensures durable { OnOk result (Only (D.seen disk.new) (D.may_leave disk.new)) }
    ensures end { IfOk result (λ kept. kept.end ≡ length (D.seen disk.new)) }
    ensures count { IfOk result (λ kept. HasRecords (D.seen disk.new) kept.count) }

    // The world is the one that the file, as it was found, opens to, and that it leads to now.
    ensures opens { IfOk result (λ kept. OpensTo (D.seen disk.old) kept.world) }
    ensures kept { IfOk result (λ kept. IsKept (D.seen disk.new) kept.world) }

    ensures hurt { IfErr result (λ e. (at : ℕ) → e ≡ KeptFault.Damaged at → IsHurt (D.seen disk.old) at
        × LeavesOnly D.moment D.left_since disk.old disk.new (λ c. c ≡ D.seen disk.old)) }
    ensures nowhere { IfErr result (λ e. (at : ℕ) → e ≡ KeptFault.NoScenario at → LeadsNowhere (D.seen disk.old)) }
    ensures later { D.faults disk.old ≤ D.faults disk.new }
    ensures failed { IfErr result (λ e. e ≡ KeptFault.Failed → D.faults disk.old < D.faults disk.new) }

    // A crash at any moment leaves a file that opens to the same records, and so to the same world or to none. One that is not opened is left as it is.
    ensures any_moment { LeavesOnly D.moment D.left_since disk.old disk.new (OpensAlike (D.seen disk.old)) }
{
    match stm_records::open(alloc, disk, bytes) {
        Ok(opened) => kept_of(alloc, opened),
        Err(fault) => Err(fault_of(fault)),
    }
}
