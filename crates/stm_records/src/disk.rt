//! What a disk does: a file under a name and a next one, what stands in them, and what a crash may leave.
ghost use Rattle.std.specs.Prelude.{◌≡◌, ◌⊎◌, ◌≤◌, List, ℕ, Bool, length, take, OnOk, IsTrue};
ghost use Rattle.stm_records.specs.Disk.{Only, Follows, Torn, Cut, Holds, Elapses, HasCause};

use crate::fault::DiskFault;

/// A file under a name, and a next one that may take the name.
///
/// A call may fail at any time, and a crash may come at any time: `left_since` is what each crash from a moment on might have left under the name, also
/// one in the midst of a call. After a call that failed nothing more may be asked, since a part of its work may stand in the file.
pub trait Disk {
    /// The bytes of the file under the name.
    ghost seen: { Self → List ℕ };

    /// No call has failed. After one has, nothing more may be asked: a part of its work may stand in the file.
    ghost is_usable: { Self → Bool };

    /// What a crash at this moment may leave under the name.
    ghost may_leave: { Self → List ℕ → Type 0 };

    /// The moment, as a number that doesn't fall.
    ghost moment: { Self → ℕ };

    /// What a crash at some moment from that one on might have left, during a call or between two.
    ghost left_since: { Self → ℕ → List ℕ → Type 0 };

    /// How often the disk has failed.
    ghost faults: { Self → ℕ };

    /// The bytes of the next file.
    ghost next: { Self → List ℕ };

    /// What the next file may hold after a crash.
    ghost next_may: { Self → List ℕ → Type 0 };

    /// Writes over what is there, and past the end. Until a sync, a crash may leave any bytes in the range.
    fn write_at(&mut self, at: usize, bytes: &[u8]) -> Result<(), DiskFault>
        requires at { at ≤ length (seen self.old) }
        requires usable { IsTrue (is_usable self.old) }
        ensures written { OnOk result (Holds (seen self.old) at bytes.now (seen self.new)) }
        ensures crash { Follows (Torn at (length bytes.now)) (may_leave self.old) (may_leave self.new) }
        ensures time { Elapses (moment self.old) (moment self.new) (left_since self.old) (left_since self.new) (may_leave self.new) }
        ensures usable { OnOk result (IsTrue (is_usable self.new)) }
        ensures cause { HasCause (faults self.old) (faults self.new) result };

    /// Cuts the file to a length.
    fn cut(&mut self, len: usize) -> Result<(), DiskFault>
        requires len { len ≤ length (seen self.old) }
        requires usable { IsTrue (is_usable self.old) }
        ensures cut { OnOk result (seen self.new ≡ take len (seen self.old)) }
        ensures crash { Follows (Cut len) (may_leave self.old) (may_leave self.new) }
        ensures time { Elapses (moment self.old) (moment self.new) (left_since self.old) (left_since self.new) (may_leave self.new) }
        ensures usable { OnOk result (IsTrue (is_usable self.new)) }
        ensures cause { HasCause (faults self.old) (faults self.new) result };

    /// After it, a crash leaves the file as it is seen. It syncs the file, and after a `rename` the folder too.
    fn sync(&mut self) -> Result<(), DiskFault>
        requires { IsTrue (is_usable self.old) }
        ensures durable { OnOk result (Only (seen self.old) (may_leave self.new)) }
        ensures seen { seen self.new ≡ seen self.old }
        ensures crash { (c : List ℕ) → may_leave self.new c → may_leave self.old c }
        ensures time { Elapses (moment self.old) (moment self.new) (left_since self.old) (left_since self.new) (may_leave self.new) }
        ensures usable { OnOk result (IsTrue (is_usable self.new)) }
        ensures cause { HasCause (faults self.old) (faults self.new) result };

    /// Makes the next file, in place of one that may be there, with these bytes.
    fn write_next(&mut self, bytes: &[u8]) -> Result<(), DiskFault>
        requires { IsTrue (is_usable self.old) }
        ensures written { OnOk result (next self.new ≡ bytes.now) }
        ensures seen { seen self.new ≡ seen self.old }
        ensures crash { (c : List ℕ) → may_leave self.new c → may_leave self.old c }
        ensures time { Elapses (moment self.old) (moment self.new) (left_since self.old) (left_since self.new) (may_leave self.new) }
        ensures usable { OnOk result (IsTrue (is_usable self.new)) }
        ensures cause { HasCause (faults self.old) (faults self.new) result };

    /// After it, a crash leaves the next file as it is.
    fn sync_next(&mut self) -> Result<(), DiskFault>
        requires { IsTrue (is_usable self.old) }
        ensures durable { OnOk result (Only (next self.old) (next_may self.new)) }
        ensures next { next self.new ≡ next self.old }
        ensures seen { seen self.new ≡ seen self.old }
        ensures crash { (c : List ℕ) → may_leave self.new c → may_leave self.old c }
        ensures time { Elapses (moment self.old) (moment self.new) (left_since self.old) (left_since self.new) (may_leave self.new) }
        ensures usable { OnOk result (IsTrue (is_usable self.new)) }
        ensures cause { HasCause (faults self.old) (faults self.new) result };

    /// Gives the next file the name. Until a sync, a crash may leave the old file there, or the next one.
    fn rename(&mut self) -> Result<(), DiskFault>
        requires { IsTrue (is_usable self.old) }
        ensures renamed { OnOk result (seen self.new ≡ next self.old) }
        ensures crash { (c : List ℕ) → may_leave self.new c → may_leave self.old c ⊎ next_may self.old c }
        ensures time { Elapses (moment self.old) (moment self.new) (left_since self.old) (left_since self.new) (may_leave self.new) }
        ensures usable { OnOk result (IsTrue (is_usable self.new)) }
        ensures cause { HasCause (faults self.old) (faults self.new) result };

    /// This moment is one of those since an earlier one.
    ghost counts_now: { (file : Self) (t : ℕ) (c : List ℕ) → t ≤ moment file → may_leave file c → left_since file t c };

    /// Since this moment there is no other.
    ghost only_now: { (file : Self) (c : List ℕ) → left_since file (moment file) c → may_leave file c };
}
