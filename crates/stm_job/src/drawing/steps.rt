//! What a table and its seats do.
ghost use Rattle.std.specs.Prelude.{◌≡◌, ◌^◌, ◌<◌, ◌≤◌, IfOk, MatchOption};
ghost use Rattle.stm_job.specs.Draw.{size_of, newcomer, drew, after_none, kept, given, joined, Knows};
ghost use Rattle.stm_job.specs.Seats.{table_size, seat_view, IsSeatOf};

use crate::drawing::rule::{Both, Drawing, Looking, OnePass};
use crate::drawing::table::{JobSeat, JobTable};
use crate::drawing::view::Size;
use atomic_table::Table;
use std::alloc::{AllocError, Global};

impl JobTable {
    /// A table of the jobs from 0 to `jobs` - 1, and its first seat, which has a pass for each of the `seats` that are to share it.
    /// `AllocError`: an allocation failed.
    pub fn new(alloc: Global, jobs: usize, seats: usize) -> Result<(JobTable, JobSeat), AllocError>
        requires { (jobs < 2 ^ 63) × (seats < 2 ^ 63) × (0 < seats) }
        ensures { IfOk result (λ made. (table_size made.0 ≡ size_of jobs seats) × IsSeatOf made.0 made.1 × (seat_view made.1 ≡ newcomer (size_of jobs seats))) }
    {
        let size = Size { jobs, seats };
        let (table, seat) = Table::of_words(alloc, &[0], &size)?;
        let table = JobTable { table, size };
        let seat = JobSeat { seat, left: seats };
        Ok((table, seat))
    }

    /// Draws the next job, by one step on the counter. `None`: every job was drawn, and the seat has used one pass more; or the seat has no
    /// pass left, and nothing was done.
    pub fn draw(&self, seat: &mut JobSeat) -> Option<usize>
        requires { IsSeatOf self.now seat.old }
        ensures seat { IsSeatOf self.now seat.new }
        ensures drawn { MatchOption result (seat_view seat.new ≡ after_none (seat_view seat.old)) (λ job. (0 < (seat_view seat.old).left)
            × (job < (table_size self.now).jobs) × (seat_view seat.new ≡ drew (seat_view seat.old) job)) }
    {
        if seat.left == 0 {
            return None;
        }
        let found = self.table.shared.fetch_add::<Drawing>(&mut seat.seat, 0, 1) as usize;
        if found < self.size.jobs {
            return Some(found);
        }
        seat.left -= 1;
        None
    }

    /// Makes a new seat, which gets one pass of this one's and has drawn nothing.
    pub fn split(&self, seat: &mut JobSeat) -> JobSeat
        requires seat { IsSeatOf self.now seat.old }
        requires left { 2 ≤ (seat_view seat.old).left }
        ensures kept { IsSeatOf self.now seat.new × (seat_view seat.new ≡ kept (seat_view seat.old)) }
        ensures given { IsSeatOf self.now result × (seat_view result ≡ given (seat_view seat.old)) }
    {
        let other = self.table.shared.split_seat::<OnePass>(&mut seat.seat);
        seat.left -= 1;
        JobSeat {
            seat: other,
            left: 1,
        }
    }

    /// Takes in what another seat of this table has drawn, and its passes.
    pub fn join(&self, seat: &mut JobSeat, other: JobSeat)
        requires { IsSeatOf self.now seat.old × IsSeatOf self.now other }
        ensures seat { IsSeatOf self.now seat.new }
        ensures view { seat_view seat.new ≡ joined (seat_view seat.old) (seat_view other) }
        ensures known { Knows (seat_view seat.new) }
    {
        let JobSeat { seat: taken, left } = other;
        let shared = &self.table.shared;
        shared.join_seat::<Both>(&mut seat.seat, taken);
        // By the look's contract the passes are among the table's, so the sum fits.
        shared.load::<Looking>(&mut seat.seat, 0);
        seat.left += left;
    }
}

impl JobSeat {
    /// How many passes the seat has left: draws with it that may yet find no job.
    pub fn left(&self) -> usize
        ensures left { result ≡ (seat_view self.now).left }
        ensures known { Knows (seat_view self.now) }
    {
        self.left
    }
}
