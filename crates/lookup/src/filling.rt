// Filling, reading and emptying a table.
ghost use Rattle.std.specs.Prelude.{◌≡◌, [], slice_set};
ghost use Rattle.std.specs.Fn.{CalledAt};
ghost use Rattle.std.specs.List.Retain.{IsFiltered};
ghost use Rattle.lookup.specs.Found.{Found};
ghost use Rattle.lookup.specs.Rows.{rows};
ghost use Rattle.lookup.specs.Sorts.{Enters, Puts, RanksAt};

use crate::sorted::{Ranked, Unplaced, insert_sorted, retain};
use crate::table::Table;

impl<R: Ranked + Copy, const N: usize> Table<R, N> {
    /// No records; which one fills the places does not matter.
    pub fn new(filler: R) -> Table<R, N>
        ensures { rows result ≡ [] }
    {
        Table {
            records: [filler; N],
            len: 0,
        }
    }

    /// The records, by rising rank.
    pub fn as_slice(&self) -> &[R]
        ensures { result.now ≡ rows self.now }
    {
        let places = self.records.as_slice();
        &places[0..self.len]
    }

    /// Puts a record in its place; nothing changes where another one has its rank, or there is no room.
    pub fn insert(&mut self, new: R) -> Result<(), Unplaced>
        ensures { Enters R.Ranked.ranked N (rows self.old) new result (rows self.new) }
    {
        insert_sorted(&mut self.records, self.len, new)?;
        self.len += 1;
        Ok(())
    }

    // Where the record with this rank is. A walk: a binary search finds it no plainer, since its answer is the
    // record's place only once the order is shown.
    fn find_rank(&self, rank: u64) -> Option<usize>
        ensures { Found R.Ranked.ranked (rows self.now) rank result }
    {
        self.as_slice()
            .iter()
            .position(|record| record.rank() == rank)
    }

    /// Puts a record in place of the one at `at`, which has its rank: no search, since the caller knows where that is.
    pub fn replace(&mut self, at: usize, new: R)
        requires { RanksAt R.Ranked.ranked (rows self.old) at new }
        ensures { rows self.new ≡ slice_set (rows self.old) at new }
    {
        self.records[at] = new;
    }

    /// Puts a record in place of the one with its rank, or else between the others; nothing changes where there is no room.
    pub fn put(&mut self, new: R) -> Result<(), Unplaced>
        ensures { Puts R.Ranked.ranked N (rows self.old) new result (rows self.new) }
    {
        match self.find_rank(new.rank()) {
            Some(at) => {
                self.replace(at, new);
                Ok(())
            }
            None => self.insert(new),
        }
    }

    /// Keeps the records of which `keep` says so, in their order.
    pub fn retain<F: FnMut(&R) -> bool + Drop>(&mut self, keep: F)
        requires { F.IsAlwaysCallable keep }
        ensures { IsFiltered (CalledAt F.FnMut) keep (rows self.old) (rows self.new) }
    {
        self.len = retain(&mut self.records, self.len, keep);
    }
}
