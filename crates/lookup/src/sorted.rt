// Records in rising order, and putting one between others. How many of a slice's records count stands beside it:
// its memory is lent, as there is no heap, and who lends it keeps the number.
ghost use Rattle.std.specs.Prelude.{◌≡◌, ℕ, ◌≤◌, length, take};
ghost use Rattle.std.specs.Fn.{CalledAt};
ghost use Rattle.std.specs.List.Retain.{IsFiltered};
ghost use Rattle.lookup.specs.Inserts.{Inserts, Leads};
ghost use Rattle.lookup.specs.Sorts.{Sorts};

/// A record that has a place in an order. A number and no `Ord`: then "rises" is `<` on numbers wherever it is said.
pub trait Ranked {
    ghost ranked: { Self → ℕ };

    fn rank(&self) -> u64
        ensures { result ≡ ranked self.now };
}

/// Why a record is not put between others.
#[derive(Clone, Copy, PartialEq, Eq, Debug)]
pub enum Unplaced {
    /// Another one has its rank.
    Taken,
    /// There is no room.
    Full,
}

/// How many records lead, one after another, with a rank below this one.
pub fn leading<R: Ranked>(records: &[R], rank: u64) -> usize
    ensures { Leads R.Ranked.ranked records.now rank result }
{
    records
        .iter()
        .position(|record| record.rank() >= rank)
        .unwrap_or(records.len())
}

/// Puts `x` before the record at `at`, of the first `len` ones; nothing changes where there is no room.
pub fn insert_at<T: Copy>(items: &mut [T], len: usize, at: usize, x: T) -> Result<(), Unplaced>
    ensures { Inserts items.old len at x result items.new }
{
    if len >= items.len() || at > len {
        return Err(Unplaced::Full);
    }
    items[len] = x;
    items[at..len + 1].rotate_right(1);
    Ok(())
}

/// Puts a record in its place among the first `len` ones, which rise.
pub fn insert_sorted<R: Ranked + Copy>(
    records: &mut [R],
    len: usize,
    new: R,
) -> Result<(), Unplaced>
    ensures { Sorts R.Ranked.ranked records.old len new result records.new }
{
    if len >= records.len() {
        return Err(Unplaced::Full);
    }
    let rank = new.rank();
    let at = leading(&records[0..len], rank);
    if at < len && records[at].rank() == rank {
        return Err(Unplaced::Taken);
    }
    insert_at(records, len, at, new)
}

/// Moves those of the first `len` items that are kept to the front, in their order; answers how many they are.
pub fn retain<T: Copy, F: FnMut(&T) -> bool>(items: &mut [T], len: usize, mut keep: F) -> usize
    requires { F.IsAlwaysCallable keep }
    ensures kept { IsFiltered (CalledAt F.FnMut) keep (take len items.old) (take result items.new) }
    ensures fewer { result ≤ len }
    ensures long { length items.new ≡ length items.old }
{
    let mut left = 0;
    // By index, since one table is read at one place and written at another.
    for i in 0..len.min(items.len()) {
        let item = items[i];
        if keep(&item) {
            items[left] = item;
            left += 1;
        }
    }
    left
}
