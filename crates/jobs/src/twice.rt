// Whether the job table holds one number twice. Assumes nothing.
ghost use Rattle.std.specs.Prelude.{◌≡◌, length};
ghost use Rattle.std.specs.List.{list_any};
ghost use Rattle.jobs.specs.Slots.{entries, mark_count, mark_of};
ghost use Rattle.jobs.specs.Table;

use crate::{Entry, JobTable, holds};

// How many places there are for marks.
const MARKS: usize = 1024;

impl JobTable {
    // Whether one number is held twice, in whatever states.
    pub fn twice(self) -> bool
        ensures { result ≡ Table.twice (entries self) }
    {
        let mut marks = [false; MARKS];
        self.twice_by(&mut marks)
    }

    // The same, slot by slot from the last one back. Each leaves a mark at its number's remainder; where there is none yet, no later slot has the number.
    // A mark too many, as one that was there before, costs a search and changes no answer.
    fn twice_by(self, marks: &mut [bool]) -> bool
        requires { length marks.old ≡ mark_count }
        ensures { result ≡ Table.twice (entries self) }
    {
        for i in (0..JobTable::SLOTS).rev() {
            let entry = self.slots[i];
            let mark = mark_of(entry);
            if marks[mark] && again(&self.slots[i + 1..], entry) {
                return true;
            }
            marks[mark] = true;
        }
        false
    }
}

// Whether one of the slots holds the entry's number too. Lent slots: a table by value would be copied at each look.
fn again(slots: &[Entry], entry: Entry) -> bool
    ensures { result ≡ Table.again slots.now entry }
{
    match entry {
        Entry::Free => false,
        Entry::Open(x) | Entry::OnHold(x) | Entry::Cancelled(x, _) => one_holds(slots, x),
    }
}

// Whether one of the slots holds the number.
fn one_holds(slots: &[Entry], number: u32) -> bool
    ensures { result ≡ list_any (Table.holds number) slots.now }
{
    slots.iter().any(|entry| holds(*entry, number))
}

// The place of an entry's mark.
fn mark_of(entry: Entry) -> usize
    ensures { result ≡ mark_of entry }
{
    match entry {
        Entry::Free => 0,
        Entry::Open(x) | Entry::OnHold(x) | Entry::Cancelled(x, _) => x as usize % MARKS,
    }
}
