// The job table (document 01's book), by value. Assumes nothing.
#![tactic(auto)]

ghost use Rattle.std.specs.Prelude.{Bool, ◌≡◌, ℕ, ◌<◌, IfSome, position};
ghost use Rattle.jobs.specs.declared.Entry.{Entry};
ghost use Rattle.jobs.specs.Jobs.{slot_count, is_job};
ghost use Rattle.jobs.specs.Table.{is_free, empty_table, open_out, cancel_out, finish_out, reinstate_out, hold_out, release_out, decide, turn_open_at};
ghost use Rattle.jobs.specs.Slots.{entries, outcome_by, outcome};

use refusals::Refusal;

pub mod by_letter;
mod twice;

// What a number was before its cancellation.
#[derive(Clone, Copy, Debug, PartialEq, Eq)]
pub enum Before {
    WasAbsent,
    WasOpen,
    WasOnHold,
}

// What a slot holds. A number is any of 32 bits. 0 is no job; a table holds it only where it was put there before it was refused.
#[derive(Clone, Copy, Debug, PartialEq, Eq)]
pub enum Entry {
    Free,
    Open(u32),
    OnHold(u32),
    Cancelled(u32, Before),
}

// The table of jobs, slot by slot. A new number takes the first free slot.
#[derive(Clone, Copy)]
pub struct JobTable {
    pub slots: [Entry; JobTable::SLOTS],
}

// The answer to a call, and the table that holds afterwards.
#[derive(Clone, Copy)]
pub struct TableAnswer<A = Result<(), Refusal>> {
    pub answer: A,
    pub table: JobTable,
}

impl JobTable {
    pub const SLOTS: usize = 64;

    // The table that holds no number.
    pub fn empty() -> Self
        ensures table { entries result ≡ empty_table }
        ensures limit { JobTable.SLOTS ≡ slot_count }
    {
        JobTable {
            slots: [Entry::Free; JobTable::SLOTS],
        }
    }

    // The number becomes open. Refusals: 1 17 12 13 15.
    pub fn open(self, number: u32) -> TableAnswer
        ensures { outcome result ≡ open_out (entries self) number }
    {
        if self.twice() {
            return self.refuse(Err(Refusal::Invalid));
        }
        if !is_job(number) {
            return self.refuse(Err(Refusal::NumberZero));
        }
        let entry = self.lookup(number);
        match entry {
            Entry::Cancelled(_, _) => self.refuse(Err(Refusal::Cancelled)),
            Entry::Open(_) => self.refuse(Err(Refusal::AlreadyOpen)),
            Entry::OnHold(_) => self.refuse(Err(Refusal::AlreadyOpen)),
            Entry::Free => self.put(self.free_slot(), Entry::Open(number)),
        }
    }

    // The number becomes cancelled, and its entry stays. Refusals: 1, 17 for a 0 that is not held, 12 15.
    pub fn cancel(self, number: u32) -> TableAnswer
        ensures { outcome result ≡ cancel_out (entries self) number }
    {
        if self.twice() {
            return self.refuse(Err(Refusal::Invalid));
        }
        let entry = self.lookup(number);
        match entry {
            Entry::Cancelled(_, _) => self.refuse(Err(Refusal::Cancelled)),
            Entry::Open(_) => self.put(
                self.slot_of(number),
                Entry::Cancelled(number, Before::WasOpen),
            ),
            Entry::OnHold(_) => self.put(
                self.slot_of(number),
                Entry::Cancelled(number, Before::WasOnHold),
            ),
            Entry::Free => {
                if !is_job(number) {
                    return self.refuse(Err(Refusal::NumberZero));
                }
                self.put(
                    self.free_slot(),
                    Entry::Cancelled(number, Before::WasAbsent),
                )
            }
        }
    }

    // The open number goes, and its slot is free. Refusals: 1 12 23 14.
    pub fn finish(self, number: u32) -> TableAnswer
        ensures { outcome result ≡ finish_out (entries self) number }
    {
        self.turn_open(number, Entry::Free)
    }

    // A cancelled number is what it was before its cancellation. Refusals: 1 20.
    pub fn reinstate(self, number: u32) -> TableAnswer
        ensures { outcome result ≡ reinstate_out (entries self) number }
    {
        if self.twice() {
            return self.refuse(Err(Refusal::Invalid));
        }
        let entry = self.lookup(number);
        match entry {
            Entry::Cancelled(_, before) => {
                self.put(self.slot_of(number), restored(before, number))
            }
            Entry::Open(_) => self.refuse(Err(Refusal::NotCancelled)),
            Entry::OnHold(_) => self.refuse(Err(Refusal::NotCancelled)),
            Entry::Free => self.refuse(Err(Refusal::NotCancelled)),
        }
    }

    // The open number is on hold. Refusals: 1 12 23 14.
    pub fn hold(self, number: u32) -> TableAnswer
        ensures { outcome result ≡ hold_out (entries self) number }
    {
        self.turn_open(number, Entry::OnHold(number))
    }

    // The number on hold is open again. Refusals: 1 12 24.
    pub fn release(self, number: u32) -> TableAnswer
        ensures { outcome result ≡ release_out (entries self) number }
    {
        if self.twice() {
            return self.refuse(Err(Refusal::Invalid));
        }
        let entry = self.lookup(number);
        match entry {
            Entry::Cancelled(_, _) => self.refuse(Err(Refusal::Cancelled)),
            Entry::OnHold(_) => self.put(self.slot_of(number), Entry::Open(number)),
            Entry::Open(_) => self.refuse(Err(Refusal::NotHeld)),
            Entry::Free => self.refuse(Err(Refusal::NotHeld)),
        }
    }

    // The slot of an open number takes the entry. Refusals: 1 12 23 14.
    fn turn_open(self, number: u32, next: Entry) -> TableAnswer
        ensures { outcome result ≡ decide (turn_open_at next) (entries self) number }
    {
        if self.twice() {
            return self.refuse(Err(Refusal::Invalid));
        }
        let entry = self.lookup(number);
        match entry {
            Entry::Cancelled(_, _) => self.refuse(Err(Refusal::Cancelled)),
            Entry::OnHold(_) => self.refuse(Err(Refusal::Held)),
            Entry::Open(_) => self.put(self.slot_of(number), next),
            Entry::Free => self.refuse(Err(Refusal::NotOpen)),
        }
    }

    // The entry that holds the number, or a free one.
    pub fn lookup(self, number: u32) -> Entry
        ensures { result ≡ Rattle.jobs.specs.Table.lookup (entries self) number }
    {
        match self.slot_of(number) {
            Some(i) => self.slots[i],
            None => Entry::Free,
        }
    }

    // The table as it was, beside an answer, by whatever numbers that has.
    pub fn refuse<A: Copy>(self, answer: A) -> TableAnswer<A>
        ensures { (number : A → ℕ) → outcome_by number result ≡ Rattle.jobs.specs.Table.refuse (entries self) (number answer) }
    {
        TableAnswer {
            answer,
            table: self,
        }
    }

    // The slot that was found takes the entry. Refusal: 15 where there is none; a number that was looked up has its slot.
    fn put(self, slot: Option<usize>, entry: Entry) -> TableAnswer
        requires { IfSome slot (λ i. i < slot_count) }
        ensures { (t : Entry → Bool) → slot ≡ position t (entries self) → outcome result ≡ Rattle.jobs.specs.Table.put t entry (entries self) }
    {
        let Some(i) = slot else {
            return self.refuse(Err(Refusal::Full));
        };
        let mut next = self;
        next.slots[i] = entry;
        TableAnswer {
            answer: Ok(()),
            table: next,
        }
    }

    // The first free slot.
    fn free_slot(self) -> Option<usize>
        ensures slot { result ≡ position is_free (entries self) }
        ensures within { IfSome result (λ i. i < slot_count) }
    {
        self.slots.iter().position(|entry| is_free(*entry))
    }

    // The first slot that holds the number.
    fn slot_of(self, number: u32) -> Option<usize>
        ensures slot { result ≡ position (Rattle.jobs.specs.Table.holds number) (entries self) }
        ensures within { IfSome result (λ i. i < slot_count) }
    {
        self.slots.iter().position(|entry| holds(*entry, number))
    }
}

// The entry of a number that is no longer cancelled.
fn restored(before: Before, number: u32) -> Entry
    ensures { result ≡ Rattle.jobs.specs.Table.restored before number }
{
    match before {
        Before::WasAbsent => Entry::Free,
        Before::WasOpen => Entry::Open(number),
        Before::WasOnHold => Entry::OnHold(number),
    }
}

// Every number but 0 can be a job's.
pub fn is_job(number: u32) -> bool
    ensures { result ≡ is_job number }
{
    number != 0
}

fn is_free(entry: Entry) -> bool
    ensures { result ≡ is_free entry }
{
    matches!(entry, Entry::Free)
}

fn holds(entry: Entry, number: u32) -> bool
    ensures { result ≡ Rattle.jobs.specs.Table.holds number entry }
{
    match entry {
        Entry::Free => false,
        Entry::Open(x) | Entry::OnHold(x) | Entry::Cancelled(x, _) => x == number,
    }
}
