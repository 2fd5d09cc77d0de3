// Calls on the job table by their letters. Assumes nothing.
ghost use Rattle.std.specs.Prelude.{◌≡◌};
ghost use Rattle.jobs.specs.Letters.{kind_of, list_kind, call_by, is_letter, is_list_letter};
ghost use Rattle.jobs.specs.Slots.{entries, outcome};

use crate::{JobTable, TableAnswer};
use refusals::Refusal;

impl JobTable {
    // The call of a record's letter: O opens, C cancels, F finishes. Refusals: 11 for another letter, then the call's own.
    pub fn call(self, letter: u8, number: u32) -> TableAnswer
        ensures { outcome result ≡ call_by (kind_of letter) (entries self) number }
    {
        match letter {
            b'O' => self.open(number),
            b'C' => self.cancel(number),
            b'F' => self.finish(number),
            _ => self.refuse(Err(Refusal::Record)),
        }
    }

    // The call of a letter in a list: those of records, and I reinstates, H holds, U releases. Refusals: 11 for another letter, then the call's own.
    pub fn list_call(self, letter: u8, number: u32) -> TableAnswer
        ensures { outcome result ≡ call_by (list_kind letter) (entries self) number }
    {
        match letter {
            b'I' => self.reinstate(number),
            b'H' => self.hold(number),
            b'U' => self.release(number),
            _ => self.call(letter, number),
        }
    }
}

// Whether a call in a list has this letter.
pub fn is_list_letter(letter: u8) -> bool
    ensures { result ≡ is_list_letter letter }
{
    is_letter(letter) || matches!(letter, b'I' | b'H' | b'U')
}

// Whether a record's call has this letter.
pub fn is_letter(letter: u8) -> bool
    ensures { result ≡ is_letter letter }
{
    matches!(letter, b'O' | b'C' | b'F')
}
