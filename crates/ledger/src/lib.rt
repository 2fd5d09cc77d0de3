// The replay of a list of calls on the job table, from lent letters and numbers to lent answers. Assumes nothing.
#![tactic(auto)]

ghost use Rattle.std.specs.Prelude.{◌≡◌, false, List, ◌+◌};
ghost use Rattle.refusals.specs.Refusals.{served};
ghost use Rattle.refusals.specs.Numbers.{answer_of};
ghost use Rattle.std.specs.List.{list_all};
ghost use Rattle.jobs.specs.Jobs.{Call};
ghost use Rattle.jobs.specs.Slots.{entries, outcome};
ghost use Rattle.jobs.specs.Letters.{is_list_letter};
ghost use Rattle.ledger.specs.Replay.{calls_of, AreCalls, replayed, made, replay_out};
ghost use Rattle.ledger.specs.Simulation.{Agrees, Follows};

use jobs::{JobTable, TableAnswer};
use refusals::Refusal;

// Makes the calls of lent letters and numbers, one after the other from a table; each answer goes to its place in `answers`.
// Refusals of the whole list: 3 for lists of other lengths, 11 for a letter other than O, C, F, I, H, U. The table is then as it was, and `answers`
// keeps what it held.
pub fn replay(table: JobTable, letters: &[u8], numbers: &[u32], answers: &mut [u8]) -> TableAnswer
    ensures outcome { replayed result answers.new
        ≡ replay_out (entries table) letters.now numbers.now answers.old }
    ensures ledger { (before : List Call) → Agrees (entries table) before → answer_of result.answer ≡ served
        → Follows before (calls_of letters.now numbers.now) answers.new (entries result.table) }
{
    if numbers.len() != letters.len() {
        return table.refuse(Err(Refusal::Length));
    }
    if answers.len() != letters.len() {
        return table.refuse(Err(Refusal::Length));
    }
    if !all_letters(letters) {
        return table.refuse(Err(Refusal::Record));
    }
    make_calls(table, letters, numbers, answers)
}

fn all_letters(letters: &[u8]) -> bool
    ensures { result ≡ list_all is_list_letter letters.now }
{
    letters
        .iter()
        .all(|letter| jobs::by_letter::is_list_letter(*letter))
}

// All tests are done: the calls are made, and `answers` is filled.
fn make_calls(start: JobTable, letters: &[u8], numbers: &[u32], answers: &mut [u8]) -> TableAnswer
    requires { AreCalls letters.now numbers.now answers.old }
    ensures { replayed result answers.new ≡ made (entries start) (calls_of letters.now numbers.now) }
{
    let mut table = start;
    for (i, letter) in letters.iter().enumerate() {
        let out = table.list_call(*letter, numbers[i]);
        answers[i] = refusals::answer(out.answer);
        table = out.table;
    }
    TableAnswer {
        answer: Ok(()),
        table,
    }
}
