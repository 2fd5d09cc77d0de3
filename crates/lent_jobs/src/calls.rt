// A call on the job table in bytes. An inner function. Assumes nothing.
ghost use Rattle.std.specs.Prelude.{◌≡◌};
ghost use Rattle.refusals.specs.Numbers.{answer_of};
ghost use Rattle.jobs.specs.Letters.{list_kind, call_by};
ghost use Rattle.lent_jobs.specs.Calls.{called, call_bytes_out};

use crate::table;
use refusals::Refusal;

// By its letter in a list. Refusals: 3 for the table's length, 1 for a slot with an unknown state, 11 for another letter, then the call's own.
pub fn call(table: &mut [u8], letter: u8, number: u32) -> u8
    ensures { called result table.new ≡ call_bytes_out (call_by (list_kind letter)) table.old number }
{
    refusals::answer(try_call(table, letter, number))
}

// The same as a Result.
fn try_call(table: &mut [u8], letter: u8, number: u32) -> Result<(), Refusal>
    ensures { called (answer_of result) table.new ≡ call_bytes_out (call_by (list_kind letter)) table.old number }
{
    if table.len() != table::TABLE_LEN {
        return Err(Refusal::Length);
    }
    if !table::states_known(table) {
        return Err(Refusal::Invalid);
    }
    let before = table::table_in(table);
    let out = before.list_call(letter, number);
    out.answer?;
    table::put_table(out.table, table);
    Ok(())
}
