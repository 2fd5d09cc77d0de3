// The calls on the job table for programs in other languages, on its bytes. Refusals: 3 for their length, then the call's own, where 1 stands for a slot with
// an unknown state too. Assumes nothing.
ghost use Rattle.std.specs.Prelude.{◌≡◌};
ghost use Rattle.jobs.specs.Table.{open_out, cancel_out, finish_out, reinstate_out, hold_out, release_out};
ghost use Rattle.lent_jobs.specs.Calls.{called, call_bytes_out};

use lent_jobs::calls;

// Opens a job. Refusals: 3 1 17 12 13 15.
#[unsafe(no_mangle)]
pub extern "C" fn burgzemi_open(table: &mut [u8], number: u32) -> u8
    ensures { called result table.new ≡ call_bytes_out open_out table.old number }
{
    calls::call(table, b'O', number)
}

// Cancels a job, also one that the table does not have. Refusals: 3 1 17 12 15.
#[unsafe(no_mangle)]
pub extern "C" fn burgzemi_cancel(table: &mut [u8], number: u32) -> u8
    ensures { called result table.new ≡ call_bytes_out cancel_out table.old number }
{
    calls::call(table, b'C', number)
}

// Finishes an open job, whose slot is free then. Refusals: 3 1 12 23 14.
#[unsafe(no_mangle)]
pub extern "C" fn burgzemi_finish(table: &mut [u8], number: u32) -> u8
    ensures { called result table.new ≡ call_bytes_out finish_out table.old number }
{
    calls::call(table, b'F', number)
}

// Takes a cancellation back. Refusals: 3 1 20.
#[unsafe(no_mangle)]
pub extern "C" fn burgzemi_reinstate(table: &mut [u8], number: u32) -> u8
    ensures { called result table.new ≡ call_bytes_out reinstate_out table.old number }
{
    calls::call(table, b'I', number)
}

// Puts an open job on hold. Refusals: 3 1 12 23 14.
#[unsafe(no_mangle)]
pub extern "C" fn burgzemi_hold(table: &mut [u8], number: u32) -> u8
    ensures { called result table.new ≡ call_bytes_out hold_out table.old number }
{
    calls::call(table, b'H', number)
}

// Opens a job that is on hold. Refusals: 3 1 12 24.
#[unsafe(no_mangle)]
pub extern "C" fn burgzemi_release(table: &mut [u8], number: u32) -> u8
    ensures { called result table.new ≡ call_bytes_out release_out table.old number }
{
    calls::call(table, b'U', number)
}
