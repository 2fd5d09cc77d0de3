// Job write and job read with the job table and the starts as bytes, under the figures of any code. Inner functions. Assumes nothing.
ghost use Rattle.std.specs.Prelude.{◌≡◌};
ghost use Rattle.refusals.specs.Numbers.{answer_of};
ghost use Rattle.cells.specs.Outcomes.{unwritten};
ghost use Rattle.codes.specs.Bridge.{coding_of};
ghost use Rattle.jobcodec.specs.Given.{seen};
ghost use Rattle.lent_jobs.specs.Jobs.{job_write_bytes_under, job_read_bytes_under};

use crate::table;
use codes::Figures;
use lent::starts;
use refusals::Refusal;

// Job write: the word of a placement and a payload whose job the table has open. Refusals: 1 2 10 3 5 17 12 23 14.
pub fn write(figures: Figures, table: &[u8], starts: &[u8], payload: &[u8], word: &mut [u8]) -> u8
    ensures { unwritten word.new result
        ≡ job_write_bytes_under (coding_of figures) table.now starts.now payload.now word.old }
{
    refusals::answer(try_write(figures, table, starts, payload, word))
}

// The same as a Result.
fn try_write(
    figures: Figures,
    table: &[u8],
    starts: &[u8],
    payload: &[u8],
    word: &mut [u8],
) -> Result<(), Refusal>
    ensures { unwritten word.new (answer_of result)
        ≡ job_write_bytes_under (coding_of figures) table.now starts.now payload.now word.old }
{
    let held = table::lent_table(figures, table)?;
    let at = starts::placement_under(figures, starts);
    jobcodec::job_write(figures, held, at, payload, word)
}

// Job read: the payload of a found word whose job the table has open. Refusals: 1 2, 10 for K, 3 4 7 19 8 9 19, by the Larsson code 3 4 21 8 9 19, 10,
// 12 23 14.
pub fn read(figures: Figures, table: &[u8], word: &[u8], payload: &mut [u8]) -> u8
    ensures { seen result payload.new ≡ job_read_bytes_under (coding_of figures) table.now word.now payload.old }
{
    refusals::answer(try_read(figures, table, word, payload))
}

// The same as a Result.
fn try_read(figures: Figures, table: &[u8], word: &[u8], payload: &mut [u8]) -> Result<(), Refusal>
    ensures { seen (answer_of result) payload.new ≡ job_read_bytes_under (coding_of figures) table.now word.now payload.old }
{
    let held = table::lent_table(figures, table)?;
    jobcodec::job_read(figures, held, word, payload)
}
