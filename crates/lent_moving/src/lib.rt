// Moving a job from a strip of one code to a strip of another for programs in other languages, with the job table as bytes. Inner functions of `exports`.
// Assumes nothing.
#![tactic(auto)]

ghost use Rattle.std.specs.Prelude.{◌≡◌};
ghost use Rattle.refusals.specs.Numbers.{number_of, answer_of};
ghost use Rattle.cells.specs.Outcomes.{unwritten};
ghost use Rattle.codes.specs.Bridge.{coding_of};
ghost use Rattle.params.specs.Bridge.{given};
ghost use Rattle.lent_moving.specs.Moves.{move_bytes_under, to_construction_a_bytes, to_larsson_bytes};
ghost use Rattle.lent_moving.specs.Given.{move_without_table};

use codes::Figures;
use lent_jobs::table;
use moving::both::both_fit;
use params::Params;
use refusals::Refusal;

// Moves a job from a strip of one code to a strip of another. Refusals: 1 2 10 3, the reader's from 4 on, 10, 12 23 14, 22, 17; 1 also for an unknown state,
// 3 also for a table of another length.
pub fn move_strip(from: Figures, to: Figures, table: &[u8], strip: &[u8], moved: &mut [u8]) -> u8
    ensures { unwritten moved.new result
        ≡ move_bytes_under (coding_of from) (coding_of to) table.now strip.now moved.old }
{
    refusals::answer(try_move(from, to, table, strip, moved))
}

// The same as a Result.
fn try_move(
    from: Figures,
    to: Figures,
    table: &[u8],
    strip: &[u8],
    moved: &mut [u8],
) -> Result<(), Refusal>
    ensures { unwritten moved.new (answer_of result)
        ≡ move_bytes_under (coding_of from) (coding_of to) table.now strip.now moved.old }
{
    if table.len() != table::TABLE_LEN {
        return Err(without_table(from, to, strip.len(), moved.len()));
    }
    if !table::states_known(table) {
        return Err(Refusal::Invalid);
    }
    moving::move_strip(from, to, table::table_in(table), strip, moved)
}

// To Construction A. Refusals: 1 2 10 3 4 21 8 9 19 10, 12 23 14, 22, 17.
pub fn move_to_a(figures: Params, table: &[u8], strip: &[u8], moved: &mut [u8]) -> u8
    ensures { unwritten moved.new result ≡ to_construction_a_bytes (given figures) table.now strip.now moved.old }
{
    move_strip(
        Figures::Larsson(figures),
        Figures::Ranked(figures),
        table,
        strip,
        moved,
    )
}

// Back to the Larsson code. Refusals: 1 2 10 3 4 7 19 8 9 19 10, 12 23 14, 22, 17.
pub fn move_to_larsson(figures: Params, table: &[u8], strip: &[u8], moved: &mut [u8]) -> u8
    ensures { unwritten moved.new result ≡ to_larsson_bytes (given figures) table.now strip.now moved.old }
{
    move_strip(
        Figures::Ranked(figures),
        Figures::Larsson(figures),
        table,
        strip,
        moved,
    )
}

// What a move is refused with where the table has another length, so that no slot is looked at: 1 2 10, or else 3.
fn without_table(from: Figures, to: Figures, strip: usize, moved: usize) -> Refusal
    ensures { number_of result ≡ move_without_table (coding_of from) (coding_of to) }
{
    match both_fit(from, to, strip, moved) {
        Err(refusal) => refusal,
        Ok(_) => Refusal::Length,
    }
}
