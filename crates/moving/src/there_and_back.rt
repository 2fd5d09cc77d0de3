// Moving a strip there and back, with damage in between, as one function on lent strips. Assumes nothing.
ghost use Rattle.std.specs.Prelude.{◌≡◌};
ghost use Rattle.refusals.specs.Numbers.{answer_of};
ghost use Rattle.codes.specs.Bridge.{coding_of};
ghost use Rattle.placements.specs.Bridge.{starts_in};
ghost use Rattle.jobs.specs.Slots.{entries};
ghost use Rattle.roundtrip.specs.Damage.{DamageLent};
ghost use Rattle.moving.specs.ThereAndBack.{there_and_back_as, there_and_back_out, CameBack};

use crate::move_strip;
use codes::Figures;
use jobs::JobTable;
use placements::Placement;
use refusals::Refusal;

// "There and back" run as code: moves the job of a strip of one code to a strip of another, puts any values into the bursts of a placement there, and moves
// what is then found back under the same table. The refusal is that of the move that is refused. No entry point: the damage has a symbol for each position of the
// strip in between.
pub fn move_there_and_back(
    from: Figures,
    to: Figures,
    table: JobTable,
    at: Placement,
    strip: &[u8],
    damage: &[u8],
    between: &mut [u8],
    back: &mut [u8],
) -> Result<(), Refusal>
    requires { DamageLent at damage.now between.old }
    ensures outcome { there_and_back_as (answer_of result) between.new back.new
        ≡ there_and_back_out (coding_of from) (coding_of to) (entries table) (starts_in at) strip.now damage.now between.old
        back.old }
    ensures returned { CameBack (coding_of from) (coding_of to) (entries table) (starts_in at) strip.now damage.now
        between.old back.old (answer_of result) back.new }
{
    match move_strip(from, to, table, strip, between) {
        Err(refusal) => Err(refusal),
        Ok(()) => {
            roundtrip::spoil(at, to.burst_len(), damage, between);
            move_strip(to, from, table, between, back)
        }
    }
}
