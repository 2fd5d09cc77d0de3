// Starts as bytes: the placement that a caller gives, and the one that covering answers. Inner functions. Assumes nothing.
ghost use Rattle.std.specs.Prelude.{◌≡◌, ℕ};
ghost use Rattle.refusals.specs.Numbers.{answer_of};
ghost use Rattle.codes.specs.Bridge.{coding_of};
ghost use Rattle.placements.specs.Bridge.{held_as};
ghost use Rattle.decoder.specs.Answer.{number_by};
ghost use Rattle.lent.specs.Starts.{placement_from};
ghost use Rattle.lent.specs.Covering.{cover_lent, cover_lent_as, cover_bytes_under, covered_by, RefusedBy, CoverFits};

use codes::Figures;
use decoder::starts;
use params::Params;
use placements::Placement;
use refusals::Refusal;

// The placement of m starts; one without starts where the bytes are not theirs.
pub fn placement_from(bytes: &[u8], m: u32) -> Placement
    ensures { held_as result ≡ placement_from m bytes.now }
{
    if Params::MAX_BURSTS < m || bytes.len() != 2 * m as usize {
        return Placement::none();
    }
    placements::starts::placement_at(bytes, 0, m as usize)
}

// The placement of as many starts as the figures have bursts: Construction B has one.
pub fn placement_under(figures: Figures, bytes: &[u8]) -> Placement
    ensures { held_as result ≡ placement_from (coding_of figures).bursts bytes.now }
{
    placement_from(bytes, figures.bursts())
}

// Covering, with the placement as bytes. Refusals: 1 2 3 4 6.
pub fn cover_bytes(figures: Figures, map: &[u8], bytes: &mut [u8]) -> u8
    ensures { cover_lent result bytes.new ≡ cover_bytes_under (coding_of figures) map.now bytes.old }
{
    refusals::answer(try_cover(figures, map, bytes))
}

// The same as a Result.
fn try_cover(figures: Figures, map: &[u8], bytes: &mut [u8]) -> Result<(), Refusal>
    ensures { cover_lent (answer_of result) bytes.new ≡ cover_bytes_under (coding_of figures) map.now bytes.old }
{
    let layout = figures.layout()?;
    if bytes.len() != 2 * layout.m {
        return Err(Refusal::Length);
    }
    let found = codes::cover_fitting(layout, map);
    put_covered(found, bytes)
}

// What covering answered, under any figures: its refusal, by whatever numbers refusals have, or the placement that covers the map as bytes.
pub fn put_covered<E: Copy>(found: Result<Placement, E>, bytes: &mut [u8]) -> Result<(), E>
    requires { CoverFits found bytes.old }
    ensures { (number : E → ℕ) → RefusedBy number found
        → cover_lent (number_by number result) bytes.new ≡ cover_lent_as bytes.old (covered_by number found) }
{
    starts::put_starts(found?, bytes);
    Ok(())
}
