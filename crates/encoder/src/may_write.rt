// What every word writer tests behind its figures, before it writes. An inner function. Assumes nothing.
ghost use Rattle.std.specs.Prelude.{◌≡◌, ◌≤◌};
ghost use Rattle.refusals.specs.Numbers.{answer_of};
ghost use Rattle.placements.specs.Bridge.{held_as, Room};
ghost use Rattle.encoder.specs.MayWrite.{write_number};

use placements::Placement;
use refusals::Refusal;
use stretches::Walk;

// Whether a message of k symbols below q may be written at a placement, into a lent word of so many symbols; how many it should have, and its bursts, are
// the walk's. Refusals: 3 5 4.
pub fn may_write(
    walk: Walk,
    q: u64,
    k: usize,
    at: Placement,
    message: &[u8],
    lent: usize,
) -> Result<(), Refusal>
    requires { Room walk.n walk.m walk.b × (walk.b ≤ walk.n) }
    ensures { answer_of result ≡ write_number walk.n walk.m walk.b q k (held_as at) message.now lent }
{
    if at.count as usize != walk.m {
        return Err(Refusal::Length);
    }
    if message.len() != k {
        return Err(Refusal::Length);
    }
    if lent != walk.n {
        return Err(Refusal::Length);
    }
    if !at.apart(walk.n as u32, walk.b as u32) {
        return Err(Refusal::Starts);
    }
    if !symbols::all_below(message, q) {
        return Err(Refusal::Symbol);
    }
    Ok(())
}
