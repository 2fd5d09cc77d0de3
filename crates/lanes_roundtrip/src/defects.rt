// Damage at the defects of a map. Inner functions. Assumes nothing.
ghost use Rattle.std.specs.Prelude.{◌≡◌};
ghost use Rattle.cells.specs.Outcomes.{defect_at};
ghost use Rattle.roundtrip.specs.Damage.{damaged};
ghost use Rattle.lanes_roundtrip.specs.LaneByLane.{DefectsLent};

// The symbols of `damage` stand in the interleaved word wherever the map has a defect.
pub fn spoil_defects(map: &[u8], damage: &[u8], interleaved: &mut [u8])
    requires { DefectsLent map.now damage.now interleaved.old }
    ensures { interleaved.new ≡ damaged (defect_at map.now) damage.now interleaved.old }
{
    for x in 0..interleaved.len() {
        if map[x] == 1 {
            interleaved[x] = damage[x];
        }
    }
}
