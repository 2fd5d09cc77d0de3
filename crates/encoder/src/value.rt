// What the index blocks spell of a placement: its rank, or how far into its part the one burst of Construction B ends. Assumes nothing.
ghost use Rattle.std.specs.Prelude.{◌≡◌};
ghost use Rattle.construction_b.specs.Writing.{start_in, end_offset};
ghost use Rattle.params.specs.Given.{figures_of, long_of, LongLayoutFits, BlocksServe, spelled_in};
ghost use Rattle.placements.specs.Bridge.{starts_in, PlacesBursts};

use params::{Layout, Spells, cut};
use placements::Placement;

pub fn index_value(layout: Layout, at: Placement) -> u64
    requires { BlocksServe layout × PlacesBursts layout at }
    ensures { result ≡ spelled_in layout (starts_in at) }
{
    let spells = layout.spells;
    match spells {
        Spells::Rank => at.rank(layout.b as u32),
        Spells::EndOffset => end_offset(layout, at),
    }
}

// The burst's last position, counted from the first one of its part.
fn end_offset(layout: Layout, at: Placement) -> u64
    requires { LongLayoutFits layout × PlacesBursts layout at }
    ensures { result ≡ end_offset (long_of (figures_of layout)) (start_in (starts_in at)) }
{
    let start = at.starts[0];
    let last = start as usize + layout.b - 1;
    let part = cut::piece_of(layout.n, layout.parts, last);
    let head = cut::piece_start(layout.n, layout.parts, part);
    (last - head) as u64
}
