// The law of lanes as one function on lent buffers: the map taken apart, a cover and a word for each lane, the words side by side, damage at the defects,
// and the interleaved word taken apart and read. Assumes nothing.
#![tactic(auto)]

ghost use Rattle.std.specs.Prelude.{◌≡◌, List, ℕ, ◌≤◌};
ghost use Rattle.refusals.specs.Refusals.{served};
ghost use Rattle.refusals.specs.Numbers.{answer_of};
ghost use Rattle.codes.specs.Bridge.{coding_of};
ghost use Rattle.codes.specs.Given.{coding_in, Serves};
ghost use Rattle.lanes.specs.Interleaving.{max_depth};
ghost use Rattle.lanes.specs.Outcomes.{interleave_under, deinterleave_under};
ghost use Rattle.lanes_roundtrip.specs.LanesRoundTrip.{lanes_round_trip_as, lanes_round_trip_under, CoversDefects, lanes_sized, lanes_in_alphabet};
ghost use Rattle.lanes_roundtrip.specs.LaneByLane.{LaneMessages, cover_words, ReadsLanes, LanesLent};

use codes::{Figures, WordLayout};
use params::found::found_bound;
use refusals::Refusal;

pub mod defects;
pub mod lane_by_lane;

// Takes the map apart, covers each word's map, writes each message of `sent` on its cover, lays the words side by side, puts `damage` wherever the map has a
// defect, takes the interleaved word apart and reads each word. `words` has room for the maps and the words. Refusals: 1 2 18 3 4 6, and none in reading.
pub fn lanes_round_trip(
    figures: Figures,
    depth: u32,
    map: &[u8],
    sent: &[u8],
    damage: &[u8],
    words: &mut [u8],
    interleaved: &mut [u8],
    read: &mut [u8],
) -> Result<(), Refusal>
    ensures outcome { lanes_round_trip_as words.new interleaved.new read.new (answer_of result)
        ≡ lanes_round_trip_under (coding_of figures) depth map.now sent.now damage.now words.old
        interleaved.old read.old }
    ensures covered { CoversDefects (coding_of figures) depth map.now (answer_of result) }
{
    fitting_round_trip(
        figures.layout()?,
        depth,
        map,
        sent,
        damage,
        words,
        interleaved,
        read,
    )
}

// The same for figures that fit. Refusals: 18 3 4 6.
fn fitting_round_trip(
    layout: WordLayout,
    depth: u32,
    map: &[u8],
    sent: &[u8],
    damage: &[u8],
    words: &mut [u8],
    interleaved: &mut [u8],
    read: &mut [u8],
) -> Result<(), Refusal>
    requires { Serves layout }
    ensures { lanes_round_trip_as words.new interleaved.new read.new (answer_of result)
        ≡ lanes_round_trip_under (coding_in layout) depth map.now sent.now damage.now words.old
        interleaved.old read.old }
{
    if depth < lanes::MIN_DEPTH {
        return Err(Refusal::Depth);
    }
    if lanes::MAX_DEPTH < depth {
        return Err(Refusal::Depth);
    }
    if !sized(layout, depth, map, sent, damage, words, interleaved, read) {
        return Err(Refusal::Length);
    }
    if !in_alphabet(layout, map, sent, damage) {
        return Err(Refusal::Symbol);
    }
    run_lanes(layout, depth, map, sent, damage, words, interleaved, read)
}

// Whether every lent length is right: otherwise refusal 3.
fn sized(
    layout: WordLayout,
    depth: u32,
    map: &[u8],
    sent: &[u8],
    damage: &[u8],
    words: &[u8],
    interleaved: &[u8],
    read: &[u8],
) -> bool
    requires { Serves layout × (depth ≤ max_depth) }
    ensures { result ≡ lanes_sized (coding_in layout) depth map.now sent.now damage.now words.now
        interleaved.now read.now }
{
    let cells = depth as usize * layout.n;
    let symbols = depth as usize * layout.message_len;
    map.len() == cells
        && sent.len() == symbols
        && damage.len() == cells
        && words.len() == cells
        && interleaved.len() == cells
        && read.len() == symbols
}

// Whether every byte is one that a map, a message or a found word may have: otherwise refusal 4.
fn in_alphabet(layout: WordLayout, map: &[u8], sent: &[u8], damage: &[u8]) -> bool
    requires { Serves layout }
    ensures { result ≡ lanes_in_alphabet (coding_in layout) map.now sent.now damage.now }
{
    symbols::all_below(map, 2)
        && symbols::all_below(sent, layout.q)
        && symbols::all_below(damage, found_bound(layout.q))
}

// The calls of the law, one after another. Refusal: 6; the laying and taking apart is refused nothing, since all was tested before.
fn run_lanes(
    layout: WordLayout,
    depth: u32,
    map: &[u8],
    sent: &[u8],
    damage: &[u8],
    words: &mut [u8],
    interleaved: &mut [u8],
    read: &mut [u8],
) -> Result<(), Refusal>
    requires { LanesLent layout depth map.now sent.now damage.now words.old interleaved.old read.old }
    ensures { lanes_round_trip_as words.new interleaved.new read.new (answer_of result)
        ≡ lanes_round_trip_under (coding_in layout) depth map.now sent.now damage.now words.old
        interleaved.old read.old }
{
    let _ = lanes::deinterleave_fitting(layout, depth, map, words);
    if !lane_by_lane::all_covered(layout, depth as usize, words) {
        return Err(Refusal::Uncovered);
    }
    write_interleaved(layout, depth, sent, words, interleaved);
    defects::spoil_defects(map, damage, interleaved);
    read_interleaved(layout, depth, interleaved, words, read)
}

// The word of each message on the cover of its map, and the words side by side.
fn write_interleaved(
    layout: WordLayout,
    depth: u32,
    sent: &[u8],
    words: &mut [u8],
    interleaved: &mut [u8],
)
    requires { LaneMessages layout depth words.old sent.now }
    ensures { interleaved.new
        ≡ (interleave_under (coding_in layout) depth
        (cover_words (coding_in layout) layout.n layout.message_len depth sent.now words.old) interleaved.old).buffer }
{
    lane_by_lane::write_lanes(layout, depth as usize, sent, words);
    let _ = lanes::interleave_fitting(layout, depth, words, interleaved);
}

// The interleaved word taken apart, and each word's message.
fn read_interleaved(
    layout: WordLayout,
    depth: u32,
    interleaved: &[u8],
    words: &mut [u8],
    read: &mut [u8],
) -> Result<(), Refusal>
    requires { LaneMessages layout depth words.old read.old }
    ensures words { words.new ≡ (deinterleave_under (coding_in layout) depth interleaved.now words.old).buffer }
    ensures read { (messages : List ℕ)
        → ReadsLanes (coding_in layout) layout.n layout.message_len depth words.new messages
        → (answer_of result ≡ served) × (read.new ≡ messages) }
{
    let _ = lanes::deinterleave_fitting(layout, depth, interleaved, words);
    lane_by_lane::read_lanes(layout, depth as usize, words, read)
}
