// Covering, writing and reading of words one after another. Inner functions. Assumes nothing.
ghost use Rattle.std.specs.Prelude.{◌≡◌, List, ℕ, length};
ghost use Rattle.refusals.specs.Refusals.{served};
ghost use Rattle.refusals.specs.Numbers.{answer_of};
ghost use Rattle.codes.specs.Given.{coding_in, Serves};
ghost use Rattle.cells.specs.Outcomes.{answer_number, decode_under};
ghost use Rattle.lanes_roundtrip.specs.LaneByLane.{LaneParts, LaneMessages, all_covered, cover_word, cover_words, ReadsLanes};

use codes::WordLayout;
use refusals::Refusal;

// Whether each of `depth` maps of n bytes can be covered: otherwise refusal 6.
pub fn all_covered(layout: WordLayout, depth: usize, maps: &[u8]) -> bool
    requires { LaneParts layout depth maps.now }
    ensures { result ≡ all_covered (coding_in layout) layout.n depth maps.now }
{
    for j in 0..depth {
        let start = j * layout.n;
        if codes::cover_fitting(layout, &maps[start..start + layout.n]).is_err() {
            return false;
        }
    }
    true
}

// The word of each message on the cover of its map, in the map's place.
pub fn write_lanes(layout: WordLayout, depth: usize, messages: &[u8], words: &mut [u8])
    requires { LaneMessages layout depth words.old messages.now }
    ensures { words.new
        ≡ cover_words (coding_in layout) layout.n layout.message_len depth messages.now words.old }
{
    for j in 0..depth {
        let from = j * layout.message_len;
        let start = j * layout.n;
        write_lane(
            layout,
            &messages[from..from + layout.message_len],
            &mut words[start..start + layout.n],
        );
    }
}

// `word` holds its map, and then the word of the message on the map's cover. What is refused leaves the map.
fn write_lane(layout: WordLayout, message: &[u8], word: &mut [u8])
    requires { Serves layout }
    ensures word { word.new ≡ cover_word (coding_in layout) message.now word.old }
    ensures size { length word.new ≡ length word.old }
{
    if let Ok(at) = codes::cover_fitting(layout, word) {
        let _ = codes::encode_fitting(layout, at, message, word);
    }
}

// Each word's message, or what the first word that isn't accepted is refused with.
pub fn read_lanes(
    layout: WordLayout,
    depth: usize,
    words: &[u8],
    read: &mut [u8],
) -> Result<(), Refusal>
    requires { LaneMessages layout depth words.now read.old }
    ensures { (messages : List ℕ) → ReadsLanes (coding_in layout) layout.n layout.message_len depth words.now messages
        → (answer_of result ≡ served) × (read.new ≡ messages) }
{
    for j in 0..depth {
        let start = j * layout.n;
        let to = j * layout.message_len;
        codes::decode_fitting(
            layout,
            &words[start..start + layout.n],
            &mut read[to..to + layout.message_len],
        )
        .answer?;
    }
    Ok(())
}
