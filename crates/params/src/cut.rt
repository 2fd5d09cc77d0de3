// Cutting a length into pieces. Assumes nothing.
ghost use Rattle.std.specs.Prelude.{◌≡◌, suc, ◌≤◌, ◌<◌};
ghost use Rattle.cells.specs.Cut.{piece_start, piece_len};

// Where piece i starts, of pieces whose lengths differ by at most one, shorter ones first. The last one ends where the piece behind it would start.
pub fn piece_start(total: usize, pieces: usize, i: usize) -> usize
    requires { (0 < pieces) × (i ≤ pieces) }
    ensures { result ≡ piece_start total pieces i }
{
    let each = total / pieces;
    let short = pieces - total % pieces;
    if i <= short {
        return i * each;
    }
    i * each + (i - short)
}

// The length of piece i.
pub fn piece_len(total: usize, pieces: usize, i: usize) -> usize
    requires { i < pieces }
    ensures { result ≡ piece_len total pieces i }
{
    let each = total / pieces;
    if i < pieces - total % pieces {
        return each;
    }
    each + 1
}

// The piece that has position x.
pub fn piece_of(total: usize, pieces: usize, x: usize) -> usize
    requires { (0 < pieces) × (pieces ≤ total) × (x < total) }
    ensures { (result < pieces) × (piece_start total pieces result ≤ x) × (x < piece_start total pieces (suc result)) }
{
    let each = total / pieces;
    let short = pieces - total % pieces;
    let edge = short * each;
    if x < edge {
        return x / each;
    }
    short + (x - edge) / (each + 1)
}
