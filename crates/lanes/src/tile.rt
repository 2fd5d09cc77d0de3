// A tile of 16 × 16 symbols of a table, by way of local arrays, so that the compiler keeps it in registers. Inner functions. Assumes nothing.
ghost use Rattle.std.specs.Prelude.{◌≡◌, ◌+◌, ◌≤◌, length};
ghost use Rattle.lanes.specs.Interleaving.{transposed_table};
ghost use Rattle.lanes.specs.Transposing.{SizedTables, CellsMoved, LinesWithin, LinesCopied};

// The rows of a tile, and its columns.
pub const TILE: usize = 16;

// The symbols of a tile, and half of them.
const CELLS: usize = 256;

const HALF: usize = 128;

// The tile whose first cell is in column `left` and row `top`.
pub fn move_tile(rows: usize, columns: usize, left: usize, top: usize, from: &[u8], to: &mut [u8])
    requires { SizedTables rows columns from.now to.old × (left + 16 ≤ columns) × (top + 16 ≤ rows) }
    ensures { CellsMoved rows columns from.now to.old to.new left (left + 16) top (top + 16) }
{
    let mut cells = [0u8; CELLS];
    let mut spare = [0u8; CELLS];
    move_by(rows, columns, left, top, from, to, &mut cells, &mut spare);
}

// The same by way of lent cells.
fn move_by(
    rows: usize,
    columns: usize,
    left: usize,
    top: usize,
    from: &[u8],
    to: &mut [u8],
    cells: &mut [u8],
    spare: &mut [u8],
)
    requires { SizedTables rows columns from.now to.old × (left + 16 ≤ columns) × (top + 16 ≤ rows) × (length cells.old ≡ 256)
        × (length spare.old ≡ 256) }
    ensures { CellsMoved rows columns from.now to.old to.new left (left + 16) top (top + 16) }
{
    copy_lines(from, top * columns + left, columns, cells, 0, TILE);
    turn(cells, spare);
    copy_lines(cells, 0, TILE, to, left * rows + top, rows);
}

// 16 lines of 16 symbols, each `step` behind the one before, to lines that are `stride` apart.
fn copy_lines(from: &[u8], at: usize, step: usize, to: &mut [u8], onto: usize, stride: usize)
    requires { LinesWithin at step from.now × LinesWithin onto stride to.old }
    ensures { LinesCopied at step from.now onto stride 16 to.old to.new }
{
    for k in 0..TILE {
        let start = onto + k * stride;
        let source = at + k * step;
        symbols::copy_prefix(&mut to[start..start + TILE], &from[source..source + TILE]);
    }
}

// A tile's rows to its columns: four shuffles.
fn turn(cells: &mut [u8], spare: &mut [u8])
    requires { (length cells.old ≡ 256) × (length spare.old ≡ 256) }
    ensures { cells.new ≡ transposed_table 16 16 cells.old }
{
    shuffle_twice(cells, spare);
    shuffle_twice(cells, spare);
}

fn shuffle_twice(cells: &mut [u8], spare: &mut [u8])
    requires { (length cells.old ≡ 256) × (length spare.old ≡ 256) }
    ensures { cells.new ≡ transposed_table 2 128 (transposed_table 2 128 cells.old) }
{
    shuffle(cells, spare);
    shuffle(spare, cells);
}

// A perfect shuffle: one of the first half, one of the second, and so on.
fn shuffle(from: &[u8], to: &mut [u8])
    requires { (length from.now ≡ 256) × (length to.old ≡ 256) }
    ensures { to.new ≡ transposed_table 2 128 from.now }
{
    for i in 0..HALF {
        to[2 * i] = from[i];
        to[2 * i + 1] = from[HALF + i];
    }
}
