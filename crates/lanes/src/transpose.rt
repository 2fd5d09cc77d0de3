// A table held row by row, held column by column: whole tiles first, then the cells below and beside them. Inner functions. Assumes nothing.
ghost use Rattle.std.specs.Prelude.{◌≡◌, ◌+◌, ◌*◌, ◌≤◌, ◌<◌};
ghost use Rattle.lanes.specs.Interleaving.{transposed_table};
ghost use Rattle.lanes.specs.Transposing.{SizedTables, CellsMoved};

use crate::tile;
use crate::tile::TILE;

// `from` has so many rows of so many columns; `to` gets its columns one after another.
pub fn transpose(rows: usize, columns: usize, from: &[u8], to: &mut [u8])
    requires { SizedTables rows columns from.now to.old }
    ensures { to.new ≡ transposed_table rows columns from.now }
{
    let across = columns / TILE;
    let down = rows / TILE;
    move_tiles(rows, columns, across, down, from, to);
    move_rows(rows, columns, across * TILE, down * TILE, from, to);
    move_columns(rows, columns, across * TILE, from, to);
}

// So many tiles across and so many down.
fn move_tiles(rows: usize, columns: usize, across: usize, down: usize, from: &[u8], to: &mut [u8])
    requires { SizedTables rows columns from.now to.old × (across * 16 ≤ columns) × (down * 16 ≤ rows) }
    ensures { CellsMoved rows columns from.now to.old to.new 0 (across * 16) 0 (down * 16) }
{
    for k in 0..across {
        move_band(rows, columns, k * TILE, down, from, to);
    }
}

// So many tiles down from the first row, in the columns from `left` on.
fn move_band(rows: usize, columns: usize, left: usize, down: usize, from: &[u8], to: &mut [u8])
    requires { SizedTables rows columns from.now to.old × (left + 16 ≤ columns) × (down * 16 ≤ rows) }
    ensures { CellsMoved rows columns from.now to.old to.new left (left + 16) 0 (down * 16) }
{
    for k in 0..down {
        tile::move_tile(rows, columns, left, k * TILE, from, to);
    }
}

// The rows from `top` on, below the tiles, as far as `right`. Row by row, so that the inner loop is the long one.
fn move_rows(rows: usize, columns: usize, right: usize, top: usize, from: &[u8], to: &mut [u8])
    requires { SizedTables rows columns from.now to.old × (right ≤ columns) × (top ≤ rows) }
    ensures { CellsMoved rows columns from.now to.old to.new 0 right top rows }
{
    for j in top..rows {
        move_row(rows, columns, right, j, from, to);
    }
}

// Row j as far as `right`.
fn move_row(rows: usize, columns: usize, right: usize, j: usize, from: &[u8], to: &mut [u8])
    requires { SizedTables rows columns from.now to.old × (right ≤ columns) × (j < rows) }
    ensures { CellsMoved rows columns from.now to.old to.new 0 right j (j + 1) }
{
    for i in 0..right {
        to[i * rows + j] = from[j * columns + i];
    }
}

// The columns from `left` on, beside the tiles. Column by column, for the same reason.
fn move_columns(rows: usize, columns: usize, left: usize, from: &[u8], to: &mut [u8])
    requires { SizedTables rows columns from.now to.old × (left ≤ columns) }
    ensures { CellsMoved rows columns from.now to.old to.new left columns 0 rows }
{
    for i in left..columns {
        move_column(rows, columns, i, from, to);
    }
}

// Column i.
fn move_column(rows: usize, columns: usize, i: usize, from: &[u8], to: &mut [u8])
    requires { SizedTables rows columns from.now to.old × (i < columns) }
    ensures { CellsMoved rows columns from.now to.old to.new i (i + 1) 0 rows }
{
    for j in 0..rows {
        to[i * rows + j] = from[j * columns + i];
    }
}
