// The entry points that move a job between the older strips (the Larsson code) and Construction A for programs in other languages. Assumes nothing.
ghost use Rattle.std.specs.Prelude.{◌≡◌};
ghost use Rattle.cells.specs.Outcomes.{unwritten};
ghost use Rattle.cells.specs.Figures.{params};
ghost use Rattle.lent_moving.specs.Moves.{to_construction_a_bytes, to_larsson_bytes};

use params::Params;

// Moves the job of an older strip, which the table has open, to a strip of Construction A with the same figures and placement.
// Refusals: 1 2 10 3 4 21 8 9 19 10, 12 23 14, 22, 17.
#[unsafe(no_mangle)]
pub extern "C" fn burgzemi_move_to_a(
    n: u32,
    q: u32,
    m: u32,
    b: u32,
    table: &[u8],
    older: &[u8],
    newer: &mut [u8],
) -> u8
    ensures { unwritten newer.new result ≡ to_construction_a_bytes (params n q m b) table.now older.now newer.old }
{
    lent_moving::move_to_a(Params { n, q, m, b }, table, older, newer)
}

// Moves the job of a strip of Construction A back to an older one. Refusals: 1 2 10 3 4 7 19 8 9 19 10, 12 23 14, 22, 17.
#[unsafe(no_mangle)]
pub extern "C" fn burgzemi_move_to_larsson(
    n: u32,
    q: u32,
    m: u32,
    b: u32,
    table: &[u8],
    newer: &[u8],
    older: &mut [u8],
) -> u8
    ensures { unwritten older.new result ≡ to_larsson_bytes (params n q m b) table.now newer.now older.old }
{
    lent_moving::move_to_larsson(Params { n, q, m, b }, table, newer, older)
}
