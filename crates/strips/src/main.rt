// Runs the bench strips that are not starred, strips at the limits of document 02, ticket 11, and word write on starred ones, and writes what the proved
// functions answer, a line for each. Assumes nothing.
#![tactic(auto)]

use codes::Figures;
use jobs::{JobTable, TableAnswer};
use params::Params;
use placements::Placement;
use refusals::Refusal;
use std::io;

fn main(rt: HostRuntime) -> io::Result<()> {
    figures_row(&rt, strip(60, 17, 2, 9))?;
    figures_row(&rt, strip(60, 17, 2, 10))?;
    longer_rows(&rt)?;
    sound_row(&rt)?;
    worn_row(&rt)?;
    first_written(&rt)?;
    second_written(&rt)?;
    third_written(&rt)?;
    read_rows(&rt)?;
    table_rows(&rt)
}

// Strips of up to 4096 symbols and eight bursts: the largest counts, and where a longer burst fits and a shorter one has too many placements.
fn longer_rows(rt: &impl Print) -> io::Result<()> {
    byte_row(rt, 4096, 6, 1)?;
    byte_row(rt, 4096, 6, 112)?;
    byte_row(rt, 4096, 7, 1)?;
    byte_row(rt, 1999, 7, 39)?;
    byte_row(rt, 999, 8, 15)?;
    byte_row(rt, 888, 8, 1)?;
    byte_row(rt, 888, 8, 2)?;
    byte_row(rt, 64, 8, 1)?;
    byte_row(rt, 4097, 1, 1)?;
    byte_row(rt, 4096, 9, 1)
}

// Symbols that are bytes.
fn byte_row(rt: &impl Print, n: u32, m: u32, b: u32) -> io::Result<()> {
    figures_row(rt, strip(n, 256, m, b))
}

// The answer to figures alone: T, r and k, or the refusal.
fn figures_row(rt: &impl Print, p: Params) -> io::Result<()> {
    put(rt, "n ", p.n as u64)?;
    put(rt, " q ", p.q as u64)?;
    put(rt, " m ", p.m as u64)?;
    put(rt, " b ", p.b as u64)?;
    match Figures::Ranked(p).layout() {
        Err(refusal) => put_refused(rt, refusal)?,
        Ok(layout) => {
            put(rt, ": T ", layout.placement_count())?;
            put(rt, ", r ", layout.index_tail() as u64)?;
            put(rt, ", k ", layout.message_len as u64)?;
        }
    }
    println!(rt;)
}

// Covering on the first strip, without a defect and with one at position 12.
fn sound_row(rt: &impl Print) -> io::Result<()> {
    let map = [0u8; 30];
    let answer = codes::cover(Figures::Ranked(first_strip()), &map);
    cover_row(rt, "no defect", answer)
}

fn worn_row(rt: &impl Print) -> io::Result<()> {
    let mut map = [0u8; 30];
    map[12] = 1;
    let answer = codes::cover(Figures::Ranked(first_strip()), &map);
    cover_row(rt, "defect at 12", answer)
}

// Word write on the three starred strips, with messages that have one symbol throughout.
fn first_written(rt: &impl Print) -> io::Result<()> {
    let message = [1u8; 20];
    let mut word = [0u8; 30];
    let at = placement(12, 0, 0, 1);
    write_row(
        rt,
        "start 12, message 1: ",
        first_strip(),
        at,
        &message,
        &mut word,
    )
}

fn second_written(rt: &impl Print) -> io::Result<()> {
    let message = [2u8; 44];
    let mut word = [0u8; 60];
    let at = placement(8, 12, 0, 2);
    write_row(
        rt,
        "starts 8 12, message 2: ",
        strip(60, 4, 2, 4),
        at,
        &message,
        &mut word,
    )
}

fn third_written(rt: &impl Print) -> io::Result<()> {
    let message = [2u8; 66];
    let mut word = [0u8; 90];
    let at = placement(22, 30, 65, 3);
    write_row(
        rt,
        "starts 22 30 65, message 2: ",
        strip(90, 3, 3, 3),
        at,
        &message,
        &mut word,
    )
}

// The answer, and what the word then holds.
fn write_row(
    rt: &impl Print,
    what: &str,
    figures: Params,
    at: Placement,
    message: &[u8],
    word: &mut [u8],
) -> io::Result<()> {
    let answer = refusals::answer(codes::encode(Figures::Ranked(figures), at, message, word));
    put(rt, what, answer as u64)?;
    print!(rt; " ")?;
    put_symbols(rt, word)?;
    println!(rt;)
}

// Up to three starts.
fn placement(first: u16, second: u16, third: u16, count: u32) -> Placement {
    Placement {
        starts: [first, second, third, 0, 0, 0, 0, 0],
        count,
    }
}

// Word read on the first strip: all 0, all 1, and its word with other symbols in the index block.
fn read_rows(rt: &impl Print) -> io::Result<()> {
    read_row(rt, "all 0", &[0u8; 30])?;
    read_row(rt, "all 1", &[1u8; 30])?;
    read_row(rt, "111111", &first_word([1, 1, 1, 1, 1, 1]))?;
    read_row(rt, "100000", &first_word([1, 0, 0, 0, 0, 0]))?;
    read_row(rt, "101100", &first_word([1, 0, 1, 1, 0, 0]))
}

// The first strip's word with these symbols in its index block.
fn first_word(index: [u8; 6]) -> [u8; 30] {
    let mut word = [1u8; 30];
    word[0] = 0;
    word[12] = 0;
    word[13] = 0;
    word[14] = 0;
    word[20] = index[0];
    word[21] = index[1];
    word[22] = index[2];
    word[23] = index[3];
    word[24] = index[4];
    word[25] = index[5];
    word
}

fn read_row(rt: &impl Print, what: &str, word: &[u8]) -> io::Result<()> {
    let mut message = [0u8; 20];
    print!(rt; "{what}")?;
    let found = codes::decode(Figures::Ranked(first_strip()), word, &mut message);
    match found.answer {
        Err(refusal) => put_refused(rt, refusal)?,
        Ok(rank) => {
            put(rt, ": rank ", rank)?;
            put(rt, ", start ", found.placement.starts[0] as u64)?;
            print!(rt; ", message ")?;
            put_symbols(rt, &message)?;
        }
    }
    println!(rt;)
}

// Symbols one after the other, each below 10.
fn put_symbols(rt: &impl Print, symbols: &[u8]) -> io::Result<()> {
    for symbol in symbols {
        print!(rt; "{symbol}")?;
    }
    Ok(())
}

// The figures of the first strip, and of any.
fn first_strip() -> Params {
    strip(30, 2, 1, 3)
}

fn strip(n: u32, q: u32, m: u32, b: u32) -> Params {
    Params { n, q, m, b }
}

fn cover_row(rt: &impl Print, what: &str, found: Result<Placement, Refusal>) -> io::Result<()> {
    print!(rt; "{what}")?;
    match found {
        Ok(placement) => put(rt, ": start ", placement.starts[0] as u64)?,
        Err(refusal) => put_refused(rt, refusal)?,
    }
    println!(rt;)
}

// The table filled with the jobs 1 to 64; then 65 is refused, and opens once 1 is finished.
fn table_rows(rt: &impl Print) -> io::Result<()> {
    let mut table = JobTable::empty();
    for number in 1..=64 {
        table = call_row(rt, "open ", number, table.open(number))?;
    }
    table = call_row(rt, "open ", 65, table.open(65))?;
    table = call_row(rt, "finish ", 1, table.finish(1))?;
    call_row(rt, "open ", 65, table.open(65))?;
    Ok(())
}

// The answer of a call; the table that it hands back goes on.
fn call_row(rt: &impl Print, what: &str, number: u32, called: TableAnswer) -> io::Result<JobTable> {
    put(rt, what, number as u64)?;
    put(rt, ": ", refusals::answer(called.answer) as u64)?;
    println!(rt;)?;
    Ok(called.table)
}

// Writes a text and the number behind it, each by itself.
fn put(rt: &impl Print, what: &str, number: u64) -> io::Result<()> {
    print!(rt; "{what}")?;
    print!(rt; "{number}")
}

fn put_refused(rt: &impl Print, refusal: Refusal) -> io::Result<()> {
    put(rt, ": refused ", u8::from(refusal) as u64)
}
