// The tables and the image of a case.
ghost use Rattle.std.specs.Prelude.{◌≡◌, ◌*◌, ◌≤◌};

use crate::reading::{parts_at, set_at, word_at};
use calibrator::Record;
use image_words::Word;
use tally::{LentTables, TablesView};

// A record of so many pairs, before its first quote.
pub fn record_of(pairs: u64) -> Record {
    let mut rec = Record::default();
    rec.counters.pairs = pairs;
    rec
}

// The states of a case; no case has more than 255. This and the cells are beside those of `config` and `image_layout`, which ask for a valid configuration.
pub fn states_of(words: &[u64]) -> u8 {
    let n = word_at(words, 2) % 256;
    let s = word_at(words, 3) % 256;
    (n * s % 256) as u8
}

// The cells of a table.
pub fn cell_count(n: u8) -> usize
    ensures { (result ≡ n * n) × (result ≤ 65025) }
{
    let n = usize::from(n);
    n * n
}

// Enters a quadruple. Its last is the value: kind 0 in a cell of stay, 1 in one of moved, 2 as the total of i, 3 as its opposite.
fn enter(entry: &[u64; 4], n: u8, tables: &mut LentTables<'_>) {
    let [kind, i, j, v] = *entry;
    let i = (i % 256) as usize;
    let cell = usize::from(n) * i + (j % 256) as usize;
    // A word of the case's text, matched once: an enum would say each number and each case twice.
    match kind {
        0 => set_at(tables.stay, cell, v),
        1 => set_at(tables.moved, cell, v),
        2 => set_at(tables.move_half_ticks, i, v.cast_signed()),
        _ => set_at(tables.move_half_ticks, i, v.wrapping_neg().cast_signed()),
    }
}

// Enters the entries whose number is word `at`.
pub fn fill(words: &[u64], at: usize, n: u8, tables: &mut LentTables<'_>) {
    for entry in parts_at(words, at) {
        enter(entry, n, tables);
    }
}

// Where the moved cells begin in an image of n states. Apart from `image_layout`, which writes a true header alone: a case's may hold any words.
fn moved_at(n: u8) -> usize
    ensures { result ≤ 520360 }
{
    image_layout::HEADER + 8 * cell_count(n)
}

// Where its totals begin.
fn totals_at(n: u8) -> usize
    ensures { result ≤ 1040560 }
{
    image_layout::HEADER + 16 * cell_count(n)
}

pub fn image_length(n: u8) -> usize
    ensures { result ≤ 1042600 }
{
    totals_at(n) + 8 * usize::from(n)
}

// Writes a table, if it has room.
fn put_table<T: Word>(image: &mut [u8], at: usize, table: &[T]) {
    if at <= image.len() && table.len() <= (image.len() - at) / 8 {
        image_words::put_table(image, at, table);
    }
}

// Writes the header of case 3's image: words 1 to 5 of the case are the configuration, 6 to 15 the record.
fn put_header(words: &[u64], n: u8, image: &mut [u8]) {
    let header = [
        u64::from(n),
        word_at(words, 2),
        word_at(words, 3),
        word_at(words, 1),
        word_at(words, 4),
        word_at(words, 5),
        image_layout::HEADER as u64,
        moved_at(n) as u64,
        totals_at(n) as u64,
        word_at(words, 6),
        word_at(words, 7),
        word_at(words, 8),
        word_at(words, 9),
        word_at(words, 10),
        word_at(words, 11),
        word_at(words, 12),
        word_at(words, 13),
        word_at(words, 14),
        word_at(words, 15),
        image_length(n) as u64,
    ];
    put_table(image, 0, &header);
}

// Writes the image of case 3.
pub fn put_image(words: &[u64], n: u8, tables: TablesView<'_>, image: &mut [u8]) {
    put_header(words, n, image);
    put_table(image, image_layout::HEADER, tables.stay);
    put_table(image, moved_at(n), tables.moved);
    put_table(image, totals_at(n), tables.move_half_ticks);
}
