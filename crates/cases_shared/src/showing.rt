// The words of an answer, printed.
use tally::TablesView;

pub fn show(rt: &impl Print, w: u64) {
    let _ = rt.print(w);
}

// Words, each with a text before it and one after it.
pub fn show_all(rt: &impl Print, before: &str, words: &[u64], after: &str) {
    for w in words {
        let _ = print!(rt; "{before}{w}{after}");
    }
}

// A word with a space after it.
pub fn show_before(rt: &impl Print, w: u64) {
    show_all(rt, "", &[w], " ");
}

// A word with a space before it.
pub fn show_after(rt: &impl Print, w: u64) {
    show_all(rt, " ", &[w], "");
}

// The entries of n by n cells that are not 0: kind, row, column, value. The kind is the number that is printed, here and below.
fn show_cells(rt: &impl Print, kind: u64, n: usize, table: &[u64]) {
    for (k, v) in table.iter().enumerate() {
        if *v != 0 && n != 0 {
            show_all(rt, " ", &[kind, (k / n) as u64, (k % n) as u64, *v], "");
        }
    }
}

// The entries of totals that are not 0: kind 2 has the total, kind 3 its opposite.
fn show_totals(rt: &impl Print, move_half_ticks: &[i64]) {
    for (i, total) in move_half_ticks.iter().enumerate() {
        if *total != 0 {
            let kind = if *total > 0 { 2 } else { 3 };
            show_all(rt, " ", &[kind, i as u64, 0, total.unsigned_abs()], "");
        }
    }
}

// How many entries, and the entries, of tables of n states.
pub fn show_entries(rt: &impl Print, n: usize, tables: TablesView<'_>) {
    let stays = tables.stay.iter().filter(|v| **v != 0).count();
    let moves = tables.moved.iter().filter(|v| **v != 0).count();
    let totals = tables.move_half_ticks.iter().filter(|v| **v != 0).count();
    show(rt, (stays + moves + totals) as u64);
    show_cells(rt, 0, n, tables.stay);
    show_cells(rt, 1, n, tables.moved);
    show_totals(rt, tables.move_half_ticks);
}
