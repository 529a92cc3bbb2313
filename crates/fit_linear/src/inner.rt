// Inner functions: for the crates above, not for users. Where one has a `requires`, each caller proves it.
// Each product and each sum is rounded by itself, none fused and none moved.
ghost use Rattle.std.specs.Prelude.{◌≡◌, ℕ, ◌+◌, ◌-◌, ◌*◌, ◌<◌, ◌≤◌, length};
ghost use Rattle.std.specs.Float.{binary64};
ghost use Rattle.std.specs.Float.Ieee.{sub, mul, div};
ghost use Rattle.floats.specs.Floats as Floats;
ghost use Rattle.fit_linear.specs.Arithmetic.{rounded};
ghost use Rattle.fit_linear.specs.Elimination.{pivot_row, cleared, column_solved, gauss_jordan};
ghost use Rattle.fit_linear.specs.Inner.{float_at, rows_of, Becomes, Eliminated, Swapped};

use super::Singular;

// Rows c and p change places. By index: for `split_at_mut` and `swap_with_slice` it would first be found which of them is the upper one.
fn swap_rows(rows: &mut [f64], w: usize, c: usize, p: usize)
    requires { (c * w + w ≤ length rows.old) × (p * w + w ≤ length rows.old) }
    ensures { Swapped (c * w) (p * w) w rows.old rows.new }
{
    if c == p {
        return;
    }
    let a = c * w;
    let b = p * w;
    for k in 0..w {
        rows.swap(a + k, b + k);
    }
}

// Divides each float.
fn divide(row: &mut [f64], by: f64)
    ensures { (k : ℕ) → k < length row.old → float_at row.new k ≡ div binary64 (float_at row.old k) by }
{
    for x in row.iter_mut() {
        *x /= by;
    }
}

// A row less `factor` times the row `top`, which is read by index: of what a `zip` over `iter_mut` writes, no clause of the library says anything.
fn subtract(row: &mut [f64], top: &[f64], factor: f64)
    requires { length row.old ≤ length top.now }
    ensures { (k : ℕ) → k < length row.old → float_at row.new k ≡ sub binary64 (float_at row.old k) (mul binary64 factor (float_at top.now k)) }
{
    for (k, x) in row.iter_mut().enumerate() {
        *x -= factor * top[k];
    }
}

// Clears column c of a row by the row `top`; a zero factor skips the row.
fn clear_row(row: &mut [f64], top: &[f64], c: usize)
    requires { (c < length row.old) × (length row.old ≤ length top.now) }
    ensures { (k : ℕ) → k < length row.old → float_at row.new k ≡ cleared rounded (float_at row.old c) (float_at row.old) (float_at top.now) k }
{
    let factor = row[c];
    if factor == 0.0 {
        return;
    }
    subtract(row, top, factor);
}

// Clears column c of n rows by the row `top`. By index: `chunks_exact_mut` says what each row is, and the whole, of which the clause is, would be put together
// from them.
fn clear_rows(rows: &mut [f64], n: usize, top: &[f64], c: usize)
    requires { (c < length top.now) × (n * length top.now ≤ length rows.old) }
    ensures { let w = length top.now in
        Becomes n w (λ r. cleared rounded (rows_of w rows.old r c) (rows_of w rows.old r) (float_at top.now)) rows.old rows.new }
{
    let w = top.len();
    for r in 0..n {
        clear_row(&mut rows[r * w..r * w + w], top, c);
    }
}

// A lent slice with n rows of w floats, whose first n columns are solved.
#[derive(Drop)]
struct Rows<'a> {
    floats: &'a mut [f64],
    n: usize,
    w: usize,
    ghost fits: { (n ≤ w) × (n * w ≤ length floats.now) },
}

impl Rows<'_> {
    ghost use Rattle.fit_linear.specs.InnerMatrix.{matrix_in, RowsEliminated};

    // The size of the float in row r, column c.
    fn size(&self, r: usize, c: usize) -> f64
        requires { (r < self.now.n) × (c < self.now.w) }
        ensures { result ≡ Floats.abs (matrix_in self.now r c) }
    {
        floats::abs(self.floats[r * self.w + c])
    }

    // The row of the greatest size in column c, from the diagonal down.
    fn find_pivot(&self, c: usize) -> usize
        requires { c < self.now.n }
        ensures { (result < self.now.n) × (result ≡ pivot_row rounded (matrix_in self.now) c (self.now.n - (c + 1))) }
    {
        let mut best = c;
        for r in c + 1..self.n {
            if floats::as_great(self.size(best, c), self.size(r, c)) {
                best = r;
            }
        }
        best
    }

    // Solves column c.
    fn reduce_column(&mut self, c: usize) -> Result<(), Singular>
        requires { c < self.old.n }
        ensures { RowsEliminated (column_solved rounded self.old.n (matrix_in self.old) c) self.old result self.new }
    {
        let best = self.find_pivot(c);
        if self.size(best, c) < 1e-12 {
            return Err(Singular);
        }
        // In a variable: of `self.floats` it is not known what it holds once its parts are written.
        let floats = &mut *self.floats;
        swap_rows(floats, self.w, c, best);
        let (above, rest) = floats.split_at_mut(c * self.w);
        let (top, below) = rest.split_at_mut(self.w);
        let pivot = top[c];
        divide(top, pivot);
        clear_rows(above, c, top, c);
        clear_rows(below, self.n - (c + 1), top, c);
        Ok(())
    }

    // Solves the first n columns.
    fn reduce_columns(&mut self) -> Result<(), Singular>
        ensures { RowsEliminated (gauss_jordan rounded self.old.n (matrix_in self.old)) self.old result self.new }
    {
        for c in 0..self.n {
            self.reduce_column(c)?;
        }
        Ok(())
    }
}

// Reduces the first n columns of n rows of w floats to the identity, in place.
pub fn gauss_jordan(rows: &mut [f64], n: usize, w: usize) -> Result<(), Singular>
    requires { (n ≤ w) × (n * w ≤ length rows.old) }
    ensures { Eliminated n w (gauss_jordan rounded n (rows_of w rows.old)) rows.old result rows.new }
{
    let mut rows = Rows { floats: rows, n, w };
    rows.reduce_columns()
}
