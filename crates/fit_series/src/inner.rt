// Inner functions: for the crates above, not for users. Where one has a `requires`, each caller proves it.
// Each product and each sum is rounded by itself, none fused and none moved.
ghost use Rattle.std.specs.Prelude.{◌≡◌, List, ℕ, ◌+◌, ◌-◌, ◌*◌, ◌<◌, ◌≤◌, length, Float};
ghost use Rattle.std.specs.Float.{binary64};
ghost use Rattle.std.specs.Float.Ieee.{add};
ghost use Rattle.floats.specs.Floats as Floats;
ghost use Rattle.fit_linear.specs.Arithmetic.{rounded};
ghost use Rattle.fit_linear.specs.Inner.{float_at, from, rows_of, Filled};
ghost use Rattle.fit_series.specs.Series.{times, plus, largest, summed, sum_series, share_after, fallback_within};
ghost use Rattle.fit_series.specs.Inner.{width, sum_at, share_at, term_at, next_at, solved_g1, solved_f, solved_b, Scratch, Summed, last_product, Shared, Dots, ProductTo, Column, TermAdded};

use super::NotConverged;

// The dot products of R rows, w apart from i on, with n floats from j on: side by side, each left to right. By index, since the rows are parts of one slice.
fn dots<const R: usize>(s: &[f64], i: usize, w: usize, j: usize, n: usize) -> [f64; R]
    requires { (0 < R) × (R ≤ 4) × (i + (R - 1) * w + n ≤ length s.now) × (j + n ≤ length s.now) }
    ensures { Dots R i w j n s.now result }
{
    let mut sums = [-0.0; R];
    for k in 0..n {
        let v = s[j + k];
        for r in 0..R {
            sums[r] += s[i + r * w + k] * v;
        }
    }
    sums
}

// n places from `to` on become column c of n rows of w plus the n places from v on. By index: it reads the slice that it writes.
fn add_column(s: &mut [f64], n: usize, w: usize, c: usize, v: usize, to: usize)
    requires { Column n w c to s.old × (to + n ≤ v) × (v + n ≤ length s.old) }
    ensures { Filled to n (λ k. add binary64 (rows_of w s.old k c) (from v s.old k)) s.old s.new }
{
    for k in 0..n {
        s[to + k] = s[k * w + c] + s[v + k];
    }
}

// The largest size.
fn largest_of(v: &[f64]) -> f64
    ensures { result ≡ largest rounded (length v.now) (float_at v.now) }
{
    let mut largest = 0.0;
    for x in v {
        largest = floats::max(largest, floats::abs(*x));
    }
    largest
}

// Clamps to 0..1.
fn clamp_all(v: &mut [f64])
    ensures { (k : ℕ) → k < length v.old → float_at v.new k ≡ Floats.clamp (float_at v.old k) }
{
    for x in v.iter_mut() {
        *x = floats::clamp(*x);
    }
}

// The lent scratch of a fit of n states: the rows, and behind them the vectors. Their places are numbers, since a fit's memory is one lent slice (document 01).
#[derive(Drop)]
struct LentScratch<'a> {
    floats: &'a mut [f64],
    n: usize,
    ghost fits: { Scratch n floats.now },
}

impl LentScratch<'_> {
    ghost use Rattle.fit_series.specs.InnerLent.{Changed};

    // The width of a row.
    fn width(&self) -> usize
        ensures { result ≡ width self.now.n }
    {
        2 * self.n + 2
    }

    fn sum(&self) -> usize
        ensures { result ≡ sum_at self.now.n }
    {
        self.n * self.width()
    }

    fn share(&self) -> usize
        ensures { result ≡ share_at self.now.n }
    {
        self.sum() + self.n
    }

    fn term(&self) -> usize
        ensures { result ≡ term_at self.now.n }
    {
        self.sum() + 2 * self.n
    }

    fn next(&self) -> usize
        ensures { result ≡ next_at self.now.n }
    {
        self.sum() + 3 * self.n
    }

    // n places from `to` on become column c of the rows. Apart from `add_column`: what one function would be given for each k reads the slice it writes.
    fn copy_column(&mut self, c: usize, to: usize)
        requires { Column self.old.n (width self.old.n) c to self.old.floats.now }
        ensures { Changed (λ n l m. Filled to n (λ k. rows_of (width n) l k c) l m) self.old self.new }
    {
        let w = self.width();
        for k in 0..self.n {
            self.floats[to + k] = self.floats[k * w + c];
        }
    }

    // R rows of B at a time, so many times from row `first` on, times the vector of n floats from v on, into next. The sums are written one by one:
    // `copy_from_slice` tests at each call whether they overlap the scratch, and a series of 27 states takes 2 to 3 in 100 longer.
    fn multiply_rows<const R: usize>(&mut self, v: usize, first: usize, count: usize)
        requires { (0 < R) × (R ≤ 4) × (v + self.old.n ≤ next_at self.old.n) × (first + count * R ≤ self.old.n) }
        ensures { Changed (λ n l m. (k : List Float) → ProductTo n v first k l → ProductTo n v (first + count * R) k m) self.old self.new }
    {
        let n = self.n;
        let w = self.width();
        let next = self.next();
        // In a variable: of `self.floats` it is not known what it holds once `dots` has read it.
        let floats = &mut *self.floats;
        for b in 0..count {
            let r = first + b * R;
            let sums = dots::<R>(floats, r * w + (n + 2), w, v, n);
            for q in 0..R {
                floats[next + r + q] = sums[q];
            }
        }
    }

    // B times the vector of n floats from v on, into next: four rows at a time, and the rest one by one. In line, so that a round of few states does not read
    // the struct anew.
    #[inline(always)]
    fn multiply(&mut self, v: usize)
        requires { v + self.old.n ≤ next_at self.old.n }
        ensures { Changed (λ n l m. ProductTo n v n l m) self.old self.new }
    {
        let fours = self.n / 4;
        self.multiply_rows::<4>(v, 0, fours);
        self.multiply_rows::<1>(v, fours * 4, self.n % 4);
    }

    // The largest size of the term.
    fn largest_term(&self) -> f64
        ensures { result ≡ largest rounded self.now.n (from (term_at self.now.n) self.now.floats.now) }
    {
        let term = self.term();
        largest_of(&self.floats[term..term + self.n])
    }

    // The next term, added on. Answers its largest size.
    fn add_term(&mut self) -> f64
        ensures { Changed (λ n l m. TermAdded n l result m) self.old self.new }
    {
        let n = self.n;
        let sum = self.sum();
        let term = self.term();
        let next = self.next();
        self.multiply(term);
        self.floats.copy_within(next..next + n, term);
        add_column(self.floats, n, 1, sum, next, sum);
        self.largest_term()
    }

    // Adds terms on to a sum.
    fn add_terms(&mut self, rounds: usize) -> Result<(), NotConverged>
        ensures { Changed (λ n l m. Summed n rounds (summed rounded n (solved_b n l) rounds (from (sum_at n) l) (from (term_at n) l)) l result m) self.old self.new }
    {
        for made in 0..rounds {
            let largest = self.add_term();
            if floats::is_infinite(largest) {
                return Err(NotConverged);
            }
            if largest < 1e-12 {
                return Ok(());
            }
        }
        Err(NotConverged)
    }

    // One round of the share.
    fn next_share(&mut self)
        ensures { Changed (λ n l m. let p = times rounded n (solved_b n l) (from (share_at n) l) in Shared n 1 (plus rounded (solved_f n l) p) p l m) self.old self.new }
    {
        let n = self.n;
        let w = self.width();
        let share = self.share();
        let next = self.next();
        self.multiply(share);
        add_column(self.floats, n, w, n + 1, next, share);
    }

    // Rounds of the share, from F.
    fn add_shares(&mut self, rounds: usize)
        requires { (k : ℕ) → k < self.old.n → from (share_at self.old.n) self.old.floats.now k ≡ solved_f self.old.n self.old.floats.now k }
        ensures { Changed (λ n l m. let B = solved_b n l in let F = solved_f n l in
            Shared n rounds (share_after rounded n B F rounds) (last_product n B F rounds) l m) self.old self.new }
    {
        for done in 0..rounds {
            self.next_share();
        }
    }

    // The series from G1.
    fn sum_series(&mut self, rounds: usize) -> Result<(), NotConverged>
        ensures { Changed (λ n l m. Summed n rounds (sum_series rounded n (solved_b n l) (solved_g1 n l) rounds) l result m) self.old self.new }
    {
        let n = self.n;
        self.copy_column(n, self.sum());
        self.copy_column(n, self.term());
        self.add_terms(rounds)
    }

    // The share after so many rounds, clamped to 0..1.
    fn fallback_within(&mut self, rounds: usize)
        ensures { Changed (λ n l m. let B = solved_b n l in let F = solved_f n l in
            Shared n rounds (fallback_within rounded n B F rounds) (last_product n B F rounds) l m) self.old self.new }
    {
        let n = self.n;
        let share = self.share();
        self.copy_column(n + 1, share);
        self.add_shares(rounds);
        clamp_all(&mut self.floats[share..share + n]);
    }
}

// The series from G1, with at most so many rounds (document 01: 10,000).
pub fn sum_series(scratch: &mut [f64], n: usize, rounds: usize) -> Result<(), NotConverged>
    requires { Scratch n scratch.old }
    ensures { Summed n rounds (sum_series rounded n (solved_b n scratch.old) (solved_g1 n scratch.old) rounds) scratch.old result scratch.new }
{
    let mut lent = LentScratch { floats: scratch, n };
    lent.sum_series(rounds)
}

// The probability of reaching a fallback state within so many moves of the mid (document 01: 10).
pub fn fallback_within_moves(scratch: &mut [f64], n: usize, rounds: usize)
    requires { Scratch n scratch.old }
    ensures { let B = solved_b n scratch.old in let F = solved_f n scratch.old in
        Shared n rounds (fallback_within rounded n B F rounds) (last_product n B F rounds) scratch.old scratch.new }
{
    let mut lent = LentScratch { floats: scratch, n };
    lent.fallback_within(rounds);
}
