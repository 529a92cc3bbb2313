// Signed totals and the changes that are added to them. Inner functions: for the crates above, not for users. Where one has a `requires`, each caller proves
// it.
ghost use Rattle.std.specs.Prelude.{◌≡◌, ◌≤◌, nat_abs, ◌+ℤ◌};
ghost use Rattle.basics.specs.Domain.{most_half_ticks};
ghost use Rattle.tally.specs.Totals.{change, within};

use basics::CELL_LIMIT;

// The change of the mid from `from` to `to`.
pub fn change(from: u64, to: u64) -> i64
    requires { (from ≤ most_half_ticks) × (to ≤ most_half_ticks) }
    ensures { result ≡ change from to }
{
    to as i64 - from as i64
}

// Its size.
pub fn distance(from: u64, to: u64) -> u64
    ensures { result ≡ nat_abs (change from to) }
{
    from.abs_diff(to)
}

pub fn is_within(total: i64) -> bool
    ensures { result ≡ within total }
{
    total.unsigned_abs() <= CELL_LIMIT
}

// Whether a total, whatever it is, would be within the limit with d added: a sum that no word holds is outside.
pub fn is_within_after(total: i64, d: i64) -> bool
    ensures { result ≡ within (total +ℤ d) }
{
    total.checked_add(d).is_some_and(is_within)
}
