// Whole numbers of at most ten digits. `None` is a number that was too large; any sum or product with it is `None` too.
ghost use Rattle.std.specs.Prelude.{◌≡◌};
ghost use Rattle.sps_expr.specs.Value.{in_range, number_in_range};
ghost use Rattle.sps_expr.specs.Steps.{times, plus};

// The largest magnitude of a number, a symbol's value, a location and a partial result.
const LARGEST: i64 = 9_999_999_999;

fn in_range(v: i64) -> bool
    ensures { result ≡ in_range v }
{
    -LARGEST <= v && v <= LARGEST
}

pub(crate) fn number_in_range(v: i64) -> Option<i64>
    ensures { result ≡ number_in_range v }
{
    if in_range(v) { Some(v) } else { None }
}

pub(crate) fn times(a: Option<i64>, b: Option<i64>) -> Option<i64>
    ensures { result ≡ times a b }
{
    number_in_range(a?.checked_mul(b?)?)
}

// The sum, or with `minus` the difference.
pub(crate) fn plus(a: Option<i64>, minus: bool, b: Option<i64>) -> Option<i64>
    ensures { result ≡ plus a minus b }
{
    let x = a?;
    let y = b?;
    let sum = if minus {
        x.checked_sub(y)?
    } else {
        x.checked_add(y)?
    };
    number_in_range(sum)
}
