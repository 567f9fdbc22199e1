// One f64 division of exactly cast whole numbers.
ghost use Rattle.std.specs.Prelude.{◌≡◌, ◌^◌, ◌≤◌, ◌<◌, pos};
ghost use Rattle.std.specs.Float.{binary64};
ghost use Rattle.std.specs.Float.Ieee.{of_int};
ghost use Rattle.quotients.specs.Quotient.{quotient_of, signed_of};

// 10 to the power k as an f64: a whole number up to 2^53 is cast, and a greater power is the product of two that are.
fn power_of_ten(k: usize) -> f64
    requires { k ≤ 22 }
    ensures { result ≡ of_int binary64 (pos (10 ^ k)) }
{
    let exponent = k as u32;
    if k <= 15 {
        let whole = 10_u64.pow(exponent);
        return whole as f64;
    }
    let low = 10_u64.pow(15);
    let high = 10_u64.pow(exponent - 15);
    (low as f64) * (high as f64)
}

// The digits m with k of them behind the point, and a minus or none.
pub fn quotient(m: u64, k: usize, minus: bool) -> f64
    requires m_bound { m < 10 ^ 15 }
    requires k_bound { k ≤ 22 }
    ensures { result ≡ signed_of minus (quotient_of m k) }
{
    let q = (m as f64) / power_of_ten(k);
    if minus {
        return -q;
    }
    q
}
