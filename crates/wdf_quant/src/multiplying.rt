ghost use Rattle.std.specs.Prelude.{◌≡◌, ◌*◌, ◌<◌, ◌≤◌, ◌^◌};
ghost use Rattle.wdf_frac.specs.Units.{nearest};
ghost use Rattle.wdf_quant.specs.Multiplier.{multiplier};

/// The multiplier of an adaptor between two ports of the ratios `r1` and `r2`, which are in
/// `1..=2^62`, in units of `2^-k`, with `k` in 1..=20. It is that of a series adaptor, or else of a
/// parallel one or of the root.
///
/// It is the nearest whole number, half up, to `2^k·x/(r1 + r2)`, with `x = r1` for a series
/// adaptor and `x = r2` for the others, limited to `1..=2^k - 1`. It takes no memory.
pub fn multiplier(r1: u64, r2: u64, series: bool, k: u8) -> u32
    requires first { 1 ≤ r1 }
    requires second { 1 ≤ r2 }
    requires first_fits { r1 ≤ 2 ^ 62 }
    requires second_fits { r2 ≤ 2 ^ 62 }
    requires some { 1 ≤ k }
    requires few { k ≤ 20 }
    ensures value { result ≡ multiplier (2 ^ k) series r1 r2 }
    ensures range { (1 ≤ result) × (result < 2 ^ k) }
{
    let sum = u128::from(r1) + u128::from(r2);
    let most = (1u128 << k) - 1;
    let value = nearest(if series { r1 } else { r2 }, sum, k);
    value.min(most).max(1) as u32
}

// The nearest whole number, half up, to `2^k·x/sum`.
fn nearest(x: u64, sum: u128, k: u8) -> u128
    requires some { 1 ≤ sum }
    requires fits { sum ≤ 2 ^ 63 }
    requires few { k ≤ 20 }
    ensures { result ≡ nearest (2 ^ k * x) sum }
{
    (2 * (u128::from(x) << k) + sum) / (2 * sum)
}
