//! The greatest and the least of the six Bernstein coefficients of a month.

ghost use Rattle.std.specs.Prelude.{◌≡◌, map, unsigned_abs};
ghost use Rattle.whole_laws.specs.Whole.{greatest_natural, greatest_whole, least_whole};

/// The greatest of six numbers.
pub(crate) fn greatest(numbers: &[i128; 6]) -> i128
    ensures { result ≡ greatest_whole numbers.now }
{
    let [a, b, c, d, e, f] = *numbers;
    a.max(b.max(c.max(d.max(e.max(f)))))
}

/// The least of six numbers.
pub(crate) fn least(numbers: &[i128; 6]) -> i128
    ensures { result ≡ least_whole numbers.now }
{
    let [a, b, c, d, e, f] = *numbers;
    a.min(b.min(c.min(d.min(e.min(f)))))
}

/// The greatest size of six numbers.
pub(crate) fn greatest_size(numbers: &[i128; 6]) -> u128
    ensures { result ≡ greatest_natural (map unsigned_abs numbers.now) }
{
    let [a, b, c, d, e, f] = numbers.map(i128::unsigned_abs);
    a.max(b.max(c.max(d.max(e.max(f)))))
}
