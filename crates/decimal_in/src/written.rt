// A decimal as it is written.

/// A decimal as it is written: `places` digits stand behind the point, 0 to 6, and the number is `units / 10^places`.
/// So `-0.010` is -10 at 3 places.
#[derive(Clone, Copy, Debug, PartialEq, Eq)]
pub struct Decimal {
    pub units: i128,
    pub places: u32,
}
