// The numbers that tell how exact the answers about a product are.

/// The scales and the bound of a product, and its radii at issue and, forward, at the term, in units of 2^-64.
#[derive(Clone, Copy, Debug)]
pub(crate) struct Limits {
    pub scale: u32,
    /// In 1/1024 minor units.
    pub bound1024: u128,
    pub radius: u128,
    pub radius_forward: u128,
    pub radius_second: u128,
    pub pattern_scale: u32,
}
