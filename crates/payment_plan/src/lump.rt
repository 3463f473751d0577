//! Lumps, which are paid at a date.

/// `amount` minor units, paid at the end of so many months since issue if the life is then in the state.
#[derive(Clone, Copy, Debug, PartialEq, Eq)]
pub struct Lump {
    pub month: u32,
    pub state: usize,
    pub amount: i64,
}
