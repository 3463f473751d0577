//! The transitions of the generated product.
ghost use Rattle.std.specs.Prelude.{◌≡◌, ◌≤◌};
ghost use Rattle.workload_gen.specs.Transitions.{from_of, to_of, is_death, level_of, spread_of};

/// A transition, in the order of the file.
#[derive(Clone, Copy)]
pub enum Transition {
    Disability,
    Recovery,
    DeathOfActive,
    DeathOfDisabled,
}

impl Transition {
    /// The state that it leads from.
    pub fn from(self) -> &'static str
        ensures { result.now ≡ from_of self }
    {
        match self {
            Transition::Disability | Transition::DeathOfActive => "active",
            Transition::Recovery | Transition::DeathOfDisabled => "disabled",
        }
    }

    /// The state that it leads to.
    pub fn to(self) -> &'static str
        ensures { result.now ≡ to_of self }
    {
        match self {
            Transition::Disability => "disabled",
            Transition::Recovery => "active",
            Transition::DeathOfActive | Transition::DeathOfDisabled => "dead",
        }
    }

    /// Whether it is a death, for which a sum is paid.
    pub fn is_death(self) -> bool
        ensures { result ≡ is_death self }
    {
        match self {
            Transition::Disability | Transition::Recovery => false,
            Transition::DeathOfActive | Transition::DeathOfDisabled => true,
        }
    }

    /// The intensity at the beginning of a year, before a draw is added: 10^-9 a year.
    pub fn level(self, year: u32) -> u32
        requires { year ≤ 64 }
        ensures { result ≡ level_of self year }
    {
        match self {
            Transition::Disability => 1_000_000 + 10_000 * year * year,
            Transition::Recovery => 200_000_000 - 3_000_000 * year,
            Transition::DeathOfActive => 500_000 + 20_000 * year * year,
            Transition::DeathOfDisabled => 10_000_000 + 30_000 * year * year,
        }
    }

    /// What is drawn to it is below this.
    pub fn spread(self) -> u32
        ensures { result ≡ spread_of self }
    {
        match self {
            Transition::Disability | Transition::DeathOfActive => 100_000,
            Transition::Recovery | Transition::DeathOfDisabled => 1_000_000,
        }
    }
}
