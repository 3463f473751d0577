//! How the coefficients of a system follow from one another. Each function says laws and returns at once.

ghost use Rattle.cell_laws.specs.Recurrence.{CoefficientsRecur, SecondCoefficientsRecur};
ghost use Rattle.cell_laws.specs.Recurrence.{TaylorValueSums, SecondTaylorValueSums, NormsAreDriven};
ghost use Rattle.cell_laws.specs.Recurrence.{TaylorValuesStayWithin, SecondTaylorValuesStayWithin};
ghost use Rattle.cell_laws.specs.Recurrence.{TaylorValuesKeepDimension, SecondTaylorValuesKeepDimension};
ghost use Rattle.cell_laws.specs.Recurrence.{CoefficientsSuperpose, TaylorValuesSuperpose};
ghost use Rattle.cell_laws.specs.Recurrence.{SecondTaylorValuesSuperpose};

/// `(k + 1) y_(k+1)` is the sum of `A_m y_(k-m)` and `g_k`, and for the second half of a pair also of
/// `C_m w_(k-m)`.
pub fn coefficients_recur()
    ensures single { CoefficientsRecur }
    ensures second { SecondCoefficientsRecur }
{}

/// A Taylor value is the sum of its coefficients.
pub fn taylor_value_sums()
    ensures single { TaylorValueSums }
    ensures second { SecondTaylorValueSums }
{}

/// Two runs of one system differ by the homogeneous run of the difference of their starts.
pub fn runs_superpose()
    ensures coefficients { CoefficientsSuperpose }
    ensures values { TaylorValuesSuperpose }
    ensures second_values { SecondTaylorValuesSuperpose }
{}

/// The norms of the coefficients are driven by the norms of the matrices and of the free vectors.
pub fn norms_are_driven()
    ensures { NormsAreDriven }
{}

/// A Taylor value is within the sum of the norms of its coefficients.
pub fn taylor_values_stay_within()
    ensures single { TaylorValuesStayWithin }
    ensures second { SecondTaylorValuesStayWithin }
{}

/// Taylor values have at most as many numbers as the system's dimension.
pub fn taylor_values_keep_dimension()
    ensures single { TaylorValuesKeepDimension }
    ensures second { SecondTaylorValuesKeepDimension }
{}
