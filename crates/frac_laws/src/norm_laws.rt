//! The laws of the norms. Each function says one law, computes nothing and returns at once.

ghost use Rattle.frac_laws.specs.NormLaws.{SumIsWithinNorms, MultipleScalesNorm, ImageIsWithinNorms};
ghost use Rattle.frac_laws.specs.NormLaws.{MatrixSumIsWithinNorms, MatrixMultipleScalesNorm};
ghost use Rattle.frac_laws.specs.NormLaws.{NumberIsWithinNorm, NumberIsWithinMatrixNorm};

/// `|v + w| <= |v| + |w|`.
pub fn norm_of_sum()
    ensures { SumIsWithinNorms }
{}

/// `|c v| = |c| |v|`.
pub fn norm_of_multiple()
    ensures { MultipleScalesNorm }
{}

/// `|A v| <= |A| |v|`.
pub fn norm_of_image()
    ensures { ImageIsWithinNorms }
{}

/// `|A + B| <= |A| + |B|`.
pub fn norm_of_matrix_sum()
    ensures { MatrixSumIsWithinNorms }
{}

/// `|c A| = |c| |A|`.
pub fn norm_of_matrix_multiple()
    ensures { MatrixMultipleScalesNorm }
{}

/// Each number of a vector or matrix is of at most its norm in size.
pub fn number_within_norm()
    ensures vector { NumberIsWithinNorm }
    ensures matrix { NumberIsWithinMatrixNorm }
{}
