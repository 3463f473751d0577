//! The systems of a cell and the equations of the literature. Each function says laws and returns at once.

ghost use Rattle.model_laws.specs.Equations.{ThieleSystemSolves, NorbergPairSolves};
ghost use Rattle.model_laws.specs.Equations.{KolmogorovSystemSolves};
ghost use Rattle.model_laws.specs.ShapeLaws.{CellsAreQuintic};
ghost use Rattle.model_laws.specs.MomentLaws.{FirstMomentsAgree};

/// The coefficients of the three systems obey the recurrences that Thiele's, Norberg's and Kolmogorov's
/// equations give state by state.
pub fn systems_solve_their_equations()
    ensures thiele { ThieleSystemSolves }
    ensures norberg { NorbergPairSolves }
    ensures kolmogorov { KolmogorovSystemSolves }
{}

/// Each cell of a well-formed product has the degrees that the equations ask for, in the payment plan and in
/// the pattern.
pub fn cells_are_quintic()
    ensures { CellsAreQuintic }
{}

/// The first moments of the run of both moments are the reserves.
pub fn first_moments_agree()
    ensures { FirstMomentsAgree }
{}
