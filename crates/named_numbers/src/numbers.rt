//! The numbers that programs use, each equal to the definition of its name.

ghost use Rattle.std.specs.Prelude.{◌≡◌, pos};
ghost use Rattle.named_numbers.specs.Numbers as numbers;
ghost use Rattle.named_numbers.specs.declared.numbers.TheConstants.{MONTHS_OF_YEAR, CELLS_OF_MONTH, CELLS_OF_YEAR};
ghost use Rattle.named_numbers.specs.declared.numbers.TheConstants.{CELLS_OF_HALF_YEAR, CELLS_OF_TWO_YEARS};
ghost use Rattle.named_numbers.specs.declared.numbers.TheConstants.{MOST_MONTHS, MOST_STATES, LONGEST_PRODUCT_NAME};
ghost use Rattle.named_numbers.specs.declared.numbers.TheConstants.{LONGEST_STATE_NAME, MOST_DENOMINATOR, MOST_AMOUNT};
ghost use Rattle.named_numbers.specs.declared.numbers.TheConstants.{MOST_COEFFICIENT, MOST_LUMP, MOST_EVERY};
ghost use Rattle.named_numbers.specs.declared.numbers.TheConstants.{MOST_FILE_BYTES, BERNSTEIN_UNIT, PAY_UNIT};
ghost use Rattle.named_numbers.specs.declared.numbers.TheConstants.{CELL_ROUNDING, LEAST_DEGREE, MOST_BOUND};

/// The months of a year.
pub const MONTHS_OF_YEAR: u32 = 12;

/// The cells of a month: a cell is the stretch of time of one Taylor step.
pub const CELLS_OF_MONTH: u32 = 32;

/// The cells of a year.
pub const CELLS_OF_YEAR: u32 = MONTHS_OF_YEAR * CELLS_OF_MONTH;

/// The cells of half a year.
pub const CELLS_OF_HALF_YEAR: u128 = 192;

/// The cells of two years.
pub const CELLS_OF_TWO_YEARS: u128 = 768;

/// The longest term of a product, in months.
pub const MOST_MONTHS: u32 = 1200;

/// The most states of a product.
pub const MOST_STATES: usize = 12;

/// The longest name of a product, in bytes.
pub const LONGEST_PRODUCT_NAME: usize = 40;

/// The longest name of a state, in bytes.
pub const LONGEST_STATE_NAME: usize = 24;

/// The greatest denominator of a product's curves.
pub const MOST_DENOMINATOR: i64 = 1_000_000_000_000;

/// The greatest size of a Bernstein coefficient of a payment, in minor units (a year, for a sojourn).
pub const MOST_AMOUNT: u128 = 1_000_000_000_000;

/// The greatest size of a coefficient times its power of the months that it holds for.
pub const MOST_COEFFICIENT: u128 = 10_000_000_000_000_000_000_000;

/// The greatest size of a lump sum, in minor units.
pub const MOST_LUMP: u64 = 1_000_000_000_000;

/// The greatest number of months between two dates of a premium pattern.
pub const MOST_EVERY: u32 = MOST_MONTHS;

/// The longest product file, in bytes.
pub const MOST_FILE_BYTES: u64 = 1 << 20;

/// The least common denominator of the weights of Bernstein coefficients of degree five over a month, per 1 / den.
pub const BERNSTEIN_UNIT: u128 = 2_488_320;

/// Bounds of moments are kept in 1/1024 minor units.
pub const PAY_UNIT: u128 = 1024;

/// What the ledger of radii counts for a cell, in units of 2^-64.
pub const CELL_ROUNDING: u128 = 1024;

/// The least degree that a step answers.
pub const LEAST_DEGREE: u8 = 8;

/// The greatest bound of a product's moments, in 1/1024 minor units.
pub const MOST_BOUND: u128 = 1 << 66;

/// Each number that programs use is the one of its definition. Says so and returns at once.
pub fn named_numbers_agree()
    ensures months_of_year { MONTHS_OF_YEAR ≡ numbers.months_of_year }
    ensures cells_of_month { CELLS_OF_MONTH ≡ numbers.cells_of_month }
    ensures cells_of_year { CELLS_OF_YEAR ≡ numbers.cells_of_year }
    ensures cells_of_half_year { CELLS_OF_HALF_YEAR ≡ numbers.cells_of_half_year }
    ensures cells_of_two_years { CELLS_OF_TWO_YEARS ≡ numbers.cells_of_two_years }
    ensures most_months { MOST_MONTHS ≡ numbers.most_months }
    ensures most_states { MOST_STATES ≡ numbers.most_states }
    ensures longest_product_name { LONGEST_PRODUCT_NAME ≡ numbers.longest_product_name }
    ensures longest_state_name { LONGEST_STATE_NAME ≡ numbers.longest_state_name }
    ensures most_denominator { MOST_DENOMINATOR ≡ pos numbers.most_denominator }
    ensures most_amount { MOST_AMOUNT ≡ numbers.most_amount }
    ensures most_coefficient { MOST_COEFFICIENT ≡ numbers.most_coefficient }
    ensures most_lump { MOST_LUMP ≡ numbers.most_lump }
    ensures most_every { MOST_EVERY ≡ numbers.most_every }
    ensures most_file_bytes { MOST_FILE_BYTES ≡ numbers.most_file_bytes }
    ensures bernstein_unit { BERNSTEIN_UNIT ≡ numbers.bernstein_unit }
    ensures pay_unit { PAY_UNIT ≡ numbers.pay_unit }
    ensures cell_rounding { CELL_ROUNDING ≡ numbers.cell_rounding }
    ensures least_degree { LEAST_DEGREE ≡ numbers.least_degree }
    ensures most_bound { MOST_BOUND ≡ numbers.most_bound }
{}
