// Files that are written out here. Reserves are from closed forms, tolerances from the ledger's formulas, both worked
// outside the program.

ghost use Rattle.std.specs.Prelude.{◌≡◌, ◌<◌};

use crate::{
    Change, Changes, CompareBreak, CompareError, Part, Turn, changes_bytes, compare, hybrid,
};
use curve_pieces::Piece;
use payment_plan::Lump;
use product_reader::read_product;
use rate_bounds::{Admitted, admit};
use std::alloc::Global;
use std::marker::Brand;
use std::sync::ledger::{Blank, Ledger};
use std::test::Fail;
use taylor_step::Steps;

/// An annuity of 1200 a year for ten years, or until death.
const ANNUITY: &str = "format = 1\n\
    name = \"annuity\"\n\
    months = 120\n\
    den = 100\n\
    start = \"active\"\n\
    states = [\"active\", \"dead\"]\n\
    interest = [{ from = 0, c = [3] }]\n\
    \n\
    [[transition]]\n\
    from = \"active\"\n\
    to = \"dead\"\n\
    rate = [{ from = 0, c = [2] }]\n\
    \n\
    [[sojourn]]\n\
    state = \"active\"\n\
    steps = [{ from = 0, amount = 1200 }]\n";

/// The same with a higher intensity.
const FRAIL: &str = "format = 1\n\
    name = \"frail\"\n\
    months = 120\n\
    den = 100\n\
    start = \"active\"\n\
    states = [\"active\", \"dead\"]\n\
    interest = [{ from = 0, c = [3] }]\n\
    \n\
    [[transition]]\n\
    from = \"active\"\n\
    to = \"dead\"\n\
    rate = [{ from = 0, c = [5] }]\n\
    \n\
    [[sojourn]]\n\
    state = \"active\"\n\
    steps = [{ from = 0, amount = 1200 }]\n";

/// The same with higher interest.
const DEAR: &str = "format = 1\n\
    name = \"dear\"\n\
    months = 120\n\
    den = 100\n\
    start = \"active\"\n\
    states = [\"active\", \"dead\"]\n\
    interest = [{ from = 0, c = [6] }]\n\
    \n\
    [[transition]]\n\
    from = \"active\"\n\
    to = \"dead\"\n\
    rate = [{ from = 0, c = [2] }]\n\
    \n\
    [[sojourn]]\n\
    state = \"active\"\n\
    steps = [{ from = 0, amount = 1200 }]\n";

/// A product of two years that has every part.
const WHOLE: &str = "format = 1\n\
    name = \"whole\"\n\
    months = 24\n\
    den = 1000\n\
    start = \"ill\"\n\
    states = [\"well\", \"ill\", \"dead\"]\n\
    interest = [{ from = 0, c = [30] }, { from = 12, c = [25, -1] }]\n\
    lump = [\n\
    { month = 24, state = \"well\", amount = 500 },\n\
    { month = 12, state = \"ill\", amount = -20 },\n\
    ]\n\
    \n\
    [[transition]]\n\
    from = \"well\"\n\
    to = \"ill\"\n\
    rate = [{ from = 0, c = [1, 2, 3, 4] }]\n\
    \n\
    [[transition]]\n\
    from = \"ill\"\n\
    to = \"dead\"\n\
    rate = [{ from = 0, c = [5] }, { from = 6, c = [7, 8] }]\n\
    sum = [{ from = 0, amount = 900 }, { from = 18, amount = 800 }]\n\
    \n\
    [[sojourn]]\n\
    state = \"ill\"\n\
    steps = [{ from = 0, amount = 70 }, { from = 3, amount = -60 }]\n\
    \n\
    [premium]\n\
    payers = [\"ill\", \"well\"]\n\
    until = 20\n\
    every = 3\n";

/// Another one with the same states.
const OTHER: &str = "format = 1\n\
    name = \"other\"\n\
    months = 24\n\
    den = 1000\n\
    start = \"well\"\n\
    states = [\"well\", \"ill\", \"dead\"]\n\
    interest = [{ from = 0, c = [17] }]\n";

/// Bases that cannot be compared with it: by the term, the denominator, the number of states and the names.
const DIFFERENT: [(&str, CompareBreak); 4] = [
    (
        "format = 1\nname = \"x\"\nmonths = 12\nden = 20\nstart = \"on\"\nstates = [\"on\"]\n\
    interest = [{ from = 0, c = [1] }]\n",
        CompareBreak {
            part: 1,
            a: 24,
            b: 12,
        },
    ),
    (
        "format = 1\nname = \"x\"\nmonths = 24\nden = 20\nstart = \"on\"\nstates = [\"on\"]\n\
    interest = [{ from = 0, c = [1] }]\n",
        CompareBreak {
            part: 2,
            a: 1000,
            b: 20,
        },
    ),
    (
        "format = 1\nname = \"x\"\nmonths = 24\nden = 1000\nstart = \"on\"\nstates = [\"on\"]\n\
    interest = [{ from = 0, c = [1] }]\n",
        CompareBreak {
            part: 3,
            a: 3,
            b: 1,
        },
    ),
    (
        "format = 1\nname = \"x\"\nmonths = 24\nden = 1000\nstart = \"well\"\n\
    states = [\"well\", \"sick\", \"gone\"]\ninterest = [{ from = 0, c = [1] }]\n",
        CompareBreak {
            part: 4,
            a: 1,
            b: 1,
        },
    ),
];

fn admitted(alloc: Global, text: &str) -> Result<Admitted, Fail> {
    Ok(admit(alloc, read_product(alloc, text.as_bytes())?)?)
}

fn counted<L: Ledger>(
    blank: Blank,
    alloc: Global,
    a: &Admitted,
    b: &Admitted,
) -> Result<Changes, Fail>
    requires name { blank.name ≡ L.name }
    requires parts { blank.parts ≡ L.parts }
    requires some { 0 < blank.parts }
{
    let _months = a.product().months();
    let mut steps = Steps::<L>::open(blank);
    let between = admit(alloc, hybrid(alloc, a, b)?)?;
    Ok(compare(alloc, a, &between, b, 120, &mut steps)?)
}

// The changes at issue and at the term of ten years.
fn changes_of(alloc: Global, a: &str, b: &str) -> Result<Changes, Fail> {
    let (old, new) = (admitted(alloc, a)?, admitted(alloc, b)?);
    counted::<Brand>(Blank::new(1), alloc, &old, &new)
}

#[test]
fn bases_are_refused_by_their_first_difference(rt: HostRuntime) -> Result<(), Fail> {
    let alloc = rt.alloc();
    let whole = admitted(alloc, WHOLE)?;
    for (text, broken) in DIFFERENT {
        let refused = hybrid(alloc, &whole, &admitted(alloc, text)?).err();
        assert_eq!(rt; refused, Some(CompareError::Compare(broken)));
    }
    Ok(())
}

#[test]
fn a_hybrid_has_the_interest_of_the_new_basis(rt: HostRuntime) -> Result<(), Fail> {
    let alloc = rt.alloc();
    let product = hybrid(alloc, &admitted(alloc, WHOLE)?, &admitted(alloc, OTHER)?)?;
    let interest = Piece {
        from: 0,
        c: [17, 0, 0, 0, 0, 0],
    };
    let last = Lump {
        month: 24,
        state: 0,
        amount: 500,
    };
    let middle = Lump {
        month: 12,
        state: 1,
        amount: -20,
    };
    assert_eq!(rt; product.name(), b"whole".as_slice());
    assert_eq!(rt; product.start(), 1);
    assert_eq!(rt; product.interest().pieces(), [interest].as_slice());
    assert_eq!(rt; product.transitions(), 2);
    assert_eq!(rt; product.plan().lumps(), [last, middle].as_slice());
    assert_eq!(rt; product.plan().pattern().until, 20);
    Ok(())
}

// The row of issue in the first state for a part.
fn first_state(changes: &Changes, part: Part) -> Option<Change> {
    for row in &changes.rows {
        if row.month == 0 && row.state == 0 && row.part == part {
            return Some(*row);
        }
    }
    None
}

// -1183.198628655.. minor units, which is 15000 (1 - e^-0.8) - 24000 (1 - e^-0.5), between its neighbours.
const FALL: (i128, i128) = (-1_183_198_629, -1_183_198_628);

#[test]
fn a_raised_intensity_lowers_the_reserve(rt: HostRuntime) -> Result<(), Fail> {
    let changes = changes_of(rt.alloc(), ANNUITY, FRAIL)?;
    assert_eq!(rt; changes.rows.len(), 12);
    for part in [Part::Rest, Part::Total] {
        let row = first_state(&changes, part).ok_or("no row")?;
        assert!(rt; row.lo <= FALL.0 && FALL.1 <= row.hi);
        assert_eq!(rt; row.tol, 6);
        assert_eq!(rt; row.turn, Turn::Below);
    }
    let row = first_state(&changes, Part::Interest).ok_or("no row")?;
    assert!(rt; row.lo <= 0 && 0 <= row.hi);
    assert_eq!(rt; row.turn, Turn::Open);
    Ok(())
}

#[test]
fn raised_interest_lowers_the_reserve(rt: HostRuntime) -> Result<(), Fail> {
    let changes = changes_of(rt.alloc(), ANNUITY, DEAR)?;
    let row = first_state(&changes, Part::Interest).ok_or("no row")?;
    assert!(rt; row.lo <= FALL.0 && FALL.1 <= row.hi);
    assert_eq!(rt; row.turn, Turn::Below);
    let row = first_state(&changes, Part::Rest).ok_or("no row")?;
    assert_eq!(rt; row.turn, Turn::Open);
    Ok(())
}

#[test]
fn rows_are_written(rt: HostRuntime) -> Result<(), Fail> {
    let alloc = rt.alloc();
    let (a, b) = (admitted(alloc, ANNUITY)?, admitted(alloc, FRAIL)?);
    let product = a.product();
    assert_eq!(rt; product.graph().states(), 2);
    let rest = Change {
        month: 0,
        state: 0,
        part: Part::Rest,
        lo: -1_183_198_631,
        hi: -1_183_198_626,
        tol: 6,
        turn: Turn::Below,
    };
    let interest = Change {
        month: 120,
        state: 1,
        part: Part::Interest,
        lo: -1,
        hi: 1,
        tol: 4,
        turn: Turn::Open,
    };
    let changes = Changes {
        degree: 9,
        rows: [rest, interest].to_vec(alloc)?,
    };
    let text = changes_bytes(alloc, product, b.product(), &changes)?;
    let wanted = b"compare annuity frail\ndegree 9\n\
        0 active rest -1183.198631 -1183.198626 0.000006 below\n\
        120 dead interest -0.000001 0.000001 0.000004 open\n\
        end 2\n";
    assert!(rt; text.as_slice() == wanted.as_slice());
    Ok(())
}
