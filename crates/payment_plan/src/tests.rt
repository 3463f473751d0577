ghost use Rattle.std.specs.Prelude.{◌≡◌, ◌≤◌, IfOk, length};

use crate::{Lump, PatternRule, Plan, StepAmount, Which, amount_cell, amount_load};
use std::alloc::{AllocError, Global};
use std::test::Fail;

const NOTHING: StepAmount = StepAmount {
    from: 0,
    c: [0, 0, 0, 0],
};

const ONE: StepAmount = StepAmount {
    from: 0,
    c: [1, 0, 0, 0],
};

const RISING: StepAmount = StepAmount {
    from: 0,
    c: [0, 768, 0, 0],
};

const FALLING: StepAmount = StepAmount {
    from: 12,
    c: [100, -1200, 0, 0],
};

const CUBIC: StepAmount = StepAmount {
    from: 0,
    c: [0, 0, 0, 1728],
};

const MIXED: StepAmount = StepAmount {
    from: 3,
    c: [1, 2, 3, 4],
};

const LAST: Lump = Lump {
    month: 24,
    state: 2,
    amount: 7,
};

const SECOND_OF_YEAR: Lump = Lump {
    month: 12,
    state: 1,
    amount: -5,
};

const FIRST_OF_YEAR: Lump = Lump {
    month: 12,
    state: 0,
    amount: 3,
};

// Three states over 24 months. States 2 and 0 pay a premium up to month 10.
fn sample(alloc: Global, every: u32) -> Result<Plan, AllocError>
    requires { every ≤ 1200 }
    ensures states { IfOk result (λ plan. plan.states ≡ 3) }
    ensures months { IfOk result (λ plan. plan.months ≡ 24) }
    ensures sums { IfOk result (λ plan. length plan.sums ≡ 2) }
{
    let sum = vec![in alloc; CUBIC, MIXED]?;
    let sums = vec![in alloc; Vec::new(alloc), sum]?;
    let rate = vec![in alloc; RISING, FALLING]?;
    let sojourns = vec![in alloc; (1, rate)]?;
    let lumps = vec![in alloc; LAST, SECOND_OF_YEAR, FIRST_OF_YEAR]?;
    let payers = vec![in alloc; 2, 0]?;
    let pattern = PatternRule {
        payers,
        until: 10,
        every,
    };
    Plan::new(alloc, 3, 24, sums, sojourns, lumps, pattern)
}

#[test]
fn rates(rt: HostRuntime) -> Result<(), Fail> {
    let plan = sample(rt.alloc(), 0)?;
    for month in 0..12 {
        let step = plan.sojourn_at(Which::Benefits, 1, month);
        assert_eq!(rt; step, RISING);
        // from 64 m to 64 (m + 1), and four times the spread of 64
        assert_eq!(rt; amount_load(&step, month), i128::from(64 * month + 320));
    }
    let step = plan.sojourn_at(Which::Benefits, 1, 0);
    // 2 - 2 x over 384^3
    assert_eq!(rt; amount_cell(&step, 0, 0), [113_246_208, -113_246_208, 0, 0]);
    let step = plan.sojourn_at(Which::Benefits, 1, 14);
    assert_eq!(rt; step, FALLING);
    // from -100 to -200
    assert_eq!(rt; amount_load(&step, 14), 600);
    assert_eq!(rt; plan.sojourn_at(Which::Benefits, 0, 14), NOTHING);
    Ok(())
}

#[test]
fn sums(rt: HostRuntime) -> Result<(), Fail> {
    let plan = sample(rt.alloc(), 0)?;
    let step = plan.sum_at(Which::Benefits, 1, 2);
    assert_eq!(rt; step, CUBIC);
    // from 8 to 27
    assert_eq!(rt; amount_load(&step, 2), 103);
    let step = plan.sum_at(Which::Benefits, 1, 5);
    assert_eq!(rt; step, MIXED);
    // the expansion of 1 + 2 t + 3 t^2 + 4 t^3 at t = (72 - x) / 384
    assert_eq!(rt; amount_cell(&step, 5, 7), [85_321_728, -523_008, 2016, -4]);
    assert_eq!(rt; plan.sum_at(Which::Benefits, 0, 5), NOTHING);
    assert_eq!(rt; plan.sum_at(Which::Pattern, 1, 5), NOTHING);
    Ok(())
}

#[test]
fn lumps(rt: HostRuntime) -> Result<(), Fail> {
    let plan = sample(rt.alloc(), 0)?;
    assert_eq!(rt; plan.lumps_at(Which::Benefits, 11), [].as_slice());
    assert_eq!(rt;
        plan.lumps_at(Which::Benefits, 12),
        [(0, 3), (1, -5)].as_slice()
    );
    assert_eq!(rt; plan.lumps_at(Which::Benefits, 24), [(2, 7)].as_slice());
    assert_eq!(rt; plan.lumps_at(Which::Pattern, 0), [].as_slice());
    assert_eq!(rt; plan.lumps().len(), 3);
    assert_eq!(rt; plan.sojourns().len(), 1);
    assert_eq!(rt; plan.sums(1), [CUBIC, MIXED].as_slice());
    Ok(())
}

#[test]
fn premiums(rt: HostRuntime) -> Result<(), Fail> {
    let yearly = sample(rt.alloc(), 0)?;
    assert_eq!(rt; yearly.sojourn_at(Which::Pattern, 0, 9), ONE);
    assert_eq!(rt; yearly.sojourn_at(Which::Pattern, 0, 10), NOTHING);
    assert_eq!(rt; yearly.sojourn_at(Which::Pattern, 1, 9), NOTHING);
    let dated = sample(rt.alloc(), 5)?;
    assert_eq!(rt; dated.sojourn_at(Which::Pattern, 0, 5), NOTHING);
    assert_eq!(rt; dated.pattern().every, 5);
    for date in 0..25 {
        let wanted = if date == 0 || date == 5 {
            [(0, 1), (2, 1)].as_slice()
        } else {
            [].as_slice()
        };
        assert_eq!(rt; dated.lumps_at(Which::Pattern, date), wanted);
    }
    Ok(())
}
