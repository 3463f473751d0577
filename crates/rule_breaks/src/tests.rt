use crate::{RowBreak, RuleBreak};

#[test]
fn breaks_are_compared_by_both_numbers(rt: HostRuntime) {
    let (rule, place) = (8, 4097);
    let broken = RuleBreak { rule, place };
    assert_eq!(rt; broken, RuleBreak { rule, place });
    assert_ne!(rt; broken, RuleBreak { rule: 9, place });
    assert_ne!(rt; broken, RuleBreak { rule, place: 4096 });
    let row = RowBreak { row: 3, part: 1 };
    assert_eq!(rt; row, RowBreak { row: 3, part: 1 });
    assert_ne!(rt; row, RowBreak { row: 2, part: 1 });
    assert_ne!(rt; row, RowBreak { row: 3, part: 2 });
}
