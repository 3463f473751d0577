// Files that are written out here. The expected places are worked out by hand from the rules.
use crate::first_break;
use rule_breaks::RuleBreak;
use std::alloc::Global;
use std::test::Fail;

/// A file of format 1 that breaks no rule.
const FIRST: &str = "format = 1\n\
    name = \"first\"\n\
    months = 12\n\
    den = 1\n\
    start = \"a\"\n\
    states = [\"a\", \"b\"]\n\
    interest = [{ from = 0, c = [0] }]\n\
    lump = [{ month = 12, state = \"a\", amount = 5 }]\n\
    \n\
    [[transition]]\n\
    from = \"a\"\n\
    to = \"b\"\n\
    rate = [{ from = 0, c = [1] }, { from = 6, c = [2, 3] }]\n\
    sum = [{ from = 0, amount = 7 }]\n\
    \n\
    [[sojourn]]\n\
    state = \"b\"\n\
    steps = [{ from = 0, amount = 9 }]\n\
    \n\
    [premium]\n\
    payers = [\"a\"]\n\
    until = 11\n\
    every = 1\n";

/// A file of format 2 that breaks no rule.
const SECOND: &str = "format = 2\n\
    name = \"second\"\n\
    months = 1200\n\
    den = 1000000000000\n\
    start = \"i\"\n\
    states = [\"a\", \"b\", \"c\", \"d\", \"e\", \"f\", \"g\", \"h\", \"i\"]\n\
    interest = [{ from = 0, c = [0, 0, 0, 0, 0, 1] }]\n\
    \n\
    [[sojourn]]\n\
    state = \"b\"\n\
    steps = [{ from = 0, c = [999999999900, 0, 0, 0] }, { from = 1199, c = [0, 1200] }]\n";

/// The verdict on a file with its first `old` replaced.
fn changed(alloc: Global, file: &str, old: &str, new: &str) -> Result<Option<RuleBreak>, Fail> {
    let (before, after) = file.split_once(old).ok_or("no such text in the file")?;
    let text = format!(in alloc; "{before}{new}{after}")?;
    let table = toml::table_from_str(alloc, text.as_str())?;
    Ok(first_break(alloc, &table)?)
}

#[test]
fn breaks_each_rule(rt: HostRuntime) -> Result<(), Fail> {
    let cases = [
        ("months = 12", "months = 12.0", 1, 2),
        ("name = \"first\"", "name = true", 1, 1),
        ("den = 1", "den = 1\nother = 1", 1, 11),
        (
            "lump = [{ month = 12, state = \"a\", amount = 5 }]",
            "lump = {}",
            1,
            9,
        ),
        ("format = 1", "format = 3", 2, 0),
        ("first", "fi rst", 3, 0),
        ("[\"a\", \"b\"]", "[]", 3, 1),
        (
            "[\"a\", \"b\"]",
            "[\"a\", \"b\", \"c\", \"d\", \"e\", \"f\", \"g\", \"h\", \"i\"]",
            3,
            1,
        ),
        ("[\"a\", \"b\"]", "[\"a\", \"a\"]", 3, 3),
        ("[\"a\", \"b\"]", "[\"a\", 1]", 3, 3),
        ("months = 12", "months = 1201", 4, 0),
        ("den = 1", "den = 1000000000001", 5, 0),
        ("start = \"a\"", "start = \"c\"", 6, 0),
        ("to = \"b\"", "to = \"a\"", 7, 0),
        ("to = \"b\"", "to = \"b\"\nother = 1", 7, 0),
        (
            "[[sojourn]]",
            "[[transition]]\nfrom = \"a\"\nto = \"b\"\nrate = []\n[[sojourn]]",
            7,
            1,
        ),
        ("interest = [{ from = 0, c = [0] }]", "interest = []", 8, 0),
        ("from = 6", "from = 0", 8, 4097),
        ("from = 6", "from = 12", 8, 4097),
        ("[2, 3]", "[2, 3, 4, 5, 6]", 8, 4097),
        ("c = [0]", "c = [0, 0, 0, 5787037037037037038]", 9, 0),
        ("amount = 7", "c = [7]", 10, 0),
        ("sum = [{ from = 0, amount = 7 }]", "sum = []", 10, 0),
        ("format = 1", "format = 2", 10, 0),
        ("state = \"b\"", "state = \"c\"", 10, 4096),
        (
            "[premium]",
            "[[sojourn]]\nstate = \"b\"\nsteps = []\n[premium]",
            10,
            8192,
        ),
        ("amount = 7", "amount = 1000000000001", 11, 0),
        ("amount = 9", "amount = -1000000000001", 11, 4096),
        ("month = 12, state", "month = 13, state", 12, 0),
        (
            "amount = 5 }",
            "amount = 5 }, { month = 12, state = \"a\", amount = 6 }",
            12,
            1,
        ),
        ("until = 11", "until = 11.0", 13, 0),
        ("payers = [\"a\"]", "payers = []", 13, 1),
        ("payers = [\"a\"]", "payers = [\"a\", \"b\", \"a\"]", 13, 3),
        ("until = 11", "until = 13", 14, 0),
        ("every = 1", "every = 1201", 14, 1),
    ];
    for (old, new, rule, place) in cases {
        assert_eq!(rt;
            changed(rt.alloc(), FIRST, old, new)?,
            Some(RuleBreak { rule, place }),
            "{new}"
        );
    }
    Ok(())
}

#[test]
fn breaks_no_rule(rt: HostRuntime) -> Result<(), Fail> {
    let cases = [
        (FIRST, "den = 1", "den = 1000000000000"),
        (FIRST, "sum = [{ from = 0, amount = 7 }]\n", ""),
        (FIRST, "c = [0]", "c = [0, 0, 0, 5787037037037037037]"),
        (FIRST, "amount = 9", "amount = -1000000000000"),
        (FIRST, "every = 1", "every = 0"),
        (SECOND, "months = 1200", "months = 1_200"),
        (SECOND, "999999999900, 0", "999999999900, 1"),
    ];
    for (file, old, new) in cases {
        assert_eq!(rt; changed(rt.alloc(), file, old, new)?, None, "{new}");
    }
    // 2 a year are 199.8 over the step's 1199 months, and 1 a year is 99.9: the amount may grow by 100
    assert_eq!(rt;
        changed(rt.alloc(), SECOND, "999999999900, 0", "999999999900, 2")?,
        Some(RuleBreak { rule: 11, place: 0 })
    );
    Ok(())
}
