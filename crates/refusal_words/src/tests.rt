// Files that are written out here, and the lines under their refusals, worked out by hand.
use crate::{
    change_lines, compare_lines, derived_lines, join_lines, length_lines, premium_lines,
    rule_lines, toml_lines, words_lines,
};
use rule_breaks::RuleBreak;
use std::alloc::Global;
use std::test::Fail;

mod rows;

/// The file of the documentation, in lines that tests change.
const FILE: [&str; 27] = [
    "format = 1",
    "name = \"disability\"",
    "months = 120",
    "den = 1000000",
    "start = \"active\"",
    "states = [\"active\", \"disabled\", \"dead\"]",
    "interest = [{ from = 0, c = [30000] }, { from = 60, c = [25000, -1000] }]",
    "[[transition]]",
    "from = \"active\"",
    "to = \"disabled\"",
    "rate = [{ from = 0, c = [5000, 1000] }]",
    "[[transition]]",
    "from = \"active\"",
    "to = \"dead\"",
    "rate = [{ from = 0, c = [2000] }, { from = 60, c = [3000] }]",
    "sum = [{ from = 0, amount = 100000 }]",
    "[[sojourn]]",
    "state = \"disabled\"",
    "steps = [{ from = 0, amount = 12000 }, { from = 60, amount = 15000 }]",
    "[[lump]]",
    "month = 120",
    "state = \"active\"",
    "amount = 50000",
    "[premium]",
    "payers = [\"active\"]",
    "until = 120",
    "every = 1",
];

// The file with another line at a place.
fn with_line(alloc: Global, place: usize, line: &str) -> Result<String, Fail> {
    let mut text = String::new(alloc);
    for (i, kept) in FILE.iter().enumerate() {
        text.push_str(if i == place { line } else { kept })?;
        text.push('\n')?;
    }
    Ok(text)
}

// Changed lines by their place, the rule that each breaks first, its place, and the lines from that place on.
const CASES: [(usize, &str, u8, u32, &str); 28] = [
    (
        2,
        "months = \"120\"",
        1,
        2,
        "months\nwanted: months = a whole number\n",
    ),
    (
        0,
        "format = 1\ncurrency = \"EUR\"",
        1,
        11,
        "another key, currency\n",
    ),
    (
        0,
        "format = 3",
        2,
        0,
        "format\nfound: format = 3\nwanted: format = 1 to 2\n",
    ),
    (
        5,
        "states = [\"active\", \"on leave\", \"dead\"]",
        3,
        3,
        "state 2\n",
    ),
    (
        5,
        "states = [\"active\", \"active\", \"dead\"]",
        3,
        3,
        "state 2, active\n",
    ),
    (
        5,
        "states = []",
        3,
        1,
        "states\nfound: 0 states\nwanted: 1 to 8 states\n",
    ),
    (
        2,
        "months = 1201",
        4,
        0,
        "months\nfound: months = 1201\nwanted: months = 1 to 1200\n",
    ),
    (
        3,
        "den = 0",
        5,
        0,
        "den\nfound: den = 0\nwanted: den = 1 to 1000000000000\n",
    ),
    (
        4,
        "start = \"Active\"",
        6,
        0,
        "start\nfound: start = Active\nwanted: start = the name of a state\n",
    ),
    (
        13,
        "to = \"active\"",
        7,
        1,
        "transition 2, active to active\n",
    ),
    (13, "", 7, 1, "transition 2\n"),
    (
        14,
        "rate = [{ from = 0, c = [2000] }, { from = 120, c = [3000] }]",
        8,
        8193,
        "transition 2, active to dead, rate, piece 2\nfound: from = 120\nwanted: from = 1 to 119\n",
    ),
    (
        6,
        "interest = [{ from = 0, c = [0.05] }]",
        8,
        0,
        "interest, piece 1\nwanted: from, a whole number, and c, 1 to 4 whole numbers\n",
    ),
    (
        6,
        "interest = []",
        8,
        0,
        "interest, piece 1\nfound: no piece\nwanted: at least one piece\n",
    ),
    (
        10,
        "rate = [{ from = 0, c = [5000, 1000, 1000000000000000000] }]",
        9,
        4096,
        "transition 1, active to disabled, rate, piece 1\n",
    ),
    (
        18,
        "steps = [{ from = 0, amount = 12000.5 }]",
        10,
        8192,
        "sojourn 1, disabled, steps, step 1\nwanted: from and amount, both whole numbers\n",
    ),
    (
        15,
        "sum = [{ from = 1, amount = 100000 }]",
        10,
        4096,
        "transition 2, active to dead, sum, step 1\nfound: from = 1\nwanted: from = 0\n",
    ),
    (17, "state = \"ill\"", 10, 8192, "sojourn 1, ill\n"),
    (
        18,
        "steps = [{ from = 0, amount = 2000000000000 }]",
        11,
        8192,
        "sojourn 1, disabled, steps, step 1\nfound: amount = 2000000000000\n\
        wanted: amount = -1000000000000 to 1000000000000\n",
    ),
    (
        20,
        "month = 121",
        12,
        0,
        "lump 1, active\nfound: month = 121\nwanted: month = 0 to 120\n",
    ),
    (
        24,
        "payers = [\"alive\"]",
        13,
        1,
        "premium, payer 1, alive\n",
    ),
    (24, "payers = []", 13, 1, "premium, payers\n"),
    (26, "every = 0.5", 13, 0, "premium\n"),
    (
        25,
        "until = 121",
        14,
        0,
        "premium, until\nfound: until = 121\nwanted: until = 1 to 120\n",
    ),
    (
        26,
        "every = 1201",
        14,
        1,
        "premium, every\nfound: every = 1201\nwanted: every = 0 to 1200\n",
    ),
    (
        6,
        "interest = [{ from = 0, c = [30000] }, { from = 60, c = [300000] }]",
        15,
        60,
        "month 60, interest, piece 2\n",
    ),
    (
        10,
        "rate = [{ from = 0, c = [5000, -1000] }]",
        16,
        60,
        "month 60\n",
    ),
    (0, "format = 1", 18, 0, "the product\n"),
];

#[test]
fn rules_name_what_is_broken(rt: HostRuntime) -> Result<(), Fail> {
    for (place, line, rule, number, wanted) in CASES {
        let text = with_line(rt.alloc(), place, line)?;
        let lines = rule_lines(
            rt.alloc(),
            text.as_bytes(),
            RuleBreak {
                rule,
                place: number,
            },
        )?;
        let lines = std::str::from_utf8(&lines)?;
        let (sentence, at) = lines.split_once("\nat: ").ok_or("no place")?;
        assert!(rt; sentence.starts_with("rule: "));
        assert_eq!(rt; at, wanted);
    }
    Ok(())
}

#[test]
fn rules_say_what_they_demand(rt: HostRuntime) -> Result<(), Fail> {
    let lines = derived_lines(
        rt.alloc(),
        RuleBreak {
            rule: 17,
            place: 60,
        },
    )?;
    let wanted =
        "rule: the greatest intensities of a month out of one state add up to at most 2 a year\nat: month 60\n";
    assert_eq!(rt; lines.as_slice(), wanted.as_bytes());
    let lines = derived_lines(
        rt.alloc(),
        RuleBreak {
            rule: 8,
            place: 8193,
        },
    )?;
    let wanted =
        "rule: the pieces of a curve start at month 0, each later one after the one before, all below months\n\
        at: transition 2, rate, piece 2\n";
    assert_eq!(rt; lines.as_slice(), wanted.as_bytes());
    assert!(rt; derived_lines(rt.alloc(), RuleBreak { rule: 19, place: 0 })?.is_empty());
    Ok(())
}

#[test]
fn parts_say_what_they_demand(rt: HostRuntime) -> Result<(), Fail> {
    let alloc = rt.alloc();
    for (lines, wanted) in [
        (
            join_lines(alloc, 3)?,
            "rule: there are at most 12 pairs of a state of the first file and a state of the second\nat: states\n",
        ),
        (
            compare_lines(alloc, 1)?,
            "rule: both files have the same term\nat: months\n",
        ),
        (compare_lines(alloc, 5)?, ""),
        (
            change_lines(alloc, 4)?,
            "rule: the file has a premium table\nat: premium\n",
        ),
        (
            change_lines(alloc, 6)?,
            "rule: each payer's payments go on in whole coefficients where the premium ends\nat: steps\n",
        ),
        (
            length_lines(alloc)?,
            "rule: a file has at most 1048576 bytes\n",
        ),
        (
            premium_lines(alloc)?,
            "rule: the file has a premium table whose pattern is worth at least 1/32 at issue, by the lower end of its \
            interval\n",
        ),
        (
            words_lines(alloc)?,
            "rule: the words are a command of help, with its files and numbers; csv and json stand before commands \
            with rows, explain before all but help and version\nwanted: EVERY is 1 to 1200, RATE is like 0.01 or \
            -0.01, FACTOR and EPS are like 0.01\n",
        ),
        (
            toml_lines(alloc, b"a = 1\nb == 2\n")?,
            "rule: the file is TOML text\nat: line 2, column 4\n",
        ),
        (
            toml_lines(alloc, "a = 1\n\u{e9} = 2\n".as_bytes())?,
            "rule: the file is TOML text\nat: line 2, column 1\n",
        ),
        (
            toml_lines(alloc, b"a = 1\n")?,
            "rule: the file is TOML text\n",
        ),
    ] {
        assert_eq!(rt; lines.as_slice(), wanted.as_bytes());
    }
    Ok(())
}

// The lines of the file with a changed line that breaks a rule at a place.
fn told(alloc: Global, place: usize, line: &str, found: RuleBreak) -> Result<Vec<u8>, Fail> {
    let text = with_line(alloc, place, line)?;
    Ok(rule_lines(alloc, text.as_bytes(), found)?)
}

// The lines behind that of the place.
fn behind_place(lines: &[u8]) -> Result<&str, Fail> {
    let (_, at) = std::str::from_utf8(lines)?
        .split_once("\nat: ")
        .ok_or("no place")?;
    let (_, behind) = at.split_once("\n").ok_or("no line")?;
    Ok(behind)
}

// Changed lines by their place, the place of rule 1 that each breaks, and the lines behind that of the place.
const KEYS: [(usize, &str, u32, &str); 6] = [
    (
        6,
        "interest = 0.05",
        6,
        "wanted: interest = an array of pieces\n",
    ),
    (
        2,
        "",
        2,
        "found: no such key\nwanted: months = a whole number\n",
    ),
    (
        5,
        "",
        5,
        "found: no such key\nwanted: states = an array of strings\n",
    ),
    (
        16,
        "[sojourn]",
        8,
        "wanted: sojourn = an array of tables, each headed by [[sojourn]]\n",
    ),
    (
        23,
        "[[premium]]",
        10,
        "wanted: premium = a table, headed by [premium]\n",
    ),
    (16, "[[sojourns]]", 11, ""),
];

#[test]
fn rule_1_tells_what_stands_at_a_key(rt: HostRuntime) -> Result<(), Fail> {
    for (place, line, number, wanted) in KEYS {
        let found = RuleBreak {
            rule: 1,
            place: number,
        };
        let lines = told(rt.alloc(), place, line, found)?;
        assert_eq!(rt; behind_place(&lines)?, wanted);
    }
    Ok(())
}

// Lines at a limit and one beyond it, by their place, with the rule, its place, and what is told beyond.
const LIMITS: [(usize, &str, &str, u8, u32, &str); 8] = [
    (
        2,
        "months = 1200",
        "months = 1201",
        4,
        0,
        "found: months = 1201\nwanted: months = 1 to 1200\n",
    ),
    (
        3,
        "den = 1000000000000",
        "den = 1000000000001",
        5,
        0,
        "found: den = 1000000000001\nwanted: den = 1 to 1000000000000\n",
    ),
    (
        18,
        "steps = [{ from = 0, amount = 1000000000000 }]",
        "steps = [{ from = 0, amount = 1000000000001 }]",
        11,
        8192,
        "found: amount = 1000000000001\nwanted: amount = -1000000000000 to 1000000000000\n",
    ),
    (
        22,
        "amount = -1000000000000",
        "amount = -1000000000001",
        12,
        0,
        "found: amount = -1000000000001\nwanted: amount = -1000000000000 to 1000000000000\n",
    ),
    (
        20,
        "month = 0",
        "month = -1",
        12,
        0,
        "found: month = -1\nwanted: month = 0 to 120\n",
    ),
    (
        25,
        "until = 120",
        "until = 0",
        14,
        0,
        "found: until = 0\nwanted: until = 1 to 120\n",
    ),
    (
        26,
        "every = 1200",
        "every = -1",
        14,
        1,
        "found: every = -1\nwanted: every = 0 to 1200\n",
    ),
    (
        6,
        "interest = [{ from = 0, c = [1] }, { from = 118, c = [2] }, { from = 119, c = [3] }]",
        "interest = [{ from = 0, c = [1] }, { from = 119, c = [2] }, { from = 120, c = [3] }]",
        8,
        2,
        "found: from = 120\n\
        wanted: no further piece or step here, since the one before starts in the last month or later\n",
    ),
];

#[test]
fn numbers_are_told_beyond_their_limits_only(rt: HostRuntime) -> Result<(), Fail> {
    for (place, within, beyond, rule, number, wanted) in LIMITS {
        let found = RuleBreak {
            rule,
            place: number,
        };
        let kept = told(rt.alloc(), place, within, found)?;
        assert_eq!(rt; behind_place(&kept)?, "");
        let broken = told(rt.alloc(), place, beyond, found)?;
        assert_eq!(rt; behind_place(&broken)?, wanted);
    }
    Ok(())
}
