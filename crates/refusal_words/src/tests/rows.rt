// Tables with a wrong row, and the lines under their refusals, worked out by hand.
use crate::{CsvTable, row_lines};
use csv::{ByteRecord, ReaderBuilder};
use rule_breaks::RowBreak;
use std::alloc::Global;
use std::test::Fail;

const CLAIMS: &str = "month,state,reserve\n3,active,12x\n+7,\"dis\nabled\",\"1,000\"\n4\n1,2,3,4\n";

const HOLDINGS: &str = "file,group,month,state,count\n\
    gone.toml,A b,1300,active,0\n\
    f1.toml,0123456789012345678901234567890123456789012345678901234567890,130,retired,\n\
    f1.toml,012345678901234567890123456789012345678901234567890123456789,0,caf\u{e9},07\n";

const TOTALS: &str = "group,lo,hi,tolerance\nA,1.2.3,-5,-0.5\n";

// Tables, a row with its first wrong part, and the lines.
const CASES: [(CsvTable, &str, u64, u8, &str); 19] = [
    (
        CsvTable::Claims,
        CLAIMS,
        0,
        0,
        "rule: the first record is month,state,reserve\nat: record 0\n",
    ),
    (
        CsvTable::Claims,
        CLAIMS,
        1,
        4,
        "rule: reserve is 1 to 18 digits, no needless zero, perhaps a point and 1 to 6 digits, perhaps - before them\n\
        at: record 1, reserve\nfound: 12x\n",
    ),
    (
        CsvTable::Claims,
        CLAIMS,
        2,
        2,
        "rule: month is 0, or 1 to 4 digits without a leading zero, and at most the term\n\
        at: record 2, month\nfound: +7\n",
    ),
    (
        CsvTable::Claims,
        CLAIMS,
        2,
        3,
        "rule: state is the name of a state of the product\nat: record 2, state\n",
    ),
    (
        CsvTable::Claims,
        CLAIMS,
        2,
        4,
        "rule: reserve is 1 to 18 digits, no needless zero, perhaps a point and 1 to 6 digits, perhaps - before them\n\
        at: record 2, reserve\nfound: 1,000\n",
    ),
    (
        CsvTable::Claims,
        CLAIMS,
        3,
        1,
        "rule: a claim has three fields\nat: record 3\nfound: 1 field\n",
    ),
    (
        CsvTable::Claims,
        CLAIMS,
        4,
        1,
        "rule: a claim has three fields\nat: record 4\nfound: 4 fields\n",
    ),
    (
        CsvTable::Claims,
        CLAIMS,
        5,
        3,
        "rule: state is the name of a state of the product\nat: record 5, state\n",
    ),
    (CsvTable::Claims, CLAIMS, 1, 5, ""),
    (
        CsvTable::Holdings,
        HOLDINGS,
        1,
        2,
        "rule: file is the name of a file, and there are at most 16 different ones\n\
        at: record 1, file\nfound: gone.toml\n",
    ),
    (
        CsvTable::Holdings,
        HOLDINGS,
        1,
        6,
        "rule: month is at most the term of the product\nat: record 1, month\nfound: 1300\n",
    ),
    (
        CsvTable::Holdings,
        HOLDINGS,
        2,
        3,
        "rule: group is 1 to 24 letters, digits, '.', '_' and '-'\nat: record 2, group\n",
    ),
    (
        CsvTable::Holdings,
        HOLDINGS,
        2,
        5,
        "rule: count is 1 to 7 digits without a leading zero, from 1 to 1000000\n\
        at: record 2, count\nfound: an empty field\n",
    ),
    (
        CsvTable::Holdings,
        HOLDINGS,
        2,
        7,
        "rule: state is the name of a state of the product\nat: record 2, state\nfound: retired\n",
    ),
    (
        CsvTable::Holdings,
        HOLDINGS,
        3,
        3,
        "rule: group is 1 to 24 letters, digits, '.', '_' and '-'\nat: record 3, group\n\
        found: 012345678901234567890123456789012345678901234567890123456789\n",
    ),
    (
        CsvTable::Holdings,
        HOLDINGS,
        3,
        7,
        "rule: state is the name of a state of the product\nat: record 3, state\n",
    ),
    (
        CsvTable::Totals,
        TOTALS,
        1,
        3,
        "rule: lo is 1 to 18 digits, no needless zero, perhaps a point and 1 to 6 digits, perhaps - before them\n\
        at: record 1, lo\nfound: 1.2.3\n",
    ),
    (
        CsvTable::Totals,
        TOTALS,
        1,
        4,
        "rule: hi is such a number too, and not below lo\nat: record 1, hi\nfound: -5\n",
    ),
    (
        CsvTable::Totals,
        TOTALS,
        1,
        5,
        "rule: tolerance is such a number without a sign, and at least hi less lo\n\
        at: record 1, tolerance\nfound: -0.5\n",
    ),
];

// All records of a text.
fn records_of(alloc: Global, text: &str) -> Result<Vec<ByteRecord>, Fail> {
    let reader = ReaderBuilder::new()
        .has_headers(false)
        .flexible(true)
        .from_reader(alloc, text.as_bytes());
    let mut records = Vec::new(alloc);
    for record in reader.into_byte_records() {
        records.push(record?)?;
    }
    Ok(records)
}

#[test]
fn rows_say_what_they_demand_and_what_is_found(rt: HostRuntime) -> Result<(), Fail> {
    for (table, text, row, part, wanted) in CASES {
        let records = records_of(rt.alloc(), text)?;
        let lines = row_lines(rt.alloc(), table, RowBreak { row, part }, &records)?;
        assert_eq!(rt; lines.as_slice(), wanted.as_bytes());
    }
    Ok(())
}
