use super::*;
use rule_breaks::RuleBreak;

/// One state, 12 months, no interest, 384 minor units a year.
const FLAT: &[u8] = br#"format = 1
name = "flat"
months = 12
den = 1
start = "on"
states = ["on"]
interest = [{ from = 0, c = [0] }]

[[sojourn]]
state = "on"
steps = [{ from = 0, amount = 384 }]
"#;

#[test]
fn a_product_a_rule_and_no_text(rt: HostRuntime) {
    // a year of 384 minor units at issue, and nothing at the term: within a millionth to both sides
    let text =
        "report reserves flat\ndegree 8 scale 10\n0 on reserve 383.999999 384.000001 0.000003\n\
        12 on reserve 0.000000 0.000000 0.000002\nend 2\n";
    match yearly_reserves(rt.alloc(), FLAT) {
        Ok(found) => assert_eq!(rt; found.as_slice(), text.as_bytes()),
        Err(_) => assert!(rt; false),
    }
    let cases: [(&[u8], Refusal); 3] = [
        (b"format = ", Refusal::NotToml),
        (
            b"format = 1",
            Refusal::Rule(RuleBreak { rule: 1, place: 1 }),
        ),
        (b"", Refusal::Rule(RuleBreak { rule: 1, place: 0 })),
    ];
    for (file, wanted) in cases {
        match yearly_reserves(rt.alloc(), file) {
            Ok(_) => assert!(rt; false),
            Err(refusal) => assert_eq!(rt; refusal, wanted),
        }
    }
}
