//! Finds what a file has at the place of a broken rule.

ghost use Rattle.std.specs.Prelude.{◌≡◌, map};
ghost use Rattle.toml.specs.View.{view, table_view};
ghost use Rattle.product_file.specs.Members.{item_at, members_of, whole_of};
ghost use Rattle.product_file.specs.HeadRules.{most_states_of};
ghost use Rattle.product_file.specs.CurveRules.{is_piece, most_coefficients, start_of};
ghost use Rattle.product_file.specs.PaymentRules.{is_step};
ghost use Rattle.product_file.specs.LumpRule.{is_lump};
ghost use Rattle.product_file.specs.PatternRules.{premium_of};
ghost use Rattle.product_file.specs.Keys as file;
ghost use Rattle.product_file.specs.Keys.{is_table_of};
ghost use Rattle.refusal_words.specs.declared.owners.Owner.TheVariants as owner;
ghost use Rattle.refusal_words.specs.FileNames.{pieces_of, steps_of};
ghost use Rattle.refusal_words.specs.Findings as spec;
ghost use Rattle.refusal_words.specs.Findings.{amount_finding, count_finding, item_finding, key_finding, later_finding};
ghost use Rattle.refusal_words.specs.Findings.{list_finding, lump_finding, lump_finding_at, outside, piece_finding};
ghost use Rattle.refusal_words.specs.Findings.{piece_want, start_finding, step_finding, step_want};

use crate::findings::{Finding, Number, Want};
use crate::owners::{Owner, is_good_sojourn, owner_of};
use crate::places::{Place, Thing};
use crate::rules::Rule;
use file_tree::{
    constant_step_keys, curve, is_format_1, is_from_to, is_table_of, lump_keys, lumps, piece_keys,
    premium_whole, sojourns, states, sum_of, transitions, whole_of, whole_within,
};
use named_numbers::{MOST_AMOUNT, MOST_DENOMINATOR, MOST_EVERY, MOST_LUMP, MOST_MONTHS};
use toml::{Table, Value};

// The longest term, in months.
const LONGEST_TERM: i64 = MOST_MONTHS as i64;

// The longest time between two dates of a premium pattern, in months.
const LONGEST_WAIT: i64 = MOST_EVERY as i64;

// The largest amount of a step, in minor units.
const LARGEST_AMOUNT: i64 = MOST_AMOUNT as i64;

// The largest lump, in minor units.
const LARGEST_LUMP: i64 = MOST_LUMP as i64;

// A number that is not from one to another.
#[tactic(auto, unfolding(crate::specs::Findings::outside))]
fn outside(number: Number, found: i64, low: i64, high: i64) -> Finding
    ensures { result ≡ outside number found low high }
{
    if is_from_to(low, high, found) {
        Finding::Nothing
    } else {
        Finding::Outside {
            number,
            found,
            low,
            high,
        }
    }
}

// How many states there are.
#[tactic(auto, unfolding(crate::specs::Findings::count_finding))]
fn count_finding(tree: &Table) -> Finding
    ensures { result ≡ count_finding (table_view tree.now) }
{
    Finding::States {
        found: states(tree).len() as u64,
        most: most_states(tree),
    }
}

// How many states the format allows.
fn most_states(tree: &Table) -> u64
    ensures { result ≡ most_states_of (table_view tree.now) }
{
    if is_format_1(tree) { 8 } else { 12 }
}

// How many coefficients a piece of the file's format may have.
fn most_coefficients(tree: &Table) -> usize
    ensures { result ≡ most_coefficients (table_view tree.now) }
{
    if is_format_1(tree) { 4 } else { 6 }
}

// The month from which a later piece or step holds.
#[tactic(auto, unfolding(crate::specs::Findings::later_finding))]
fn later_finding(months: i64, before: i64, start: i64) -> Finding
    ensures { result ≡ later_finding months before start }
{
    if before < months {
        if before + 1 < months {
            outside(Number::From, start, before + 1, months - 1)
        } else {
            Finding::NoFurther(start)
        }
    } else {
        Finding::NoFurther(start)
    }
}

// The month from which a piece or a step by its place holds, and 0 where there is none.
fn start_at(items: &[Value], i: u32) -> i64
    ensures { result ≡ start_of (item_at (map view items.now) i) }
{
    match items.get(i as usize) {
        Some(value) => file_tree::start_of(value),
        None => 0,
    }
}

// The month from which a piece or a step holds.
#[tactic(auto, unfolding(crate::specs::Findings::start_finding))]
fn start_finding(months: i64, items: &[Value], i: u32) -> Finding
    ensures { result ≡ start_finding months (map view items.now) i }
{
    if i > 0 {
        later_finding(months, start_at(items, i - 1), start_at(items, i))
    } else {
        outside(Number::From, start_at(items, 0), 0, 0)
    }
}

// A piece or a step of a list, of which it is known whether it is a table of its keys.
#[tactic(auto, unfolding(crate::specs::Findings::item_finding))]
fn item_finding(
    none: Want,
    shape: Want,
    is_one: bool,
    months: i64,
    items: &[Value],
    i: u32,
) -> Finding
    ensures { result ≡ item_finding none shape is_one months (map view items.now) i }
{
    if items.is_empty() {
        Finding::Wants(none)
    } else if is_one {
        start_finding(months, items, i)
    } else {
        Finding::Wants(shape)
    }
}

// Whether there is a piece of at most so many coefficients at a place.
fn is_piece(most: usize, items: &[Value], i: u32) -> bool
    ensures { result ≡ is_piece most (item_at (map view items.now) i) }
{
    match items.get(i as usize) {
        Some(value) => is_table_of(value, &piece_keys(most)),
        None => false,
    }
}

// Whether there is a step of a constant amount at a place.
fn is_constant_step(items: &[Value], i: u32) -> bool
    ensures { result ≡ is_table_of file.constant_step_keys (item_at (map view items.now) i) }
{
    match items.get(i as usize) {
        Some(value) => is_table_of(value, &constant_step_keys()),
        None => false,
    }
}

// Whether there is a step of the file's format at a place.
fn is_step(tree: &Table, items: &[Value], i: u32) -> bool
    ensures { result ≡ is_step (table_view tree.now) (item_at (map view items.now) i) }
{
    if is_format_1(tree) {
        is_constant_step(items, i)
    } else {
        is_piece(4, items, i)
    }
}

// What a piece has.
fn piece_want(tree: &Table) -> Want
    ensures { result ≡ piece_want (table_view tree.now) }
{
    if is_format_1(tree) {
        Want::FourNumbers
    } else {
        Want::SixNumbers
    }
}

// What a step has.
fn step_want(tree: &Table) -> Want
    ensures { result ≡ step_want (table_view tree.now) }
{
    if is_format_1(tree) {
        Want::Amount
    } else {
        Want::FourNumbers
    }
}

// The pieces of a curve, and none where there is no such curve.
fn pieces_of(tree: &Table, number: u32) -> &[Value]
    ensures { map view result.now ≡ pieces_of (table_view tree.now) number }
{
    let number = number as usize;
    if number <= transitions(tree).len() {
        curve(tree, number)
    } else {
        &[]
    }
}

// The steps of the sum of a transition, and none where there is no such transition.
fn sum_steps(tree: &Table, k: u32) -> &[Value]
    ensures { map view result.now ≡ steps_of (table_view tree.now) (owner.Transition k) }
{
    match transitions(tree).get(k as usize) {
        Some(value) => sum_of(value),
        None => &[],
    }
}

// The steps of a sojourn, and none where there is no such sojourn.
fn sojourn_steps(tree: &Table, s: u32) -> &[Value]
    ensures { map view result.now ≡ steps_of (table_view tree.now) (owner.Sojourn s) }
{
    match sojourns(tree).get(s as usize) {
        Some(value) => file_tree::steps_of(value),
        None => &[],
    }
}

// The steps of a list.
fn steps_of(tree: &Table, owner: Owner) -> &[Value]
    ensures { map view result.now ≡ steps_of (table_view tree.now) owner }
{
    match owner {
        Owner::Transition(k) => sum_steps(tree, k),
        Owner::Sojourn(s) => sojourn_steps(tree, s),
    }
}

// A piece of a curve.
#[tactic(auto, unfolding(crate::specs::Findings::piece_finding))]
fn piece_finding(tree: &Table, curve: u32, piece: u32) -> Finding
    ensures { result ≡ piece_finding (table_view tree.now) curve piece }
{
    let pieces = pieces_of(tree, curve);
    let is_one = is_piece(most_coefficients(tree), pieces, piece);
    item_finding(
        Want::SomePiece,
        piece_want(tree),
        is_one,
        whole_of(tree, "months"),
        pieces,
        piece,
    )
}

// A step among the steps of its list.
#[tactic(auto, unfolding(crate::specs::Findings::step_finding))]
fn step_finding(tree: &Table, steps: &[Value], step: u32) -> Finding
    ensures { result ≡ step_finding (table_view tree.now) (map view steps.now) step }
{
    let is_one = is_step(tree, steps, step);
    item_finding(
        Want::SomeStep,
        step_want(tree),
        is_one,
        whole_of(tree, "months"),
        steps,
        step,
    )
}

// A step of a list: nothing is told where the sojourn itself is at fault.
#[tactic(auto, unfolding(crate::specs::Findings::list_finding))]
fn list_finding(tree: &Table, owner: Owner, step: u32) -> Finding
    ensures { result ≡ list_finding (table_view tree.now) owner step }
{
    match owner {
        Owner::Transition(k) => step_finding(tree, sum_steps(tree, k), step),
        Owner::Sojourn(s) if is_good_sojourn(tree, s) => step_finding(
            tree,
            sojourn_steps(tree, s),
            step,
        ),
        Owner::Sojourn(_) => Finding::Nothing,
    }
}

// The whole number at a key of a step or lump by its place, and 0 where there is none.
fn whole_at(items: &[Value], i: u32, key: &str) -> i64
    ensures { result ≡ whole_of key.now (members_of (item_at (map view items.now) i)) }
{
    match items.get(i as usize) {
        Some(value) => whole_within(value, key),
        None => 0,
    }
}

// The amount of a step of format 1.
#[tactic(auto, unfolding(crate::specs::Findings::amount_finding))]
fn amount_finding(tree: &Table, owner: Owner, step: u32) -> Finding
    ensures { result ≡ amount_finding (table_view tree.now) owner step }
{
    if is_format_1(tree) {
        outside(
            Number::Amount,
            whole_at(steps_of(tree, owner), step, "amount"),
            -LARGEST_AMOUNT,
            LARGEST_AMOUNT,
        )
    } else {
        Finding::Nothing
    }
}

// The month and the amount of a lump.
#[tactic(auto, unfolding(crate::specs::Findings::lump_finding))]
fn lump_finding(months: i64, lump: &Value) -> Finding
    ensures { result ≡ lump_finding months (members_of (view lump.now)) }
{
    let month = whole_within(lump, "month");
    if is_from_to(0, months, month) {
        outside(
            Number::Amount,
            whole_within(lump, "amount"),
            -LARGEST_LUMP,
            LARGEST_LUMP,
        )
    } else {
        Finding::Outside {
            number: Number::Month,
            found: month,
            low: 0,
            high: months,
        }
    }
}

// Whether the value is a lump.
fn is_lump(value: &Value) -> bool
    ensures { result ≡ is_lump (view value.now) }
{
    is_table_of(value, &lump_keys())
}

// A lump by its place.
#[tactic(auto, unfolding(crate::specs::Findings::lump_finding_at))]
fn lump_finding_at(tree: &Table, k: u32) -> Finding
    ensures { result ≡ lump_finding_at (table_view tree.now) k }
{
    match lumps(tree).get(k as usize) {
        Some(lump) if is_lump(lump) => lump_finding(whole_of(tree, "months"), lump),
        _ => Finding::Nothing,
    }
}

// A key of the top table: of one that no product has nothing more is told.
fn kind_finding(key: Thing) -> Finding
    ensures { result ≡ spec.kind_finding key }
{
    match key {
        Thing::Another => Finding::Nothing,
        _ => Finding::Key(key),
    }
}

// A number at a key of the top table.
fn top_finding(number: Number, key: &str, tree: &Table, low: i64, high: i64) -> Finding
    ensures { result ≡ key_finding number key.now (table_view tree.now) low high }
{
    outside(number, whole_of(tree, key), low, high)
}

// A number at a key of the premium table.
fn premium_finding(number: Number, key: &str, tree: &Table, low: i64, high: i64) -> Finding
    ensures { result ≡ key_finding number key.now (premium_of (table_view tree.now)) low high }
{
    outside(number, premium_whole(tree, key), low, high)
}

/// What the file has at the place of a rule, where that can be told simply.
pub fn finding_of(tree: &Table, rule: Rule, place: Place) -> Finding
    ensures { result ≡ spec.finding_of (table_view tree.now) rule place }
{
    match (rule, place) {
        (Rule::Keys, Place::Thing(key)) => kind_finding(key),
        (Rule::Format, _) => top_finding(Number::Format, "format", tree, 1, 2),
        (Rule::Names, Place::Thing(Thing::States)) => count_finding(tree),
        (Rule::Term, _) => top_finding(Number::Months, "months", tree, 1, LONGEST_TERM),
        (Rule::Denominator, _) => top_finding(Number::Den, "den", tree, 1, MOST_DENOMINATOR),
        (Rule::Start, _) => Finding::Start,
        (Rule::Pieces, Place::Piece { curve, piece }) => piece_finding(tree, curve, piece),
        (Rule::Steps, Place::Step { list, step }) => list_finding(tree, owner_of(tree, list), step),
        (Rule::Amounts, Place::Step { list, step }) => amount_finding(
            tree,
            owner_of(tree, list),
            step,
        ),
        (Rule::Lumps, Place::Lump(k)) => lump_finding_at(tree, k),
        (Rule::Pattern, Place::Thing(Thing::Until)) => {
            premium_finding(Number::Until, "until", tree, 1, whole_of(tree, "months"))
        }
        (Rule::Pattern, Place::Thing(Thing::Every)) => premium_finding(
            Number::Every,
            "every",
            tree,
            0,
            LONGEST_WAIT,
        ),
        _ => Finding::Nothing,
    }
}
