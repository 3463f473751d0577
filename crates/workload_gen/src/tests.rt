use crate::make;
use std::alloc::Global;
use std::test::Fail;
use toml::{Table, Value};

// The whole number at a key of the table at a place of an array.
fn whole_in(items: &Value, place: usize, key: &str) -> Option<i64> {
    items.get(place)?.get(key)?.as_integer()
}

// A coefficient of a transition's piece for a year.
fn coefficient(tree: &Table, transition: usize, year: usize, i: usize) -> Option<i64> {
    let piece = tree
        .get("transition")?
        .get(transition)?
        .get("rate")?
        .get(year)?;
    piece.get("c")?.get(i)?.as_integer()
}

fn tree_of(alloc: Global, seed: u64) -> Result<Table, Fail> {
    Ok(toml::table_from_slice(alloc, &make(alloc, seed)?)?)
}

#[test]
fn annuities_are_drawn_from_their_seeds(rt: HostRuntime) -> Result<(), Fail> {
    for (seed, name, amount) in [(0, "generated-0", 148449), (7, "generated-7", 144096)] {
        let tree = tree_of(rt.alloc(), seed)?;
        let lumps = tree.get("lump").ok_or("no lumps")?;
        assert_eq!(rt; tree.get("name").and_then(Value::as_str), Some(name));
        for (place, month) in [(0, 1), (779, 780)] {
            assert_eq!(rt; whole_in(lumps, place, "month"), Some(month));
            assert_eq!(rt; whole_in(lumps, place, "amount"), Some(amount));
        }
    }
    Ok(())
}

#[test]
fn intensities_are_drawn_in_their_order(rt: HostRuntime) -> Result<(), Fail> {
    let tree = tree_of(rt.alloc(), 7)?;
    for (transition, year, wanted) in [
        (0, 0, [1_063_231, 856_753, 218_673, 45_545]),
        (0, 64, [41_969_862, 861_771, 414_414, 87_157]),
        (1, 0, [200_752_354, 870_395, 29_256, 32_384]),
        (1, 64, [8_093_289, 756_916, 104_412, 9_234]),
        (2, 33, [22_371_742, 484_804, 315_804, 47_707]),
        (3, 64, [133_717_543, 760_553, 82_168, 78_039]),
    ] {
        for i in 0..4 {
            assert_eq!(rt; coefficient(&tree, transition, year, i), Some(wanted[i]));
        }
    }
    Ok(())
}
