ghost use Rattle.std.specs.Prelude.{◌^◌, ◌<◌, ◌≤◌, unsigned_abs, IsTrue};
ghost use Rattle.linear_system.specs.Setting.{IsMadeFor, may_hold};

use super::*;

const MOST: i64 = 1 << 59;

// A number at a row, a column and a power, of a system of three unknowns and degree 1.
fn put(system: &mut CellSystem, links: &[(usize, usize)], row: usize, col: usize, m: usize, v: i128)
    requires made { IsMadeFor 3 1 links.now system.old }
    requires row { row < 3 }
    requires col { col < 3 }
    requires power { m ≤ 1 }
    requires listed { IsTrue (may_hold links.now row col) }
    requires size { unsigned_abs v ≤ 2 ^ 59 }
    ensures { IsMadeFor 3 1 links.now system.new }
{
    system.set(row, col, m, v);
}

#[test]
fn a_system_is_written_and_cleared(rt: HostRuntime) -> Result<(), AllocError> {
    let links = [(0, 2), (2, 0), (1, 0)];
    let mut system = CellSystem::new(rt.alloc(), 3, 1, &links)?;
    assert_eq!(rt; (system.dim(), system.degree()), (3, 1));
    assert_eq!(rt; system.columns(0), [0, 2, 3].as_slice());
    assert_eq!(rt; system.columns(1), [0, 1, 3].as_slice());
    assert_eq!(rt; system.columns(2), [0, 2, 3].as_slice());
    put(&mut system, &links, 0, 2, 0, i128::from(MOST));
    put(&mut system, &links, 0, 0, 1, -7);
    put(&mut system, &links, 1, 0, 1, 5);
    put(&mut system, &links, 1, 0, 1, -i128::from(MOST));
    assert_eq!(rt; system.numbers(0), [0, MOST, 0, -7, 0, 0].as_slice());
    assert_eq!(rt; system.numbers(1), [0, 0, 0, -MOST, 0, 0].as_slice());
    system.set_free(2, 1, 3);
    assert_eq!(rt; system.numbers(2), [0, 0, 0, 0, 0, 3].as_slice());
    system.clear();
    assert_eq!(rt; system.columns(1), [0, 1, 3].as_slice());
    assert_eq!(rt; system.numbers(1), [0, 0, 0, 0, 0, 0].as_slice());
    Ok(())
}
