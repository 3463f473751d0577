//! The history of each row: a strip of blocks, one for each power, the newest block first.

ghost use Rattle.std.specs.Prelude.{◌≡◌, ℕ, ◌+◌, ◌*◌, ◌<◌, ◌≤◌, pos, length, map, slice_index};
ghost use Rattle.std.specs.Prelude.{slice_index_or};
ghost use Rattle.linear_system.specs.StoredSystem.{row_of, dim_of};
ghost use Rattle.taylor_step.specs.Strips.{put_at, zeros, contents, HasRoom, IsStart, IsHistory, HasNewBlocks};

use linear_system::CellSystem;

/// Writes the newest numbers of the columns into a strip, from a place on.
fn write_block(columns: &[usize], newest: &[i64], strip: &mut [i64], at: usize)
    requires room { at + length columns.now ≤ length strip.old }
    requires in_range { (p : ℕ) → p < length columns.now → slice_index columns.now p < length newest.now }
    ensures { strip.new ≡ put_at strip.old at (map (λ col. slice_index_or newest.now col (pos 0)) columns.now) }
{
    for p in 0..columns.len() {
        strip[at + p] = newest[columns[p]];
    }
}

/// Writes zeros into a strip, from a place on.
fn write_zeros(strip: &mut [i64], at: usize, count: usize)
    requires { at + count ≤ length strip.old }
    ensures { strip.new ≡ put_at strip.old at (zeros count) }
{
    for p in 0..count {
        strip[at + p] = 0;
    }
}

/// Puts the newest numbers, which stand column by column, into a block of every row's strip.
pub(crate) fn write_blocks(sys: &CellSystem, block: usize, newest: &[i64], strips: &mut [Vec<i64>])
    requires block { block ≤ 24 }
    requires newest { length newest.now ≡ dim_of sys.now + 1 }
    requires room { HasRoom sys.now (contents strips.old) }
    ensures room { HasRoom sys.now (contents strips.new) }
    ensures blocks { HasNewBlocks sys.now (contents strips.old) (contents strips.new) block
        (λ row. map (λ col. slice_index_or newest.now col (pos 0)) (row_of sys.now row).columns) }
{
    let _degree = sys.degree();
    for i in 0..sys.dim() {
        let columns = sys.columns(i);
        write_block(columns, newest, &mut strips[i], block * columns.len());
    }
}

/// Zeros for the start, which stands beside the strips, and for the powers before it.
fn write_zero_blocks(sys: &CellSystem, strips: &mut [Vec<i64>])
    requires room { HasRoom sys.now (contents strips.old) }
    ensures room { HasRoom sys.now (contents strips.new) }
    ensures blocks { HasNewBlocks sys.now (contents strips.old) (contents strips.new) 24
        (λ row. zeros ((sys.now.degree + 1) * length (row_of sys.now row).columns)) }
{
    let degree = sys.degree();
    for i in 0..sys.dim() {
        let width = sys.columns(i).len();
        write_zeros(&mut strips[i], 24 * width, (degree + 1) * width);
    }
}

/// The start by columns, with 2^64 for the free one.
fn write_start(mid: &[i128], start: &mut [i128])
    requires { length start.old ≡ length mid.now + 1 }
    ensures { IsStart mid.now start.new }
{
    for i in 0..mid.len() {
        start[i] = mid[i];
    }
    start[mid.len()] = 1 << 64;
}

/// The start, and the strips before anything came after it. The free column's number is 0 from then on.
pub(crate) fn begin(
    sys: &CellSystem,
    mid: &[i128],
    start: &mut [i128],
    newest: &mut [i64],
    strips: &mut [Vec<i64>],
)
    requires mid { length mid.now ≡ dim_of sys.now }
    requires start { length start.old ≡ dim_of sys.now + 1 }
    requires newest { length newest.old ≡ dim_of sys.now + 1 }
    requires room { HasRoom sys.now (contents strips.old) }
    ensures room { HasRoom sys.now (contents strips.new) }
    ensures start { IsStart mid.now start.new }
    ensures free { slice_index_or newest.new (dim_of sys.now) (pos 0) ≡ pos 0 }
    ensures history { IsHistory sys.now mid.now 0 (contents strips.new) }
{
    let _degree = sys.degree();
    write_start(mid, start);
    write_zero_blocks(sys, strips);
    newest[mid.len()] = 0;
}
