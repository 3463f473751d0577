//! One row of a stored system.

ghost use Rattle.std.specs.Prelude.{◌≡◌, ◌↔◌, ℕ, ◌+◌, ◌*◌, ◌<◌, ◌≤◌, pos, length, replicate, slice_set};
ghost use Rattle.std.specs.Prelude.{IfOk, IsTrue};
ghost use Rattle.linear_system.specs.StoredSystem.{place_of, AreColumns};
ghost use Rattle.linear_system.specs.Setting.{is_link, may_hold};

use std::alloc::{AllocError, Global};

// The columns that may hold numbers, the free one last, and power by power a number for each: so the numbers
// that one product reads lie side by side.
#[derive(Drop)]
pub(crate) struct Row {
    pub(crate) columns: Vec<usize>,
    pub(crate) numbers: Vec<i64>,
}

/// The place of a column among the columns, or their number where it is not among them.
pub(crate) fn place_in(columns: &[usize], col: usize) -> usize
    ensures { result ≡ place_of columns.now col }
{
    for (place, c) in columns.iter().enumerate() {
        if *c == col {
            return place;
        }
    }
    columns.len()
}

fn is_listed(links: &[(usize, usize)], row: usize, col: usize) -> bool
    ensures { result ≡ is_link links.now row col }
{
    links.iter().any(|link| link.0 == row && link.1 == col)
}

fn has_place(links: &[(usize, usize)], row: usize, col: usize) -> bool
    ensures { result ≡ may_hold links.now row col }
{
    col == row || is_listed(links, row, col)
}

// The columns of a row: its own, those of its links, and the free one, in order.
fn columns_of(
    alloc: Global,
    dim: usize,
    row: usize,
    links: &[(usize, usize)],
) -> Result<Vec<usize>, AllocError>
    requires dim { dim ≤ 24 }
    requires row { row < dim }
    ensures columns { IfOk result (λ v. AreColumns dim v.items) }
    ensures places { IfOk result (λ v. (col : ℕ) → col < dim
        → (place_of v.items col < length v.items) ↔ IsTrue (may_hold links.now row col)) }
{
    let mut columns = Vec::new(alloc);
    for col in 0..dim {
        if has_place(links, row, col) {
            columns.push(col)?;
        }
    }
    columns.push(dim)?;
    Ok(columns)
}

fn zeros(alloc: Global, count: usize) -> Result<Vec<i64>, AllocError>
    ensures { IfOk result (λ v. v.items ≡ replicate count (pos 0)) }
{
    let v = vec![in alloc; 0; count]?;
    Ok(v)
}

impl Row {
    // A row of zeros, with places on the diagonal and at the row's links.
    pub(crate) fn new(
        alloc: Global,
        dim: usize,
        degree: usize,
        row: usize,
        links: &[(usize, usize)],
    ) -> Result<Row, AllocError>
        requires dim { dim ≤ 24 }
        requires degree { degree ≤ 11 }
        requires row { row < dim }
        ensures columns { IfOk result (λ r. AreColumns dim r.columns.items) }
        ensures places { IfOk result (λ r. (col : ℕ) → col < dim
            → (place_of r.columns.items col < length r.columns.items) ↔ IsTrue (may_hold links.now row col)) }
        ensures numbers { IfOk result (λ r. r.numbers.items
            ≡ replicate (length r.columns.items * (degree + 1)) (pos 0)) }
    {
        let columns = columns_of(alloc, dim, row, links)?;
        let numbers = zeros(alloc, columns.len() * (degree + 1))?;
        Ok(Row { columns, numbers })
    }

    pub(crate) fn set(&mut self, place: usize, m: usize, v: i64)
        requires place { place < length self.old.columns.items }
        requires power { (m + 1) * length self.old.columns.items ≤ length self.old.numbers.items }
        requires width { length self.old.columns.items ≤ 25 }
        requires top { m ≤ 11 }
        ensures columns { self.new.columns.items ≡ self.old.columns.items }
        ensures numbers { self.new.numbers.items
            ≡ slice_set self.old.numbers.items (m * length self.old.columns.items + place) v }
    {
        self.numbers[m * self.columns.len() + place] = v;
    }

    pub(crate) fn clear(&mut self)
        ensures columns { self.new.columns.items ≡ self.old.columns.items }
        ensures numbers { self.new.numbers.items ≡ replicate (length self.old.numbers.items) (pos 0) }
    {
        self.numbers.fill(0);
    }
}
