ghost use Rattle.std.specs.Prelude.{◌≡◌, ◌<◌, ◌≤◌, ◌++◌, ◌∷◌, [], length, take, slice_get, slice_index, Some, IfOk, OnOk, OnErr};
ghost use Rattle.solv_list.specs.Inner.Layout.{pieces, start_of, AreEnds, IsInOrder, row_at};

use std::alloc::{AllocError, Global};
use std::marker::Model;

/// Lists by their numbers, one after another in one vector. Contracts see the rows.
pub struct Rows<T> {
    items: Vec<T>,
    ends: Vec<u32>,
}

impl<T: Drop> Drop for Rows<T> {
    fn drop(self) {
        let Rows { items: _, ends: _ } = self;
    }
}

impl<T> Model for Rows<T> {
    ghost use Rattle.std.specs.Prelude.{List, length};
    ghost use Rattle.solv_list.specs.Inner.Layout.{pieces, IsInOrder};

    ghost Value = { List (List T) };

    ghost view = { λ r. pieces r.items.items 0 r.ends.items };

    ghost invariant = { λ r. IsInOrder r.items.items r.ends.items (length r.items.items) };
}

/// Where a row begins. The one after the last begins where that ends.
fn begin(ends: &[u32], row: usize) -> usize
    requires { row ≤ length ends.now }
    ensures { result ≡ start_of 0 ends.now row }
{
    if row == 0 { 0 } else { ends[row - 1] as usize }
}

/// Where a row begins and ends among so many items.
fn place(ends: &[u32], row: usize, items: usize) -> (usize, usize)
    requires in_order { AreEnds 0 ends.now items }
    requires held { row < length ends.now }
    ensures start { result.0 ≡ start_of 0 ends.now row }
    ensures end { result.1 ≡ slice_index ends.now row }
    ensures forward { result.0 ≤ result.1 }
    ensures inside { result.1 ≤ items }
{
    (begin(ends, row), ends[row] as usize)
}

/// The row of this number.
fn row_of<'a, T>(items: &'a [T], ends: &[u32], row: usize) -> &'a [T]
    requires in_order { IsInOrder items.now ends.now (length items.now) }
    requires held { row < length ends.now }
    ensures { slice_get (pieces items.now 0 ends.now) row ≡ Some result.now }
{
    let (start, end) = place(ends, row, items.len());
    &items[start..end]
}

impl<T> Rows<T> {
    /// No rows. It takes no memory.
    pub fn new(alloc: Global) -> Rows<T>
        ensures { result ≡ [] }
    {
        Rows {
            items: Vec::new(alloc),
            ends: Vec::new(alloc),
        }
    }

    /// No rows, and room for the ends of so many.
    pub fn with_room(alloc: Global, rows: usize) -> Result<Rows<T>, AllocError>
        ensures { IfOk result (λ made. made ≡ []) }
    {
        let ends = Vec::with_capacity(alloc, rows)?;
        Ok(Rows {
            items: Vec::new(alloc),
            ends,
        })
    }

    /// How many rows there are.
    pub fn len(&self) -> usize
        ensures { result ≡ length self.now }
    {
        self.ends.len()
    }

    /// The row of a number. One that is not there has nothing.
    pub fn row(&self, row: usize) -> &[T]
        ensures { result.now ≡ row_at self.now row }
    {
        if row >= self.ends.len() {
            return &[];
        }
        row_of(&self.items, &self.ends, row)
    }
}

/// Appends a row's items. Most rows have one or none, which needs no copy of a block.
fn append<T: Copy>(items: &mut Vec<T>, row: &[T]) -> Result<(), AllocError>
    ensures ok { OnOk result (items.new.items ≡ items.old.items ++ row.now) }
    ensures err { OnErr result (items.new.items ≡ items.old.items) }
{
    match row {
        [] => Ok(()),
        [item] => {
            items.push(*item)?;
            Ok(())
        }
        _ => items.extend_from_slice(row),
    }
}

/// Appends a row's items to the others, and records where they end. More than 2^32 - 1 items are refused as too little
/// memory is.
fn extend<T: Copy>(items: &mut Vec<T>, row: &[T]) -> Result<u32, AllocError>
    ensures ok { OnOk result (items.new.items ≡ items.old.items ++ row.now) }
    ensures end { IfOk result (λ end. end ≡ length items.new.items) }
    ensures err { OnErr result (items.new.items ≡ items.old.items) }
{
    let before = items.len();
    append(items, row)?;
    let end = items.len();
    if end > u32::MAX as usize {
        items.truncate(before);
        return Err(AllocError);
    }
    Ok(end as u32)
}

impl<T: Copy> Rows<T> {
    /// Appends a row. On a refusal all is as before.
    pub fn push(&mut self, row: &[T]) -> Result<(), AllocError>
        ensures ok { OnOk result (self.new ≡ self.old ++ row.now ∷ []) }
        ensures err { OnErr result (self.new ≡ self.old) }
    {
        let before = self.items.len();
        let end = extend(&mut self.items, row)?;
        if self.ends.push(end).is_err() {
            self.items.truncate(before);
            return Err(AllocError);
        }
        Ok(())
    }
}

impl<T: Drop> Rows<T> {
    /// Keeps the first so many rows. It takes no memory.
    pub fn cut(&mut self, count: usize)
        requires { count ≤ length self.old }
        ensures { self.new ≡ take count self.old }
    {
        self.items.truncate(begin(&self.ends, count));
        self.ends.truncate(count);
    }
}
