// A table of a fixed size that owns its rows: what no call may allocate stands here, and clauses see the rows in use as a list.
ghost use Rattle.std.specs.Prelude.{◌≡◌, ◌<◌, ◌≤◌, [], ◌∷◌, ◌++◌, length};

use std::marker::Model;

/// At most `N` rows, which the table owns.
// An array and its count, so that no other struct needs them. Derived, `Debug` and `PartialEq` would look at rows that are not in use.
#[derive(Drop)]
pub struct Table<T: Copy, const N: usize> {
    rows: [T; N],
    len: usize,
}

impl<T: Copy, const N: usize> Model for Table<T, N> {
    ghost use Rattle.std.specs.Prelude.{List, take, ◌≤◌};

    ghost Value = { List T };

    ghost view = { λ table. take table.len table.rows };

    ghost invariant = { λ table. table.len ≤ N };
}

impl<T: Copy, const N: usize> Table<T, N> {
    /// A table without rows; its memory is filled with a row that does not matter.
    pub fn new(blank: T) -> Self
        ensures { result ≡ [] }
    {
        Table {
            rows: [blank; N],
            len: 0,
        }
    }

    /// The rows in use.
    pub fn rows(&self) -> &[T]
        ensures rows { result.now ≡ self.now }
        ensures within { length self.now ≤ N }
    {
        &self.rows[..self.len]
    }

    /// How many rows are in use.
    pub fn len(&self) -> usize
        ensures len { result ≡ length self.now }
        ensures within { result ≤ N }
    {
        self.rows().len()
    }

    /// Puts a row behind the others, if there is room for it; a full table stays as it is.
    // The count is stepped by hand: a table is what has it.
    pub fn push(&mut self, row: T)
        ensures room { length self.old < N → self.new ≡ self.old ++ row ∷ [] }
        ensures full { N ≤ length self.old → self.new ≡ self.old }
    {
        if self.len < N {
            self.rows[self.len] = row;
            self.len += 1;
        }
    }

    /// Leaves no row in use.
    pub fn clear(&mut self)
        ensures { self.new ≡ [] }
    {
        self.len = 0;
    }
}
