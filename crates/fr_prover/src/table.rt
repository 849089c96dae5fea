// Tables of truth values.
use crate::lists::{is_marked, list_at, mark};
use std::alloc::{AllocError, Global};

/// Truth values in rows and columns, by their numbers from 0.
#[derive(Drop)]
pub struct TruthTable {
    rows: Vec<Vec<bool>>,
}

impl TruthTable {
    /// A table of so many rows and columns with this value everywhere.
    pub fn new(
        alloc: Global,
        rows: usize,
        columns: usize,
        value: bool,
    ) -> Result<TruthTable, AllocError> {
        let row = vec![in alloc; value; columns]?;
        TruthTable::repeated(alloc, rows, &row)
    }

    /// A table of so many rows that are all like this one.
    pub fn repeated(alloc: Global, rows: usize, row: &[bool]) -> Result<TruthTable, AllocError> {
        let mut lists = Vec::with_capacity(alloc, rows)?;
        for _ in 0..rows {
            lists.push(Vec::from_slice(alloc, row)?)?;
        }
        Ok(TruthTable { rows: lists })
    }

    /// The row; an empty one where the table has none with this number.
    pub fn row(&self, row: usize) -> &[bool] {
        list_at(&self.rows, row)
    }

    /// Whether it is true there. Outside the table nothing is.
    pub fn has(&self, row: usize, column: usize) -> bool {
        is_marked(self.row(row), column)
    }

    /// Makes it true there. Outside the table nothing changes.
    pub fn mark(&mut self, row: usize, column: usize) {
        if let Some(cells) = self.rows.get_mut(row) {
            mark(cells, column);
        }
    }

    /// Makes true in a row what is true in another one, except in one column. Whether anything is new.
    pub fn take(&mut self, row: usize, other: usize, except: Option<usize>) -> bool {
        let mut is_new = false;
        for column in 0..self.row(other).len() {
            if self.has(other, column) && !self.has(row, column) && except != Some(column) {
                self.mark(row, column);
                is_new = true;
            }
        }
        is_new
    }

    /// How many of the column are true.
    pub fn count_column(&self, column: usize) -> usize {
        let mut count: usize = 0;
        for row in &self.rows {
            count = count.saturating_add(usize::from(is_marked(row, column)));
        }
        count
    }

    /// How many of the row are true.
    pub fn count(&self, row: usize) -> usize {
        let mut count: usize = 0;
        for cell in self.row(row) {
            count = count.saturating_add(usize::from(*cell));
        }
        count
    }
}
