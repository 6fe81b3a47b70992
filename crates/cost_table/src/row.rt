//! The cells of a wagon's row, which may stand in two places.
ghost use Rattle.std.specs.Prelude.{◌≡◌, ◌≤◌, drop, length, slice_get, take};
ghost use Rattle.cost_table.specs.RowParts.{cells_in};

/// A row: the orders that a wagon may serve, ascending, each with its cost in kilometres. The first cells stand in one
/// place, those behind them in another; either may be none.
#[derive(Clone, Copy)]
pub struct Row<'a> {
    pub first: &'a [(u32, u32)],
    pub rest: &'a [(u32, u32)],
}

impl<'a> Row<'a> {
    /// How many cells there are.
    pub fn len(self) -> usize
        ensures { result ≡ length (cells_in self.entry) }
    {
        self.first.len() + self.rest.len()
    }

    /// The cell at an index; none past the end.
    pub fn get(self, x: usize) -> Option<(u32, u32)>
        ensures { result ≡ slice_get (cells_in self.entry) x }
    {
        match x.checked_sub(self.first.len()) {
            Some(behind) => self.rest.get(behind).copied(),
            None => self.first.get(x).copied(),
        }
    }

    /// So many of the first cells, and those behind them.
    pub fn split_at(self, count: usize) -> (Row<'a>, Row<'a>)
        requires { count ≤ length (cells_in self) }
        ensures front { cells_in result.0 ≡ take count (cells_in self.entry) }
        ensures behind { cells_in result.1 ≡ drop count (cells_in self.entry) }
        ensures within { length result.0.first.now ≤ length self.entry.first.now }
        ensures prefix { take (length result.0.first.now) self.entry.first.now ≡ result.0.first.now }
    {
        if count <= self.first.len() {
            let (front, behind) = self.first.split_at(count);
            (
                Row {
                    first: front,
                    rest: &[],
                },
                Row {
                    first: behind,
                    rest: self.rest,
                },
            )
        } else {
            let (front, behind) = self.rest.split_at(count - self.first.len());
            (
                Row {
                    first: self.first,
                    rest: front,
                },
                Row {
                    first: behind,
                    rest: &[],
                },
            )
        }
    }
}
