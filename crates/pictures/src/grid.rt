// Samples in the caller's memory, as whole rows.
ghost use Rattle.std.specs.Prelude.{◌≡◌, ◌*◌, ◌≤◌, ⊤, length};

use std::alloc::AllocError;

// The most columns, and the most rows.
const MOST: usize = 4096;

// How many columns and rows some samples make: at most 4,096 of each.
#[derive(Clone, Copy)]
pub struct Grid {
    columns: usize,
    rows: usize,
    pub ghost narrow: { columns ≤ 4096 },
    pub ghost low: { rows ≤ 4096 },
}

impl Grid {
    ghost use Rattle.pictures.specs.Bytes.{columns_given, whole_rows};
    ghost use Rattle.pictures.specs.Grids.{index_in};

    // The whole rows of a column count; a count of 0 or above 4,096 makes no column and no row.
    pub fn new(samples: usize, columns: usize) -> Grid
        ensures columns { result.columns ≡ columns_given columns }
        ensures rows { result.rows ≡ whole_rows (columns_given columns) samples }
    {
        if columns == 0 || columns > MOST {
            return Grid {
                columns: 0,
                rows: 0,
            };
        }
        Grid {
            columns,
            rows: (samples / columns).min(MOST),
        }
    }

    pub fn columns(&self) -> usize
        ensures { result ≡ self.now.columns }
    {
        self.columns
    }

    pub fn rows(&self) -> usize
        ensures { result ≡ self.now.rows }
    {
        self.rows
    }

    // The number of a place, counted row by row; none outside.
    pub fn index(&self, x: usize, y: usize) -> Option<usize>
        ensures { result ≡ index_in self.now x y }
    {
        if x < self.columns() && y < self.rows() {
            Some(y * self.columns() + x)
        } else {
            None
        }
    }
}

// Samples of any type as the rows of a grid; all of those rows' samples are there.
#[derive(Copy)]
pub struct Samples<'a, S> {
    grid: Grid,
    samples: &'a [S],
    pub ghost held: { grid.columns * grid.rows ≤ length samples.now },
}

// By hand, since a derive refuses ghost fields beside a type parameter.
impl<'a, S: Copy> Clone for Samples<'a, S> {
    ghost is_clone = { λ s r. r ≡ s };

    ghost is_infallible = { λ _. ⊤ };

    fn clone(&self) -> Result<Self, AllocError> {
        Ok(*self)
    }
}

impl<'a, S: Copy> Samples<'a, S> {
    ghost use Rattle.pictures.specs.Bytes.{columns_given, whole_rows};
    ghost use Rattle.pictures.specs.Grids.{index_in, sample_in};

    // The samples as the whole rows of a column count.
    pub fn new(samples: &'a [S], columns: usize) -> Self
        ensures columns { result.grid.columns ≡ columns_given columns }
        ensures rows { result.grid.rows ≡ whole_rows (columns_given columns) (length samples.now) }
        ensures samples { result.samples.now ≡ samples.now }
    {
        Samples {
            grid: Grid::new(samples.len(), columns),
            samples,
        }
    }

    pub fn columns(&self) -> usize
        ensures { result ≡ self.now.grid.columns }
    {
        self.grid.columns()
    }

    pub fn rows(&self) -> usize
        ensures { result ≡ self.now.grid.rows }
    {
        self.grid.rows()
    }

    // The number of a place, counted row by row; none outside.
    pub fn index(&self, x: usize, y: usize) -> Option<usize>
        ensures { result ≡ index_in self.now.grid x y }
    {
        self.grid.index(x, y)
    }

    // The sample at column x of row y; none outside.
    pub fn sample(&self, x: usize, y: usize) -> Option<S>
        ensures { result ≡ sample_in self.now x y }
    {
        let at = self.index(x, y)?;
        Some(self.samples[at])
    }
}
