//! This module eliminates a square matrix that is 0 outside a band.

ghost use Rattle.std.specs.Prelude.{◌≡◌, ◌+◌, ◌*◌, ◌^◌, ◌<◌, ◌≤◌, length};

use crate::vectors::add_scaled;

/// Row `i` of a band has the columns from `i - back` on, each at `column + back - i` in its row of `width` cells.
#[derive(Clone, Copy)]
pub struct Shape {
    pub rows: usize,
    pub back: usize,
    pub width: usize,
    ghost wide: { back < width },
    ghost small: { rows * width < 2 ^ 63 },
    ghost narrow: { width < 2 ^ 32 },
    ghost few: { rows < 2 ^ 31 },
}

impl Shape {
    /// Returns the shape of this many rows, whose columns reach this far back and forth.
    pub(crate) fn of_band(rows: usize, back: u32, forth: u32) -> Shape
        requires rows { rows < 2 ^ 31 }
        requires narrow { back + forth + 1 < 2 ^ 32 }
        ensures { result.rows ≡ rows }
    {
        let back = back as usize;
        Shape {
            rows,
            back,
            width: back + forth as usize + 1,
        }
    }

    /// Returns the number of cells.
    pub(crate) fn cells(self) -> usize
        ensures { result ≡ self.rows * self.width }
    {
        self.rows * self.width
    }

    /// Returns how far columns reach behind the diagonal.
    pub(crate) fn forth(self) -> usize
        ensures { self.back + result + 1 ≡ self.width }
    {
        self.width - 1 - self.back
    }

    /// Returns where a row begins.
    pub(crate) fn begin(self, row: usize) -> usize
        requires { row < self.rows }
        ensures value { result ≡ row * self.width }
        ensures end { result + self.width ≤ self.rows * self.width }
    {
        row * self.width
    }
}

/// Returns one of the first `rows` rows.
pub(crate) fn row_of(cells: &mut [f64], width: usize, row: usize, rows: usize) -> &mut [f64]
    requires row { row < rows }
    requires room { rows * width ≡ length cells.old }
    requires small { length cells.old < 2 ^ 63 }
    ensures { length result.now ≡ width }
{
    let begin = row * width;
    &mut cells[begin..begin + width]
}

/// Takes all rows out, from the last to the first. What leaves each row, for rows before it or for good, is put in a
/// list. Each cell behind the diagonal then has the factor by which a row was added to another.
pub(crate) fn eliminate(shape: Shape, cells: &mut [f64], leaks: &mut [f64], outs: &mut [f64])
    requires cells { length cells.old ≡ shape.rows * shape.width }
    requires leaks { length leaks.old ≡ shape.rows }
    requires outs { length outs.old ≡ shape.rows }
{
    for row in (0..shape.rows).rev() {
        outs[row] = take_out(shape, cells, leaks, row);
    }
}

/// Takes a row out of those before it, and returns what leaves it.
fn take_out(shape: Shape, cells: &mut [f64], leaks: &mut [f64], row: usize) -> f64
    requires cells { length cells.old ≡ shape.rows * shape.width }
    requires leaks { length leaks.old ≡ shape.rows }
    requires row { row < shape.rows }
{
    let back = shape.back;
    let start = back - back.min(row);
    let begin = shape.begin(row);
    let (above, below) = cells.split_at_mut(begin);
    let source = &below[start..back];
    let mut out = leaks[row];
    for share in source {
        out += *share;
    }
    for before in row - shape.forth().min(row)..row {
        let distance = row - before;
        let target = row_of(above, shape.width, before, row);
        let into = target[back + distance];
        if into == 0.0 {
            continue;
        }
        if out == 0.0 {
            leaks[before] += into;
            target[back + distance] = 0.0;
            continue;
        }
        let factor = into / out;
        leaks[before] += factor * leaks[row];
        add_scaled(
            &mut target[start + distance..back + distance],
            factor,
            source,
        );
        target[back + distance] = factor;
    }
    out
}
