// The rows of the layer table and their numbers, and the words of a layer's arguments. The contracts cite specs/Cells. A row is a slice whose length each
// clause asks for, and not an array: `Layer::of` and `Layer::check`, which docs/READING names, take it so.
ghost use Rattle.std.specs.Prelude.{◌≡◌, ◌+◌, ◌*◌, ◌<◌, ◌≤◌, length, take, drop};
ghost use Rattle.pictures.specs.Shapes.{nat_of, outside_z};
ghost use Rattle.layers.specs.Cells.{cell_of};

use pictures::shapes::{natural, outside};

// Part k of a list that is made of parts of `size`: a row of the layer table, or the words of a layer's arguments.
pub fn part<T>(list: &[T], size: usize, k: usize) -> &[T]
    requires { k * size + size ≤ length list.now }
    ensures { (result.now ≡ take size (drop (k * size) list.now)) × (length result.now ≡ size) }
{
    let first = k * size;
    &list[first..first + size]
}

// The number in a column of a row.
pub fn cell(row: &[i64], column: usize) -> i64
    requires { column < length row.now }
    ensures { result ≡ cell_of row.now column }
{
    row[column]
}

// It as an unsigned number, a negative one as 0.
pub fn natural_at(row: &[i64], column: usize) -> usize
    requires { column < length row.now }
    ensures { result ≡ nat_of (cell_of row.now column) }
{
    natural(cell(row, column))
}

// Whether it is not from lo to hi.
pub fn outside_at(row: &[i64], column: usize, lo: i64, hi: i64) -> bool
    requires { column < length row.now }
    ensures { result ≡ outside_z lo hi (cell_of row.now column) }
{
    outside(cell(row, column), lo, hi)
}
