// The shape's own table, made by the rules themselves and by the table of distances between pairs of cells of a grid four wide.
ghost use Rattle.std.specs.Prelude.{◌≡◌, ◌<◌, ◌+◌, ◌*◌, length};
ghost use Rattle.board.specs.Shape.{cells, GoodShape};
ghost use Rattle.board.specs.Distance.{tray_distance, DistanceTable, four_wide, way_at, FirstWays, NearTable, RunPut};

use crate::Shape;
use crate::held::{cell_count, row_and_column};
use crate::moves::way_entry;
use crate::table::DISTANCES;

// The table of distances. A constant is copied at each use, so a caller holds this in one local.
pub fn distances() -> [u8; 256]
    ensures { DistanceTable result }
{
    DISTANCES
}

// The shape's own table, 64 entries for each of its cells: what each tray adds to the distance there, and the ways from there.
pub(crate) fn near_table(shape: Shape) -> [u8; 1024]
    requires { GoodShape shape }
    ensures { NearTable shape result }
{
    let table = distances();
    let mut near = [0u8; 1024];
    for e in 0..cell_count(shape) {
        put_near(shape, e, &table, &mut near);
        put_ways(shape, e, &mut near);
    }
    near
}

// Puts what each tray adds in cell e.
fn put_near(shape: Shape, e: usize, table: &[u8; 256], near: &mut [u8; 1024])
    requires good_shape { GoodShape shape }
    requires e_bound { e < cells shape }
    requires distance_table { DistanceTable table.now }
    requires near_len { length near.old ≡ 1024 }
    ensures { RunPut (tray_distance shape e) (64 * e) (cells shape) near.old near.new }
{
    for v in 0..cell_count(shape) {
        near[64 * e + v] = near_entry(shape, e, v, table);
    }
}

// Puts the ways from cell e: by each move, after each move before it.
fn put_ways(shape: Shape, e: usize, near: &mut [u8; 1024])
    requires good_shape { GoodShape shape }
    requires e_bound { e < cells shape }
    requires near_len { length near.old ≡ 1024 }
    ensures { RunPut (way_at shape e) (64 * e + 16) 20 near.old near.new }
{
    let ways = first_ways(shape, e);
    for k in 0..20 {
        near[64 * e + 16 + k] = way_of(shape, e, &ways, k);
    }
}

// The ways from cell e by each move, where none takes a move back. The rules are asked of these four alone: of all twenty, the table of
// a shape, which every call makes, took 2.4 times the instructions.
fn first_ways(shape: Shape, e: usize) -> [u8; 4]
    requires good_shape { GoodShape shape }
    requires e_bound { e < cells shape }
    ensures { FirstWays shape e result }
{
    [
        way_entry(shape, e, 4, 0) as u8,
        way_entry(shape, e, 4, 1) as u8,
        way_entry(shape, e, 4, 2) as u8,
        way_entry(shape, e, 4, 3) as u8,
    ]
}

// The way by the place k = 4 × last + m.
fn way_of(shape: Shape, e: usize, ways: &[u8; 4], k: usize) -> u8
    requires bounds { (e < 256) × (k < 20) }
    requires first_ways { FirstWays shape e ways.now }
    ensures { result ≡ way_at shape e k }
{
    if k / 4 + k % 4 == 3 {
        e as u8
    } else {
        ways[k % 4]
    }
}

// What the tray v in cell i adds, by the cells of a grid four wide with the same rows and columns; 0 is the empty cell and no tray.
#[tactic(auto, using(crate::proofs::theory::Distances::places))]
fn near_entry(shape: Shape, i: usize, v: usize, table: &[u8; 256]) -> u8
    requires good_shape { GoodShape shape }
    requires i_bound { (i < cells shape) × (v < cells shape) }
    requires distance_table { DistanceTable table.now }
    ensures { result ≡ tray_distance shape i v }
{
    if v == 0 {
        return 0;
    }
    table[16 * four_wide(shape, i) + four_wide(shape, v)]
}

// The cell of a grid four wide with the row and the column of cell i.
fn four_wide(shape: Shape, i: usize) -> usize
    requires good_shape { GoodShape shape }
    requires i_bound { i < cells shape }
    ensures { result ≡ four_wide shape i }
{
    let (row, column) = row_and_column(shape, i);
    4 * row + column
}
