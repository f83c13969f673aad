// Where a source lands on the destination: the gravities of gravity_translate.rs, `placement` of composite.rs, and the
// source's coordinate at a destination pixel. The contracts cite specs/Gravities, specs/Placement and specs/Indices.
#![tactic(auto)]

ghost use Rattle.std.specs.Prelude.{◌≡◌, ◌<◌, ◌≤◌, ℤ, pos, ◌+ℤ◌, ◌-ℤ◌};
ghost use Rattle.std.specs.Int.Signed.{quot_z, mag};
ghost use Rattle.places.specs.Bounds.{slack, reach, Under, Measured, Reached};
ghost use Rattle.places.specs.Gravities.{gravity_at, across_of, downward_of};
ghost use Rattle.places.specs.Placement.{start_of, placement_of};
ghost use Rattle.places.specs.Indices.{rem_euclid, inside_of, axis_index, tiles, pixel_index, source_index};

// The nine points of gravity_translate.rs; `Unset` is composite.rs's `None`. The order is that of their numbers.
#[derive(Clone, Copy, Debug, PartialEq, Eq)]
pub enum Gravity {
    Unset,
    NorthWest,
    North,
    NorthEast,
    West,
    Centre,
    East,
    SouthWest,
    South,
    SouthEast,
}

// Along one axis a source lies at the destination's near edge, in its middle, or at its far edge.
#[derive(Clone, Copy, Debug, PartialEq, Eq)]
pub enum Anchor {
    Near,
    Middle,
    Far,
}

// The destination coordinates of a source's top left pixel.
#[derive(Clone, Copy, Debug, PartialEq, Eq)]
pub struct Corner {
    pub x: i64,
    pub y: i64,
}

impl Gravity {
    // The largest number of a gravity.
    pub const LAST: u64 = 9;

    // The gravities in the order of their numbers.
    const ALL: [Gravity; 10] = [
        Gravity::Unset,
        Gravity::NorthWest,
        Gravity::North,
        Gravity::NorthEast,
        Gravity::West,
        Gravity::Centre,
        Gravity::East,
        Gravity::SouthWest,
        Gravity::South,
        Gravity::SouthEast,
    ];

    // The gravity of a number; past the last one, `Unset`.
    #[tactic(auto, unfolding(crate::specs::Gravities::gravity_at))]
    pub fn from_number(n: u64) -> Gravity
        ensures { result ≡ gravity_at n }
    {
        if n <= Self::LAST {
            Self::ALL[n as usize]
        } else {
            Gravity::Unset
        }
    }

    // Where a source lies from left to right: one of the definition's two tables.
    fn across(self) -> Anchor
        ensures { result ≡ across_of self }
    {
        match self {
            Gravity::Unset | Gravity::NorthWest | Gravity::West | Gravity::SouthWest =>
                Anchor::Near,
            Gravity::North | Gravity::Centre | Gravity::South => Anchor::Middle,
            Gravity::NorthEast | Gravity::East | Gravity::SouthEast => Anchor::Far,
        }
    }

    // Where a source lies from top to bottom: the other table.
    fn downward(self) -> Anchor
        ensures { result ≡ downward_of self }
    {
        match self {
            Gravity::Unset | Gravity::NorthWest | Gravity::North | Gravity::NorthEast =>
                Anchor::Near,
            Gravity::West | Gravity::Centre | Gravity::East => Anchor::Middle,
            Gravity::SouthWest | Gravity::South | Gravity::SouthEast => Anchor::Far,
        }
    }
}

impl Anchor {
    // Where a source side starts on a destination side, moved by an offset.
    fn start(self, dst: usize, src: usize, offset: i64) -> i64
        requires { (dst ≤ slack) × (src ≤ slack) × (mag offset ≤ slack) }
        ensures { result ≡ start_of self dst src offset }
    {
        match self {
            Anchor::Near => offset,
            Anchor::Middle => (dst as i64 - src as i64) / 2 + offset, // half of the gap, cut towards zero
            Anchor::Far => dst as i64 - src as i64 + offset,
        }
    }
}

// composite.rs's `placement`: the source's top left corner on the destination.
#[tactic(auto, unfolding(crate::specs::Placement::placement_of))]
pub fn placement(
    gravity: Gravity,
    dw: usize,
    dh: usize,
    sw: usize,
    sh: usize,
    right: i64,
    down: i64,
) -> Corner
    requires { Measured dw dh sw sh right down }
    ensures { result ≡ placement_of gravity dw dh sw sh right down }
{
    let x = gravity.across().start(dw, sw, right);
    let y = gravity.downward().start(dh, sh, down);
    Corner { x, y }
}

// Rust's `rem_euclid` on integers. By hand, since std's takes both as i64, and no clause bounds the side by that.
fn rem_euclid(z: i64, m: usize) -> usize
    requires { 0 < m }
    ensures { result ≡ rem_euclid z m }
{
    if z < 0 {
        let n = ((-1) - z) as usize;
        return m - 1 - n % m;
    }
    z as usize % m
}

// A number that is itself a coordinate of a side.
fn inside(z: i64, side: usize) -> Option<usize>
    ensures { result ≡ inside_of side z }
{
    if z < 0 {
        return None;
    }
    let n = z as usize;
    if n < side { Some(n) } else { None }
}

// The source's coordinate along one axis, at a destination coordinate; `None` where the source has none.
#[tactic(auto, using(crate::proofs::Indices::axis_empty, crate::proofs::Indices::axis_tiled, crate::proofs::Indices::axis_untiled))]
pub fn axis_index(tile: bool, side: usize, x: usize, start: i64) -> Option<usize>
    requires { (x ≤ slack) × (mag start ≤ reach) }
    ensures { result ≡ axis_index tile side (pos x -ℤ start) }
{
    let z = x as i64 - start;
    if side == 0 {
        return None;
    }
    if tile {
        return Some(rem_euclid(z, side));
    }
    inside(z, side)
}

// Whether a source repeats: tile is asked for and the source has pixels.
pub fn repeats(tile: bool, sw: usize, sh: usize) -> bool
    ensures { result ≡ tiles tile sw sh }
{
    tile && 0 < sw && 0 < sh
}

// The index, row by row, of the pixel at a column and a row of a source that is sw wide.
fn pixel_index(sw: usize, column: Option<usize>, row: Option<usize>) -> Option<usize>
    requires { (sw ≤ slack) × Under slack column × Under slack row }
    ensures { result ≡ pixel_index sw column row }
{
    Some(row? * sw + column?)
}

// The index of the source's pixel that lies on the destination pixel (x, y), if one does.
#[tactic(auto, unfolding(crate::specs::Indices::source_index))]
pub fn source_index(
    tile: bool,
    sw: usize,
    sh: usize,
    corner: Corner,
    x: usize,
    y: usize,
) -> Option<usize>
    requires { Reached sw sh corner x y }
    ensures { result ≡ source_index tile sw sh corner x y }
{
    let t = repeats(tile, sw, sh);
    let column = axis_index(t, sw, x, corner.x);
    let row = axis_index(t, sh, y, corner.y);
    pixel_index(sw, column, row)
}
