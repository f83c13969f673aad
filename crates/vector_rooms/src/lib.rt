// The lists that lines share: each has room for the longest, and `=` in a line stands for what it has. How a line's lists are read over what they were, and
// whether a job's memory is left as a line says.
#![tactic(auto)]

ghost use Rattle.std.specs.Prelude.{true, ◌≡◌, ◌≤◌, replicate, take};
ghost use Rattle.vector_rooms.specs.Rooms.{placed, room_of, fits, room_at, shape_at, layers_at, inputs_in, inputs_by};
ghost use Rattle.vector_rooms.specs.Rooms.{memory_fits, memory_at, left_at, nothing_kept};

use pictures::Shape;
use vector_lines::{Number, Read, if_same, list};

// A list of at most N numbers: the first `count` of its items.
#[derive(Clone, Copy, PartialEq, Eq)]
pub struct Room<T, const N: usize> {
    pub items: [T; N],
    pub count: usize,
}

// Room for the words of a picture, also of one that is narrowed.
pub type Picture = Room<u32, 256>;

// The longest output.
pub const OUT: usize = 256;

impl<T: Number, const N: usize> Room<T, N> {
    // A list that has no numbers, in a room full of `fill`.
    pub fn new(fill: T) -> Self
        ensures { result ≡ room_of (replicate N fill) 0 }
    {
        Room {
            items: [fill; N],
            count: 0,
        }
    }

    // The numbers of the list; all the room where its count is more.
    pub fn as_slice(&self) -> &[T]
        ensures { result.now ≡ take self.now.count self.now.items }
    {
        &self.items[..self.count.min(N)]
    }

    // Whether the count is no more than there is room for.
    pub fn fits(&self) -> bool
        ensures value { result ≡ fits self.now }
        ensures bound { result ≡ true → self.now.count ≤ N }
    {
        self.count <= N
    }

    // Reads the list over what it was.
    pub fn read(&mut self, line: &[u8], at: usize) -> usize
        ensures { placed result self.new ≡ room_at (T.read_at line.now) line.now at self.old }
    {
        list(line, at, &mut self.items, &mut self.count)
    }
}

// What C and J lines share: DST, and the lists of the layers.
#[derive(Drop)]
pub struct Lists {
    pub dst: Picture,
    pub table: Room<i64, 320>,
    pub args: Room<u32, 128>,
    pub samples: Room<u32, 2048>,
}

// What a composition or a job is asked for: the lists are lent as they stand.
#[derive(Clone, Copy)]
pub struct Asked<'a> {
    pub shape: Shape,
    pub dst: &'a [u32],
    pub layers: i64,
    pub table: &'a [i64],
    pub args: &'a [u32],
    pub samples: &'a [u32],
}

impl Lists {
    // The lists of the layers: TABLE ARGS SAMPLES.
    #[tactic(auto, unfolding(crate::specs::Rooms::table_at, crate::specs::Rooms::args_at, crate::specs::Rooms::samples_at))]
    pub fn read_layers(&mut self, line: &[u8], at: usize) -> usize
        ensures { placed result self.new ≡ layers_at line.now (placed at self.old) }
    {
        let after_table = self.table.read(line, at);
        let after_args = self.args.read(line, after_table);
        self.samples.read(line, after_args)
    }

    pub fn asked(&self, shape: Shape, layers: i64) -> Asked<'_>
        ensures { inputs_in result ≡ inputs_by shape layers self.now }
    {
        Asked {
            shape,
            dst: self.dst.as_slice(),
            layers,
            table: self.table.as_slice(),
            args: self.args.as_slice(),
            samples: self.samples.as_slice(),
        }
    }
}

// The memory that a job's calls share, from one to the next and from a line to the next.
#[derive(Clone, Copy, PartialEq, Eq)]
pub struct Memory {
    pub work0: Picture,
    pub work1: Picture,
    pub checkpoint: Room<u64, 4>,
}

impl Memory {
    pub fn fits(&self) -> bool
        ensures value { result ≡ memory_fits self.now }
        ensures bounds { result ≡ true
            → (self.now.work0.count ≤ 256) × (self.now.work1.count ≤ 256) × (self.now.checkpoint.count ≤ 4) }
    {
        self.work0.fits() && self.work1.fits() && self.checkpoint.fits()
    }

    // WORK0 WORK1 MARK.
    #[tactic(auto, unfolding(crate::specs::Rooms::work0_at, crate::specs::Rooms::work1_at, crate::specs::Rooms::checkpoint_at))]
    pub fn read(&mut self, line: &[u8], at: usize) -> usize
        ensures { placed result self.new ≡ memory_at line.now (placed at self.old) }
    {
        let after_work0 = self.work0.read(line, at);
        let after_work1 = self.work1.read(line, after_work0);
        self.checkpoint.read(line, after_work1)
    }

    // The place after the memory that must be left, which is read over `due` and kept for the next line.
    #[tactic(auto, unfolding(crate::specs::Rooms::left_by))]
    pub fn left(&mut self, line: &[u8], at: usize, mut due: Memory) -> usize
        ensures { placed result self.new ≡ left_at line.now (placed at due) self.old }
    {
        let next = due.read(line, at);
        let place = if_same(due == *self, next);
        *self = due;
        place
    }
}

// All the lists that lines share.
#[derive(Drop)]
pub struct Rooms {
    pub lists: Lists,
    pub input: Picture,
    pub memory: Memory,
}

impl Rooms {
    // Before the first line.
    pub fn new() -> Self
        ensures { result ≡ nothing_kept }
    {
        Rooms {
            lists: Lists {
                dst: Room::new(0),
                table: Room::new(0),
                args: Room::new(0),
                samples: Room::new(0),
            },
            input: Room::new(0),
            memory: Memory {
                work0: Room::new(0),
                work1: Room::new(0),
                checkpoint: Room::new(0),
            },
        }
    }
}

// A destination's sides and channels, at the start of a line.
pub fn shape_of(line: &[u8]) -> Read<Shape>
    ensures { result ≡ shape_at line.now }
{
    let width = i64::read(line, 1);
    let height = i64::read(line, width.next);
    let channels = i64::read(line, height.next);
    Read {
        value: Shape {
            width: width.value,
            height: height.value,
            channels: channels.value,
        },
        next: channels.next,
    }
}
