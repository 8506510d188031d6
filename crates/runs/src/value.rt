// Values of a run, kept in place: a leaf, or a tuple followed by its parts.
ghost use Rattle.std.specs.Prelude.{◌≡◌, ◌≤◌, length};

use programs::program::Leaf;

mod items;

// At most 8 leaves, and a tuple has two parts or more: at most 7 tuples.
pub const ITEMS: usize = 15;

#[derive(Clone, Copy)]
pub enum Item {
    Leaf(Leaf),
    // a tuple of so many parts, which follow
    Tuple(u8),
}

// An array with a count: a step copies values in place, and the library's buffers with a length of their own are not `Copy`.
#[derive(Clone, Copy)]
pub struct Value {
    items: [Item; ITEMS],
    count: usize,
    ghost few: { count ≤ 15 },
    ghost long: { length items ≡ 15 },
}
