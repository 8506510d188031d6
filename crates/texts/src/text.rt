// A text that grows at its end, up to a fixed room.
ghost use Rattle.std.specs.Prelude.{◌≡◌, ◌≤◌, length};

mod writing;

// The room of a text: more than any report needs.
pub const ROOM: usize = 256;

// An array with a count, as a value of a run: a text is `Copy`, and the kit's vectors of fixed capacity are not.
#[derive(Clone, Copy)]
pub struct Text {
    bytes: [u8; ROOM],
    count: usize,
    ghost within: { count ≤ 256 },
    ghost long: { length bytes ≡ 256 },
}
