// What is written at the end of a text; what has no room is left out.
ghost use Rattle.std.specs.Prelude.{◌≡◌, ◌≤◌, [], ◌∷◌, ◌++◌, length, decimal};
ghost use Rattle.texts.specs.Texts.{written, fitted};

use super::{ROOM, Text};
use itoa::Buffer;

impl Text {
    pub fn new() -> Text
        ensures { written result ≡ [] }
    {
        Text {
            bytes: [0; ROOM],
            count: 0,
        }
    }

    // The bytes of the text.
    pub fn bytes(&self) -> &[u8]
        ensures value { result.now ≡ written self.now }
        ensures fits { length result.now ≤ 256 }
    {
        &self.bytes[..self.count]
    }

    pub fn push(&mut self, byte: u8)
        ensures { written self.new ≡ fitted (written self.old ++ byte ∷ []) }
    {
        if self.count < ROOM {
            self.bytes[self.count] = byte;
            self.count += 1;
        }
    }

    pub fn push_all(&mut self, text: &[u8])
        ensures { written self.new ≡ fitted (written self.old ++ text.now) }
    {
        for byte in text {
            self.push(*byte);
        }
    }

    // A number in decimal digits, with no leading zero but in 0 itself.
    pub fn push_decimal(&mut self, n: u64)
        ensures { written self.new ≡ fitted (written self.old ++ decimal n) }
    {
        self.push_all(Buffer::new().format(n).as_bytes());
    }
}
