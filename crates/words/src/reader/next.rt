// One word.
ghost use Rattle.std.specs.Prelude.{◌≡◌, ◌+◌, ◌<◌, length, take};
ghost use Rattle.words.specs.Words.{span, rest, Next};

use super::{Reader, front_len, is_inner};
use crate::meaning::meaning;
use crate::token::{Word, WordFault};

impl<'a> Reader<'a> {
    // The bytes of the next word: a run of letters and digits, or one other byte.
    fn cut(&mut self) -> &'a [u8]
        requires { self.old.place < length self.old.listing.now }
        ensures listing { self.new.listing.now ≡ self.old.listing.now }
        ensures place { self.new.place ≡ self.old.place + span (rest self.old.listing.now self.old.place) }
        ensures text { result.now ≡ take (span (rest self.old.listing.now self.old.place)) (rest self.old.listing.now self.old.place) }
    {
        let rest = &self.listing[self.place..];
        let count = front_len(rest, is_inner).max(1);
        self.place += count;
        &rest[..count]
    }

    // The next word, or None at the end. The place is then past the word, good or bad, or at the end.
    pub fn next(&mut self) -> Result<Option<Word<'a>>, WordFault>
        ensures listing { self.new.listing.now ≡ self.old.listing.now }
        ensures next { Next self.old.listing.now self.old.place self.new.place result }
    {
        self.skip_blanks();
        let place = self.place;
        if place == self.listing.len() {
            return Ok(None);
        }
        let text = self.cut();
        meaning(text, place)
            .map(Some)
            .ok_or(WordFault::Bad { place })
    }
}
