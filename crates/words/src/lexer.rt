// The words of a listing.
ghost use Rattle.std.specs.Prelude.{◌≡◌, ◌+◌, ◌<◌, length, Err, vec_len, vec_capacity};
ghost use Rattle.words.specs.Words.{Appended, Lexes};
ghost use Rattle.words.specs.declared.token.WordFault.TheVariants.{Memory};

use crate::reader::Reader;
use crate::token::{Word, WordFault};

// Gives the words of the listing at the end of `out`; or those before the first bad word, and its place.
// Memory is wanting only where `out` has less room than the listing has bytes; then the words given are those before some good word.
pub fn words<'a>(listing: &'a [u8], out: &mut Vec<Word<'a>>) -> Result<(), WordFault>
    ensures words { Appended out.old.items out.new.items (λ ws. Lexes listing.now ws result) }
    ensures memory { result ≡ Err Memory → vec_capacity out.old < vec_len out.old + length listing.now }
{
    // A `while let`: `next` answers a result, and `?` goes on its words.
    let mut reader = Reader::new(listing);
    while let Some(word) = reader.next()? {
        out.push(word)?;
    }
    Ok(())
}
