// A reader over a borrowed listing.
ghost use Rattle.std.specs.Prelude.{◌≡◌, ℕ, ◌+◌, ◌<◌, ◌≤◌, true, false, length, slice_index};
ghost use Rattle.words.specs.Bytes.{blank, inner};
ghost use Rattle.words.specs.Words.{rest};
ghost use Rattle.std.specs.List.{prefix_len};

mod next;

// The place never passes the end of the listing. A place, and not the rest of the listing: clauses speak of the whole.
#[derive(Drop)]
pub struct Reader<'a> {
    listing: &'a [u8],
    place: usize,
    ghost within: { place ≤ length listing.now },
}

fn is_blank(b: u8) -> bool
    ensures { result ≡ blank b }
{
    matches!(b, b' ' | b'\n')
}

fn is_inner(b: u8) -> bool
    ensures { result ≡ inner b }
{
    b.is_ascii_alphanumeric()
}

// How many bytes come first that pass the test.
fn front_len<F: Fn(u8) -> bool>(bytes: &[u8], test: F) -> usize
    requires { F.IsAlwaysCallable test }
    ensures within { result ≤ length bytes.now }
    ensures passed { (k : ℕ) → k < result → F.post test (slice_index bytes.now k) true }
    ensures stopped { result < length bytes.now → F.post test (slice_index bytes.now result) false }
{
    bytes
        .iter()
        .position(|byte| !test(*byte))
        .unwrap_or(bytes.len())
}

impl<'a> Reader<'a> {
    pub fn new(listing: &'a [u8]) -> Reader<'a>
        ensures place { result.place ≡ 0 }
        ensures listing { result.listing.now ≡ listing.now }
    {
        Reader { listing, place: 0 }
    }

    // Passes the spaces and line feeds that come next. As in each method, the clause `listing`: a reader is a place in one listing.
    fn skip_blanks(&mut self)
        ensures listing { self.new.listing.now ≡ self.old.listing.now }
        ensures place { self.new.place ≡ self.old.place + prefix_len blank (rest self.old.listing.now self.old.place) }
    {
        self.place += front_len(&self.listing[self.place..], is_blank);
    }
}
