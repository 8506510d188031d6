#![tactic(auto)]

// Tests of the words, over tables.
#[cfg(test)]
mod tests {
    use machine::order::Gate;
    use std::alloc::Global;
    use std::test::Fail;
    use words::lexer::words;
    use words::token::{Kind, Word, WordFault};

    // What a word is.
    // A row in short: whole words would name each field in 32 rows.
    #[derive(Clone, Copy, PartialEq)]
    enum Sort {
        Name,
        Number(u32),
        Gate(Gate),
        Fixed(Kind),
    }

    // What a table says of a word: what it is, its text and its place.
    type Row = (Sort, &'static [u8], usize);

    fn sort_of(word: &Word) -> Sort {
        match word {
            Word::Name { .. } => Sort::Name,
            Word::Number { value, .. } => Sort::Number(*value),
            Word::Gate { gate, .. } => Sort::Gate(*gate),
            Word::Fixed { kind, .. } => Sort::Fixed(*kind),
        }
    }

    fn fits(word: &Word, row: &Row) -> bool {
        sort_of(word) == row.0 && word.text() == row.1 && word.place() == row.2
    }

    // Whether the words are those of the table.
    fn are(words: &[Word], rows: &[Row]) -> bool {
        words.len() == rows.len() && words.iter().zip(rows).all(|(word, row)| fits(word, row))
    }

    // Whether the words of the listing are those of the table; an error is want of memory alone.
    fn has_words(heap: Global, listing: &[u8], rows: &[Row]) -> Result<bool, Fail> {
        let mut out = Vec::with_capacity(heap, listing.len())?;
        Ok(words(listing, &mut out).is_ok() && are(&out, rows))
    }

    // Whether the listing is refused for a bad word at the place; an error is want of memory alone.
    fn is_bad_at(heap: Global, listing: &[u8], bad: usize) -> Result<bool, Fail> {
        let mut out = Vec::with_capacity(heap, listing.len())?;
        let answer = words(listing, &mut out);
        Ok(matches!(answer, Err(WordFault::Bad { place }) if place == bad))
    }

    const LISTING: &[u8] =
        b"op f(a: bit): bit { a }\nrun using q0 in let r = meas(CNOT(q0)) in (r, 65535)";

    const ROWS: [Row; 32] = [
        (Sort::Fixed(Kind::Op), b"op", 0),
        (Sort::Name, b"f", 3),
        (Sort::Fixed(Kind::Open), b"(", 4),
        (Sort::Name, b"a", 5),
        (Sort::Fixed(Kind::Colon), b":", 6),
        (Sort::Fixed(Kind::Bit), b"bit", 8),
        (Sort::Fixed(Kind::Close), b")", 11),
        (Sort::Fixed(Kind::Colon), b":", 12),
        (Sort::Fixed(Kind::Bit), b"bit", 14),
        (Sort::Fixed(Kind::LeftBrace), b"{", 18),
        (Sort::Name, b"a", 20),
        (Sort::Fixed(Kind::RightBrace), b"}", 22),
        (Sort::Fixed(Kind::Run), b"run", 24),
        (Sort::Fixed(Kind::Using), b"using", 28),
        (Sort::Name, b"q0", 34),
        (Sort::Fixed(Kind::In), b"in", 37),
        (Sort::Fixed(Kind::Let), b"let", 40),
        (Sort::Name, b"r", 44),
        (Sort::Fixed(Kind::Equals), b"=", 46),
        (Sort::Fixed(Kind::Meas), b"meas", 48),
        (Sort::Fixed(Kind::Open), b"(", 52),
        (Sort::Gate(Gate::Cnot), b"CNOT", 53),
        (Sort::Fixed(Kind::Open), b"(", 57),
        (Sort::Name, b"q0", 58),
        (Sort::Fixed(Kind::Close), b")", 60),
        (Sort::Fixed(Kind::Close), b")", 61),
        (Sort::Fixed(Kind::In), b"in", 63),
        (Sort::Fixed(Kind::Open), b"(", 66),
        (Sort::Name, b"r", 67),
        (Sort::Fixed(Kind::Comma), b",", 68),
        (Sort::Number(65535), b"65535", 70),
        (Sort::Fixed(Kind::Close), b")", 75),
    ];

    // A name may begin with a reserved word, or be one in other letters.
    const NAMES: [&[u8]; 6] = [b"Run", b"ins", b"cnot", b"XX", b"a1", b"abcdefghijklmnop"];

    // Listings with a bad word, and its place.
    const BAD: [(&[u8], usize); 16] = [
        (b"1a", 0),
        (b"0x", 0),
        (b"00", 0),
        (b"let 007", 4),
        (b"run 65536", 4),
        (b"run 4294967296", 4),
        (b"65535x", 0),
        (b"abcdefghijklmnopq", 0),
        (b"abc_d", 3),
        (b"a\tb", 1),
        (b"a\r\n", 1),
        (b"\x00", 0),
        (b"in \xc3\xa9", 3),
        (b"a;b;", 1),
        (b"(]", 1),
        (b"run a  - b", 7),
    ];

    #[test]
    fn realistic_listing(rt: HostRuntime) -> Result<(), Fail> {
        assert!(rt; has_words(rt.alloc(), LISTING, &ROWS)?);
        Ok(())
    }

    #[test]
    fn names(rt: HostRuntime) -> Result<(), Fail> {
        for name in &NAMES {
            assert!(rt; has_words(rt.alloc(), *name, &[(Sort::Name, *name, 0)])?);
        }
        Ok(())
    }

    #[test]
    fn bad_words(rt: HostRuntime) -> Result<(), Fail> {
        for (listing, place) in &BAD {
            assert!(rt; is_bad_at(rt.alloc(), *listing, *place)?);
        }
        Ok(())
    }

    #[test]
    fn empty_listings(rt: HostRuntime) -> Result<(), Fail> {
        assert!(rt; has_words(rt.alloc(), b"", &[])? && has_words(rt.alloc(), b" \n ", &[])?);
        Ok(())
    }

    #[test]
    fn appends(rt: HostRuntime) -> Result<(), Fail> {
        let mut out = Vec::with_capacity(rt.alloc(), 2)?;
        assert!(rt; words(b"0", &mut out).is_ok());
        assert!(rt; words(b"SWAP", &mut out).is_ok());
        assert!(rt;
            are(
                &out,
                &[
                    (Sort::Number(0), b"0", 0),
                    (Sort::Gate(Gate::Swap), b"SWAP", 0)
                ]
            )
        );
        Ok(())
    }
}
