// The words of a listing: each is a part of the listing with its place.
ghost use Rattle.std.specs.Prelude.{◌≡◌, Decides, nat_eq};
ghost use Rattle.std.specs.Cmp.{nat_eq_equiv, on_equiv, partial_equiv_from_equiv};
ghost use Rattle.std.specs.Ordering.{on};
ghost use Rattle.words.specs.Kinds.{kind_number};
ghost use Rattle.words.specs.Words.{seen};
ghost use Rattle.words.specs.declared.token.WordFault.TheVariants.{Memory};

use machine::order::Gate;
use std::alloc::AllocFailed;

// The marks, and the reserved words that are no gate.
#[derive(Clone, Copy)]
pub enum Kind {
    Open,
    Close,
    LeftBrace,
    RightBrace,
    Comma,
    Equals,
    Colon,
    Op,
    Run,
    Let,
    Mut,
    Set,
    Using,
    In,
    If,
    Then,
    Else,
    Meas,
    Unit,
    Bit,
    Int,
    Qbit,
    Zero,
    One,
}

// Not derived: an edit that must be refused turns this comparison, and a derive has no text.
impl PartialEq for Kind {
    ghost eq = { on kind_number nat_eq };

    ghost laws = { partial_equiv_from_equiv (on_equiv kind_number nat_eq_equiv) };

    fn eq(&self, other: &Kind) -> bool
        ensures by_number { result ≡ on kind_number nat_eq self.now other.now }
        ensures decides { Decides result (self.now ≡ other.now) }
    {
        *self as u8 == *other as u8
    }
}

impl Eq for Kind {
    ghost laws = { on_equiv kind_number nat_eq_equiv };
}

// Text and place in each case: one match takes a word apart.
#[derive(Clone, Copy)]
pub enum Word<'a> {
    Name {
        text: &'a [u8],
        place: usize,
    },
    Number {
        text: &'a [u8],
        place: usize,
        value: u32,
    },
    Gate {
        text: &'a [u8],
        place: usize,
        gate: Gate,
    },
    Fixed {
        text: &'a [u8],
        place: usize,
        kind: Kind,
    },
}

impl<'a> Word<'a> {
    // The bytes of the word.
    pub fn text(&self) -> &'a [u8]
        ensures { result.now ≡ (seen self.now).bytes }
    {
        match self {
            Word::Name { text, .. }
            | Word::Number { text, .. }
            | Word::Gate { text, .. }
            | Word::Fixed { text, .. } => text,
        }
    }

    // Where the word begins in the listing.
    pub fn place(&self) -> usize
        ensures { result ≡ (seen self.now).place }
    {
        match self {
            Word::Name { place, .. }
            | Word::Number { place, .. }
            | Word::Gate { place, .. }
            | Word::Fixed { place, .. } => *place,
        }
    }
}

// Memory is a case of the layer's fault: it has no number and no place.
#[derive(Clone, Copy)]
pub enum WordFault {
    Bad { place: usize },
    Memory,
}

impl<T: Drop> From<AllocFailed<T>> for WordFault {
    ghost from_gives = { λ _ r. r ≡ Memory };

    fn from(_e: AllocFailed<T>) -> WordFault {
        WordFault::Memory
    }
}
