// How the marks, the reserved words and the gates are spelled.
ghost use Rattle.std.specs.Prelude.{◌≡◌, map};
ghost use Rattle.words.specs.Spellings.{kinds, gates, lookup};

use crate::token::Kind;
use machine::order::Gate;

const KINDS: [(&[u8], Kind); 24] = [
    (b"(", Kind::Open),
    (b")", Kind::Close),
    (b"{", Kind::LeftBrace),
    (b"}", Kind::RightBrace),
    (b",", Kind::Comma),
    (b"=", Kind::Equals),
    (b":", Kind::Colon),
    (b"op", Kind::Op),
    (b"run", Kind::Run),
    (b"let", Kind::Let),
    (b"mut", Kind::Mut),
    (b"set", Kind::Set),
    (b"using", Kind::Using),
    (b"in", Kind::In),
    (b"if", Kind::If),
    (b"then", Kind::Then),
    (b"else", Kind::Else),
    (b"meas", Kind::Meas),
    (b"unit", Kind::Unit),
    (b"bit", Kind::Bit),
    (b"int", Kind::Int),
    (b"qbit", Kind::Qbit),
    (b"zero", Kind::Zero),
    (b"one", Kind::One),
];

const GATES: [(&[u8], Gate); 8] = [
    (b"X", Gate::X),
    (b"Y", Gate::Y),
    (b"Z", Gate::Z),
    (b"H", Gate::H),
    (b"S", Gate::S),
    (b"CNOT", Gate::Cnot),
    (b"CZ", Gate::Cz),
    (b"SWAP", Gate::Swap),
];

// What the table says of the bytes `text`.
fn find<T: Copy>(table: &[(&[u8], T)], text: &[u8]) -> Option<T>
    ensures { result ≡ lookup text.now (map (λ row. (row.0.now, row.1)) table.now) }
{
    table.iter().find(|row| row.0 == text).map(|row| row.1)
}

#[tactic(auto, unfolding(crate::specs::Spellings::kinds))]
pub(crate) fn kind(text: &[u8]) -> Option<Kind>
    ensures { result ≡ lookup text.now kinds }
{
    find(&KINDS, text)
}

#[tactic(auto, unfolding(crate::specs::Spellings::gates))]
pub(crate) fn gate(text: &[u8]) -> Option<Gate>
    ensures { result ≡ lookup text.now gates }
{
    find(&GATES, text)
}
