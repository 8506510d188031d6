// Laws of the words of a listing: each function's promise is the law.
ghost use Rattle.words.specs.Kinds.{NumbersDecide};
ghost use Rattle.words.specs.Laws.{AcceptedExactly, RefusedExactly, PlacesRise, WordsAreParts, NoMoreWordsThanBytes, BadWordsAreWithin, WordsAreSpelled};

// A listing is accepted with the words xs exactly where it is these words in order, each good, whole and after blanks or none, and blanks or none at its end.
#[tactic(auto, using(crate::proofs::Weaving::accepted_exactly_lem))]
pub fn accepted_exactly()
    ensures { AcceptedExactly }
{}

// It is refused at a place exactly where good words, each whole and after blanks or none, lead to a bad word there.
pub fn refused_exactly()
    ensures { RefusedExactly }
{}

// Each word begins at the end of the one before it or past it, and no word is empty.
#[tactic(auto, using(crate::proofs::Weaving::places_rise_lem))]
pub fn places_rise()
    ensures { PlacesRise }
{}

// The text of each word is the part of the listing at its place, and ends within the listing.
#[tactic(auto, using(crate::proofs::Weaving::words_are_parts))]
pub fn words_are_parts()
    ensures { WordsAreParts }
{}

#[tactic(auto, using(crate::proofs::Weaving::no_more_words_than_bytes_lem))]
pub fn no_more_words_than_bytes()
    ensures { NoMoreWordsThanBytes }
{}

// The place of a bad word is a place of the listing.
#[tactic(auto, using(crate::proofs::Weaving::bad_words_are_within_lem))]
pub fn bad_words_are_within()
    ensures { BadWordsAreWithin }
{}

// Names, numbers, gates and the others are spelled as they should be, and no name is reserved.
#[tactic(auto, using(crate::proofs::Spelled::words_are_spelled_lem))]
pub fn words_are_spelled()
    ensures { WordsAreSpelled }
{}

// A comparison of the numbers of two kinds says whether they are the same.
pub fn numbers_decide()
    ensures { NumbersDecide }
{}
