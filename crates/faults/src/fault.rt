// Why a call is refused: the part that found it, its number and its place.
ghost use Rattle.std.specs.Prelude.{◌≡◌};
ghost use Rattle.faults.specs.Faults.{from_bench, from_word, from_grammar, from_rule, from_need, layer_word, diagnosis};
ghost use Rattle.faults.specs.declared.fault.Fault.TheVariants.{Memory, Machine};

use grammar::parse::GrammarFault;
use machine::order::Refusal;
use need::NeedFault;
use rules::fault::RuleFault;
use std::alloc::AllocError;
use words::token::WordFault;

#[derive(Clone, Copy)]
pub enum Layer {
    Machine,
    Word,
    Grammar,
    Rule,
    Need,
    Bench,
}

impl Layer {
    // Bytes and no Display, as the line that they stand in.
    pub fn word(&self) -> &'static [u8]
        ensures { result.now ≡ layer_word self.now }
    {
        match self {
            Self::Machine => b"machine",
            Self::Word => b"word",
            Self::Grammar => b"grammar",
            Self::Rule => b"rule",
            Self::Need => b"need",
            Self::Bench => b"bench",
        }
    }
}

// The bench's own refusals, by their numbers.
#[derive(Clone, Copy)]
pub enum BenchFault {
    // the bench is not empty
    Loaded = 1,
    // the listing has more than 2048 bytes
    TooLong = 2,
    // nothing is loaded
    Unloaded = 17,
    // the run has ended
    Ended = 18,
    // the run has not ended
    Running = 19,
    // the buffer does not suffice
    Short = 20,
}

#[derive(Clone, Copy)]
pub enum Fault {
    Bench(BenchFault),
    Word(WordFault),
    Grammar(GrammarFault),
    Rule(RuleFault),
    Need(NeedFault),
    Machine(Refusal),
    // want of memory: no refusal, and all is as before
    Memory,
}

// A refusal by its layer, number and place.
#[derive(Clone, Copy)]
pub struct Diagnosis {
    pub layer: Layer,
    // A number, since this is what is printed.
    pub number: u8,
    pub place: usize,
}

// By hand: four map their want of memory to the bench's, a derived From has no contract, and no macro of this repository may write an impl.
impl From<BenchFault> for Fault {
    ghost from_gives = { λ e r. r ≡ from_bench e };

    fn from(e: BenchFault) -> Self {
        Self::Bench(e)
    }
}

impl From<WordFault> for Fault {
    ghost from_gives = { λ e r. r ≡ from_word e };

    fn from(e: WordFault) -> Self {
        match e {
            WordFault::Memory => Self::Memory,
            _ => Self::Word(e),
        }
    }
}

impl From<GrammarFault> for Fault {
    ghost from_gives = { λ e r. r ≡ from_grammar e };

    fn from(e: GrammarFault) -> Self {
        match e {
            GrammarFault::Memory => Self::Memory,
            _ => Self::Grammar(e),
        }
    }
}

impl From<RuleFault> for Fault {
    ghost from_gives = { λ e r. r ≡ from_rule e };

    fn from(e: RuleFault) -> Self {
        match e {
            RuleFault::Memory => Self::Memory,
            _ => Self::Rule(e),
        }
    }
}

impl From<NeedFault> for Fault {
    ghost from_gives = { λ e r. r ≡ from_need e };

    fn from(e: NeedFault) -> Self {
        match e {
            NeedFault::Memory => Self::Memory,
            _ => Self::Need(e),
        }
    }
}

impl From<Refusal> for Fault {
    ghost from_gives = { λ e r. r ≡ Machine e };

    fn from(e: Refusal) -> Self {
        Self::Machine(e)
    }
}

impl From<AllocError> for Fault {
    ghost from_gives = { λ _ r. r ≡ Memory };

    fn from(_: AllocError) -> Self {
        Self::Memory
    }
}

impl Fault {
    // The refusal, or none for want of memory.
    pub fn diagnosis(&self) -> Option<Diagnosis>
        ensures { result ≡ diagnosis self.now }
    {
        // A case with a place has no number of its own, so the numbers stand here.
        // 0 where no place is named.
        let (layer, number, place) = match *self {
            Self::Bench(fault) => (Layer::Bench, fault as u8, 0),
            Self::Word(WordFault::Bad { place }) => (Layer::Word, 3, place),
            Self::Grammar(GrammarFault::Stuck { place }) => (Layer::Grammar, 4, place),
            Self::Rule(RuleFault::Leaves { place }) => (Layer::Rule, 5, place),
            Self::Rule(RuleFault::Taken { place }) => (Layer::Rule, 6, place),
            Self::Rule(RuleFault::Unknown { place }) => (Layer::Rule, 7, place),
            Self::Rule(RuleFault::Below { place }) => (Layer::Rule, 8, place),
            Self::Rule(RuleFault::Spent { place }) => (Layer::Rule, 9, place),
            Self::Rule(RuleFault::Outside { place }) => (Layer::Rule, 10, place),
            Self::Rule(RuleFault::Misfit { place }) => (Layer::Rule, 11, place),
            Self::Rule(RuleFault::Fixed { place }) => (Layer::Rule, 12, place),
            Self::Rule(RuleFault::Branches { place }) => (Layer::Rule, 13, place),
            Self::Rule(RuleFault::Unspent { place }) => (Layer::Rule, 14, place),
            Self::Need(NeedFault::Steps { place }) => (Layer::Need, 15, place),
            Self::Need(NeedFault::Peak { place }) => (Layer::Need, 16, place),
            Self::Machine(refusal) => (Layer::Machine, refusal.number(), 0),
            Self::Word(WordFault::Memory)
            | Self::Grammar(GrammarFault::Memory)
            | Self::Rule(RuleFault::Memory)
            | Self::Need(NeedFault::Memory)
            | Self::Memory => return None,
        };
        Some(Diagnosis {
            layer,
            number,
            place,
        })
    }
}
