// Recursive descent from the words of a listing to its syntax tree.
ghost use Rattle.std.specs.Prelude.{◌≡◌, ◌+◌, ◌<◌, ◌≤◌, true, length, drop};
ghost use Rattle.grammar.specs.declared.parse.Stop.TheVariants.{Memory};
ghost use Rattle.grammar.specs.Parsing as parsing;

use crate::tree::{
    Basic, Binder, Constant, Construct, Form, Name, Node, Operation, Parameter, Range, Tree,
};
use machine::order::Gate;
use std::alloc::AllocFailed;
use words::token::{Kind, Word};

#[derive(Clone, Copy)]
pub enum GrammarFault {
    Stuck { place: usize },
    // a case of the layer's fault, since it has no number and no place
    Memory,
}

// Why the descent stopped: at a word that does not fit, or for want of memory.
// By word and not by place: what the readers ensure is said of words.
#[derive(Clone, Copy)]
enum Stop {
    At(usize),
    Memory,
}

impl<T: Drop> From<AllocFailed<T>> for Stop {
    ghost from_gives = { λ _ r. r ≡ Memory };

    fn from(_e: AllocFailed<T>) -> Stop {
        Stop::Memory
    }
}

impl Stop {
    // What it is in a listing of `length` bytes.
    fn fault(self, words: &[Word<'_>], length: usize) -> GrammarFault
        ensures { result ≡ parsing.fault_of words.now length self }
    {
        match self {
            Stop::At(at) => {
                let place = place_at(words, at, length);
                GrammarFault::Stuck { place }
            }
            Stop::Memory => GrammarFault::Memory,
        }
    }
}

// The place of the word at `at`, or the length of the listing where there is none: the place of a listing that ends too early.
fn place_at(words: &[Word<'_>], at: usize, length: usize) -> usize
    ensures { result ≡ parsing.place_or length (drop at words.now) }
{
    words.get(at).map_or(length, Word::place)
}

// What an operation declares of its parameters: their entries, and the nodes of their names.
#[derive(Clone, Copy)]
struct Signature {
    parameters: Range,
    names: Range,
}

// The words, and the place of the current one: the next to read. It never passes their end.
// As the reader of bytes, over words.
#[derive(Drop)]
struct Cursor<'a, 'b> {
    words: &'a [Word<'b>],
    at: usize,
    ghost within: { at ≤ length words.now },
}

impl<'a, 'b> Cursor<'a, 'b> {
    ghost use Rattle.syntax.specs.Machine.{heads};
    ghost use Rattle.grammar.specs.Reading as reading;

    fn new(words: &'a [Word<'b>]) -> Cursor<'a, 'b>
        ensures words { result.words.now ≡ words.now }
        ensures at { result.at ≡ 0 }
    {
        Cursor { words, at: 0 }
    }

    // The current word, if there is one.
    fn word(&self) -> Option<Word<'b>>
        ensures { result ≡ parsing.first (reading.rest self.now) }
    {
        self.words.get(self.at).copied()
    }

    // Is the current word of that kind?
    fn holds(&self, kind: Kind) -> bool
        ensures { result ≡ heads kind (reading.rest self.now) }
    {
        matches!(self.word(), Some(Word::Fixed { kind: found, .. }) if found == kind)
    }

    // Passes the current word.
    fn advance(&mut self)
        requires within { self.old.at < length self.old.words.now }
        ensures { reading.Passed self.old self.new }
    {
        self.at += 1;
    }

    // Passes a word of that kind.
    fn expect(&mut self, kind: Kind) -> Result<(), Stop>
        ensures { reading.Expected kind self.old self.new result }
    {
        if !self.holds(kind) {
            return Err(Stop::At(self.at));
        }
        self.advance();
        Ok(())
    }

    // Passes a name.
    fn expect_name(&mut self) -> Result<Name, Stop>
        ensures { reading.NameFound self.old self.new result }
    {
        let Some(Word::Name { text, place }) = self.word() else {
            return Err(Stop::At(self.at));
        };
        let found = Name {
            place,
            span: text.len(),
        };
        self.advance();
        Ok(found)
    }
}

// What reads the words into the tree.
#[derive(Drop)]
struct Parser<'a, 'b, 't> {
    cursor: Cursor<'a, 'b>,
    tree: &'t mut Tree,
}

impl<'b> Parser<'_, 'b, '_> {
    ghost use Rattle.words.specs.declared.token.Kind.TheVariants.{Using, If, Meas, Open, Op};
    ghost use Rattle.syntax.specs.Machine.{heads};
    ghost use Rattle.grammar.specs.Reading as reading;

    // The current word, if there is one.
    // From a method that takes &mut self, a look by the cursor's own method gets no proof.
    fn word(&self) -> Option<Word<'b>>
        ensures { result ≡ parsing.first (reading.rest self.now.cursor) }
    {
        self.cursor.word()
    }

    // Is the current word of that kind?
    fn holds(&self, kind: Kind) -> bool
        ensures { result ≡ heads kind (reading.rest self.now.cursor) }
    {
        self.cursor.holds(kind)
    }

    // The kind of the current word, if it is a mark or a reserved word.
    fn kind(&self) -> Option<Kind>
        ensures { result ≡ parsing.kind_of (reading.rest self.now.cursor) }
    {
        match self.cursor.word() {
            Some(Word::Fixed { kind, .. }) => Some(kind),
            _ => None,
        }
    }

    // The place of the current word.
    // 0 at the end, which no node gets: a caller that begins at no word stops there.
    fn place(&self) -> usize
        ensures { result ≡ parsing.place_or 0 (reading.rest self.now.cursor) }
    {
        place_at(self.cursor.words, self.cursor.at, 0)
    }

    // The node of a name.
    fn name(&mut self) -> Result<(), Stop>
        ensures { reading.Parses reading.NameRead self.old self.new result }
    {
        let found = self.cursor.expect_name()?;
        self.tree.add_node(found.place, Construct::Named(found))?;
        Ok(())
    }

    // {, name} )
    // More names, terms, types and parameters are read alike; what they ensure differs, and each is a rule of the grammar, so they are no one generic function.
    // A recursion and no loop, as more_parameters and listing: each ensures a rule of the grammar, which is a recursion.
    fn more_names(&mut self) -> Result<(), Stop>
        ensures { reading.Parses reading.MoreNamesRead self.old self.new result }
    {
        if !self.holds(Kind::Comma) {
            return self.cursor.expect(Kind::Close);
        }
        self.cursor.advance();
        self.name()?;
        self.more_names()
    }

    // name, or ( name , name {, name} )
    fn pattern(&mut self) -> Result<Range, Stop>
        ensures { reading.Parses reading.PatternIsRead self.old self.new result }
    {
        let first = self.tree.nodes.len();
        if !self.holds(Kind::Open) {
            self.name()?;
            return Ok(Range {
                first,
                end: self.tree.nodes.len(),
            });
        }
        self.cursor.advance();
        self.name()?;
        self.cursor.expect(Kind::Comma)?;
        self.name()?;
        self.more_names()?;
        Ok(Range {
            first,
            end: self.tree.nodes.len(),
        })
    }

    #[cycle(term_readers)]
    fn term(&mut self) -> Result<usize, Stop>
        ensures { reading.Parses reading.TermRead self.old self.new result }
    {
        if let Some(kind) = self.kind() {
            match kind {
                Kind::Let => return self.bind_term(Binder::Let),
                Kind::Mut => return self.bind_term(Binder::Mut),
                Kind::Set => return self.bind_term(Binder::Set),
                Kind::Using => return self.using_term(),
                Kind::If => return self.if_term(),
                _ => {}
            }
        }
        self.plain_term()
    }

    // (let | mut | set) pattern = term in term
    #[cycle(term_readers)]
    fn bind_term(&mut self, binder: Binder) -> Result<usize, Stop>
        requires begins { heads (reading.keyword binder) (reading.rest self.old.cursor) ≡ true }
        ensures { reading.Parses reading.TermRead self.old self.new result }
    {
        let place = self.place();
        self.cursor.advance();
        let names = self.pattern()?;
        self.cursor.expect(Kind::Equals)?;
        let right = self.term()?;
        self.cursor.expect(Kind::In)?;
        let body = self.term()?;
        self.tree.add_node(
            place,
            Construct::Bind {
                binder,
                names,
                right,
                body,
            },
        )
    }

    // using pattern in term
    #[cycle(term_readers)]
    fn using_term(&mut self) -> Result<usize, Stop>
        requires begins { heads Using (reading.rest self.old.cursor) ≡ true }
        ensures { reading.Parses reading.TermRead self.old self.new result }
    {
        let place = self.place();
        self.cursor.advance();
        let names = self.pattern()?;
        self.cursor.expect(Kind::In)?;
        let body = self.term()?;
        self.tree.add_node(place, Construct::Using { names, body })
    }

    // if term then term else term
    #[cycle(term_readers)]
    fn if_term(&mut self) -> Result<usize, Stop>
        requires begins { heads If (reading.rest self.old.cursor) ≡ true }
        ensures { reading.Parses reading.TermRead self.old self.new result }
    {
        let place = self.place();
        self.cursor.advance();
        let condition = self.term()?;
        self.cursor.expect(Kind::Then)?;
        let yes = self.term()?;
        self.cursor.expect(Kind::Else)?;
        let other = self.term()?;
        self.tree.add_node(
            place,
            Construct::If {
                condition,
                yes,
                other,
            },
        )
    }

    #[cycle(term_readers)]
    fn plain_term(&mut self) -> Result<usize, Stop>
        ensures { reading.Parses reading.PlainRead self.old self.new result }
    {
        let Some(word) = self.word() else {
            return Err(Stop::At(self.cursor.at));
        };
        match word {
            Word::Name { text, place } => self.name_or_call(Name {
                place,
                span: text.len(),
            }),
            Word::Number { place, value, .. } => self.constant(place, Constant::Number(value)),
            Word::Gate { place, gate, .. } => self.gate_term(place, gate),
            Word::Fixed { place, kind, .. } => match kind {
                Kind::Zero => self.constant(place, Constant::Zero),
                Kind::One => self.constant(place, Constant::One),
                Kind::Meas => self.meas_term(),
                Kind::Open => self.parenthesis(),
                _ => Err(Stop::At(self.cursor.at)),
            },
        }
    }

    // The node of a constant that is the current word.
    fn constant(&mut self, place: usize, constant: Constant) -> Result<usize, Stop>
        requires begins { reading.ConstantHere self.old.cursor place constant }
        ensures { reading.Parses reading.PlainRead self.old self.new result }
    {
        self.cursor.advance();
        self.tree.add_node(place, Construct::Constant(constant))
    }

    // name, or name ( arguments )
    #[cycle(term_readers)]
    fn name_or_call(&mut self, found: Name) -> Result<usize, Stop>
        requires begins { reading.NameHere self.old.cursor found }
        ensures { reading.Parses reading.PlainRead self.old self.new result }
    {
        self.cursor.advance();
        if !self.holds(Kind::Open) {
            return self.tree.add_node(found.place, Construct::Use(found));
        }
        self.cursor.advance();
        if self.holds(Kind::Close) {
            self.cursor.advance();
            let first = self.tree.parts.len();
            return self.tree.add_built(found.place, Form::Call(found), first);
        }
        let first = self.terms()?;
        self.tree.add_built(found.place, Form::Call(found), first)
    }

    // gate ( term {, term} )
    #[cycle(term_readers)]
    fn gate_term(&mut self, place: usize, gate: Gate) -> Result<usize, Stop>
        requires begins { reading.GateHere self.old.cursor place gate }
        ensures { reading.Parses reading.PlainRead self.old self.new result }
    {
        self.cursor.advance();
        self.cursor.expect(Kind::Open)?;
        let first = self.terms()?;
        self.tree.add_built(place, Form::Gate(gate), first)
    }

    // meas ( term )
    #[cycle(term_readers)]
    fn meas_term(&mut self) -> Result<usize, Stop>
        requires begins { heads Meas (reading.rest self.old.cursor) ≡ true }
        ensures { reading.Parses reading.PlainRead self.old self.new result }
    {
        let place = self.place();
        self.cursor.advance();
        self.cursor.expect(Kind::Open)?;
        let part = self.term()?;
        self.cursor.expect(Kind::Close)?;
        let first = self.tree.parts.len();
        self.tree.add_part(part)?;
        self.tree.add_built(place, Form::Meas, first)
    }

    // ( ), ( term ), or ( term , term {, term} )
    #[cycle(term_readers)]
    fn parenthesis(&mut self) -> Result<usize, Stop>
        requires begins { heads Open (reading.rest self.old.cursor) ≡ true }
        ensures { reading.Parses reading.PlainRead self.old self.new result }
    {
        let place = self.place();
        self.cursor.advance();
        if self.holds(Kind::Close) {
            self.cursor.advance();
            return self
                .tree
                .add_node(place, Construct::Constant(Constant::Unit));
        }
        let inner = self.term()?;
        if !self.holds(Kind::Comma) {
            self.cursor.expect(Kind::Close)?;
            return Ok(inner);
        }
        self.cursor.advance();
        let first = self.terms()?;
        self.tree.add_part(inner)?;
        self.tree.add_built(place, Form::Tuple, first)
    }

    // term {, term} ): where their nodes begin in the table of parts, of which they are the end
    #[cycle(term_readers)]
    fn terms(&mut self) -> Result<usize, Stop>
        ensures { reading.Parses reading.TermsRead self.old self.new result }
    {
        let part = self.term()?;
        let first = self.more_terms()?;
        self.tree.add_part(part)?;
        Ok(first)
    }

    // {, term} )
    #[cycle(term_readers)]
    fn more_terms(&mut self) -> Result<usize, Stop>
        ensures { reading.Parses reading.MoreRead self.old self.new result }
    {
        if self.holds(Kind::Comma) {
            self.cursor.advance();
            return self.terms();
        }
        self.cursor.expect(Kind::Close)?;
        Ok(self.tree.parts.len())
    }

    // unit, bit, int or qbit
    fn basic(&self) -> Option<Basic>
        ensures { reading.BasicFound self.now.cursor result }
    {
        match self.kind()? {
            Kind::Unit => Some(Basic::Unit),
            Kind::Bit => Some(Basic::Bit),
            Kind::Int => Some(Basic::Int),
            Kind::Qbit => Some(Basic::Qbit),
            _ => None,
        }
    }

    // unit, bit, int, qbit, or ( type , type {, type} )
    #[cycle(type_readers)]
    fn written_type(&mut self) -> Result<usize, Stop>
        ensures { reading.Parses reading.TypeRead self.old self.new result }
    {
        let place = self.place();
        if let Some(basic) = self.basic() {
            self.cursor.advance();
            return self.tree.add_node(place, Construct::BasicType(basic));
        }
        self.cursor.expect(Kind::Open)?;
        let part = self.written_type()?;
        self.cursor.expect(Kind::Comma)?;
        let first = self.written_types()?;
        self.tree.add_part(part)?;
        let end = self.tree.parts.len();
        self.tree
            .add_node(place, Construct::TupleType(Range { first, end }))
    }

    // type {, type} )
    #[cycle(type_readers)]
    fn written_types(&mut self) -> Result<usize, Stop>
        ensures { reading.Parses reading.TypesRead self.old self.new result }
    {
        let part = self.written_type()?;
        let first = self.more_types()?;
        self.tree.add_part(part)?;
        Ok(first)
    }

    // {, type} )
    #[cycle(type_readers)]
    fn more_types(&mut self) -> Result<usize, Stop>
        ensures { reading.Parses reading.MoreTypesRead self.old self.new result }
    {
        if self.holds(Kind::Comma) {
            self.cursor.advance();
            return self.written_types();
        }
        self.cursor.expect(Kind::Close)?;
        Ok(self.tree.parts.len())
    }

    // name : type
    fn parameter(&mut self) -> Result<(), Stop>
        ensures { reading.Parses reading.ParameterRead self.old self.new result }
    {
        let found = self.cursor.expect_name()?;
        self.cursor.expect(Kind::Colon)?;
        let written = self.written_type()?;
        self.tree.add_parameter(found, written)
    }

    // {, name : type} )
    fn more_parameters(&mut self) -> Result<(), Stop>
        ensures { reading.Parses reading.MoreParametersRead self.old self.new result }
    {
        if !self.holds(Kind::Comma) {
            return self.cursor.expect(Kind::Close);
        }
        self.cursor.advance();
        self.parameter()?;
        self.more_parameters()
    }

    // None, or name : type {, name : type}, and the closing parenthesis.
    fn parameters(&mut self) -> Result<(), Stop>
        ensures { reading.Parses reading.ParametersAreRead self.old self.new result }
    {
        if self.holds(Kind::Close) {
            self.cursor.advance();
            return Ok(());
        }
        self.parameter()?;
        self.more_parameters()
    }

    // The parameters of an operation with the nodes of their names, and the closing parenthesis.
    fn signature(&mut self) -> Result<Signature, Stop>
        ensures { reading.Parses reading.SignatureRead self.old self.new result }
    {
        let first = self.tree.parameters.len();
        self.parameters()?;
        let end = self.tree.parameters.len();
        let start = self.tree.nodes.len();
        self.tree.name_parameters(first)?;
        let last = self.tree.nodes.len();
        Ok(Signature {
            parameters: Range { first, end },
            names: Range {
                first: start,
                end: last,
            },
        })
    }

    // op name ( parameters ) : type { term }
    fn operation(&mut self) -> Result<(), Stop>
        requires begins { heads Op (reading.rest self.old.cursor) ≡ true }
        ensures { reading.Parses reading.OperationRead self.old self.new result }
    {
        let place = self.place();
        self.cursor.advance();
        let name = self.cursor.expect_name()?;
        self.cursor.expect(Kind::Open)?;
        let signature = self.signature()?;
        self.cursor.expect(Kind::Colon)?;
        let result = self.written_type()?;
        self.cursor.expect(Kind::LeftBrace)?;
        let body = self.term()?;
        self.cursor.expect(Kind::RightBrace)?;
        self.tree.add_operation(Operation {
            place,
            name,
            parameters: signature.parameters,
            names: signature.names,
            result,
            body,
        })
    }

    // {operation} run term
    fn listing(&mut self) -> Result<(), Stop>
        ensures { reading.Parses reading.ListingRead self.old self.new result }
    {
        if self.holds(Kind::Op) {
            self.operation()?;
            return self.listing();
        }
        let place = self.place();
        self.cursor.expect(Kind::Run)?;
        let term = self.term()?;
        self.tree.run = place;
        self.tree.term = term;
        Ok(())
    }
}

impl Tree {
    ghost use Rattle.grammar.specs.Arena.{node};
    ghost use Rattle.grammar.specs.Reading as reading;

    // Adds a node, and answers where it stands.
    // Place and construct apart: each caller would write out the node.
    fn add_node(&mut self, place: usize, construct: Construct) -> Result<usize, Stop>
        ensures { reading.Added (node place construct) self.old self.new result }
    {
        let at = self.nodes.len();
        self.nodes.push(Node { place, construct })?;
        Ok(at)
    }

    // Adds a part.
    fn add_part(&mut self, part: usize) -> Result<(), Stop>
        ensures { reading.PartAdded part self.old self.new result }
    {
        self.parts.push(part)?;
        Ok(())
    }

    // Adds the node of a construct whose parts stand from `first` to the end of the table of parts.
    fn add_built(&mut self, place: usize, form: Form, first: usize) -> Result<usize, Stop>
        ensures { reading.BuiltOf place form first self.old self.new result }
    {
        let end = self.parts.len();
        let parts = Range { first, end };
        self.add_node(place, Construct::Built { form, parts })
    }

    // Adds an entry to the table of parameters.
    fn add_parameter(&mut self, name: Name, written: usize) -> Result<(), Stop>
        ensures { reading.ParameterAdded name written self.old self.new result }
    {
        self.parameters.push(Parameter { name, written })?;
        Ok(())
    }

    // Adds the nodes of the names of the parameters from `first` on.
    fn name_parameters(&mut self, first: usize) -> Result<(), Stop>
        requires within { first ≤ length (parsing.parameters_of self.old) }
        ensures { reading.ParametersNamed first self.old self.new result }
    {
        for parameter in &self.parameters.as_slice()[first..] {
            self.nodes.push(Node {
                place: parameter.name.place,
                construct: Construct::Named(parameter.name),
            })?;
        }
        Ok(())
    }

    // Adds an entry to the table of operations.
    fn add_operation(&mut self, entry: Operation) -> Result<(), Stop>
        ensures { reading.OperationAdded entry self.old self.new result }
    {
        self.operations.push(entry)?;
        Ok(())
    }
}

// Reads the words of a listing of `length` bytes into the tree.
pub fn parse(words: &[Word<'_>], length: usize, tree: &mut Tree) -> Result<(), GrammarFault>
    ensures { parsing.Parsed words.now length tree.old tree.new result }
{
    let cursor = Cursor::new(words);
    let mut parser = Parser { cursor, tree };
    // No map_err: the proof did not close, as its clauses gave no fact of the closure, also where that had a clause of its own.
    if let Err(stop) = parser.listing() {
        return Err(stop.fault(words, length));
    }
    if parser.cursor.at < words.len() {
        return Err(Stop::At(parser.cursor.at).fault(words, length));
    }
    Ok(())
}
