// The syntax tree of a listing: an arena of nodes. The nodes of a construct's parts stand before its own.
ghost use Rattle.std.specs.Prelude.{◌≡◌, ◌-◌, ◌==◌, if◌then◌else◌, Some, None, true, length, IfOk};
ghost use Rattle.grammar.specs.Arena.{At};
ghost use Rattle.grammar.specs.Trees.{Falls};
ghost use Rattle.grammar.specs.Parsing as parsing;

use machine::order::Gate;
use std::alloc::{AllocError, Global};

// A name where it stands in the listing: by place and length, as the search asks for it.
#[derive(Clone, Copy)]
pub struct Name {
    pub place: usize,
    pub span: usize,
}

// The entries of a table from `first` to `end`, `end` left out. The ranges of the library are not `Copy`, as what holds this is.
#[derive(Clone, Copy)]
pub struct Range {
    pub first: usize,
    pub end: usize,
}

impl Range {
    // How many entries there are.
    pub fn len(&self) -> usize
        ensures { result ≡ self.now.end - self.now.first }
    {
        self.end.saturating_sub(self.first)
    }

    // The number of the one entry, where there is just one.
    pub fn single(&self) -> Option<usize>
        ensures { result ≡ (if self.now.end - self.now.first == 1 then Some self.now.first else None) }
    {
        (self.len() == 1).then_some(self.first)
    }

    // The numbers of the entries.
    pub fn numbers(&self) -> std::ops::Range<usize>
        ensures first { result.start ≡ self.now.first }
        ensures end { result.end ≡ self.now.end }
    {
        self.first..self.end
    }
}

#[derive(Clone, Copy)]
pub enum Constant {
    Unit,
    Zero,
    One,
    Number(u32),
}

#[derive(Clone, Copy, PartialEq, Eq)]
pub enum Basic {
    Unit,
    Bit,
    Int,
    Qbit,
}

// What is built of its parts.
#[derive(Clone, Copy)]
pub enum Form {
    Tuple,
    Meas,
    Gate(Gate),
    Call(Name),
}

#[derive(Clone, Copy)]
pub enum Binder {
    Let,
    Mut,
    Set,
}

// A type of its own beside a program's nodes: names here, entries there, and just three of the cases have the same fields in both.
#[derive(Clone, Copy)]
pub enum Construct {
    // no construct: what a look gives past the end, and where a construct would not stand after the nodes that it names
    // A case, and no Option: who asks for a construct matches on it at once.
    Missing,
    // a written type; its parts are a range of the table of parts
    BasicType(Basic),
    TupleType(Range),
    // a name of a pattern or a parameter; those of one construct stand side by side before it
    Named(Name),
    Constant(Constant),
    Use(Name),
    // the parts are a range of the table of parts, in reverse order
    Built {
        form: Form,
        parts: Range,
    },
    // the names are a range of nodes
    Bind {
        binder: Binder,
        names: Range,
        right: usize,
        body: usize,
    },
    Using {
        names: Range,
        body: usize,
    },
    If {
        condition: usize,
        yes: usize,
        other: usize,
    },
}

// A construct with the place of its first word.
#[derive(Clone, Copy)]
pub struct Node {
    pub place: usize,
    pub construct: Construct,
}

#[derive(Clone, Copy)]
pub struct Parameter {
    pub name: Name,
    pub written: usize,
}

// The parameters are a range of the table of parameters, their names a range of nodes.
// Two ranges: a call gives its arguments to entries, which are nodes.
#[derive(Clone, Copy)]
pub struct Operation {
    pub place: usize,
    pub name: Name,
    pub parameters: Range,
    pub names: Range,
    pub result: usize,
    pub body: usize,
}

// The node of the type qbit.
// In the table from the start: a gate on two gives a pair of it, also where the listing writes none.
pub const QBIT: usize = 0;

// The end of the range of parts that makes a pair of it, which begins at 0.
pub const PAIR_END: usize = 2;

// Nodes by their number, and not boxes: equality of types goes by recursion over a table with an entry for each node, and all memory of a load is asked for first.
#[derive(Drop)]
pub struct Tree {
    pub(crate) nodes: Vec<Node>,
    pub(crate) parts: Vec<usize>,
    pub(crate) parameters: Vec<Parameter>,
    pub(crate) operations: Vec<Operation>,
    // the place of the word run, and the node of the term to run; no struct, since each look wants one of the two
    pub(crate) run: usize,
    pub(crate) term: usize,
}

impl Tree {
    // A tree with the type qbit and its pair alone, and room for listings of up to `words` words.
    pub fn room(heap: Global, words: usize) -> Result<Tree, AllocError>
        ensures { IfOk result (λ t. parsing.Fresh t words) }
    {
        let room = words.saturating_add(2);
        let mut nodes = Vec::with_capacity(heap, room)?;
        let mut parts = Vec::with_capacity(heap, room)?;
        let parameters = Vec::with_capacity(heap, room)?;
        let operations = Vec::with_capacity(heap, room)?;
        nodes.push(Node {
            place: 0,
            construct: Construct::BasicType(Basic::Qbit),
        })?;
        parts.push(QBIT)?;
        parts.push(QBIT)?;
        Ok(Tree {
            nodes,
            parts,
            parameters,
            operations,
            // Place and node 0 until the listing is read: the room is made before.
            run: 0,
            term: 0,
        })
    }

    // How many nodes there are.
    pub fn size(&self) -> usize
        ensures { result ≡ length (parsing.nodes_of self.now) }
    {
        self.nodes.len()
    }

    // The node at `at`, or no construct where there is none.
    pub fn node(&self, at: usize) -> Node
        ensures falls { Falls at result.construct }
        ensures found { (n : Node) → At (parsing.nodes_of self.now) at n → Falls at n.construct → result ≡ n }
    {
        match self.nodes.get(at) {
            Some(node) if falls(at, node.construct) => *node,
            _ => Node {
                place: 0,
                construct: Construct::Missing,
            },
        }
    }

    // The nodes.
    pub fn nodes(&self) -> &[Node]
        ensures { result.now ≡ parsing.nodes_of self.now }
    {
        self.nodes.as_slice()
    }

    // The table of parts.
    pub fn parts(&self) -> &[usize]
        ensures { result.now ≡ parsing.parts_of self.now }
    {
        self.parts.as_slice()
    }

    // The parameters of all operations.
    pub fn parameters(&self) -> &[Parameter]
        ensures { result.now ≡ parsing.parameters_of self.now }
    {
        self.parameters.as_slice()
    }

    // The operations in the order of the listing.
    pub fn operations(&self) -> &[Operation]
        ensures { result.now ≡ parsing.operations_of self.now }
    {
        self.operations.as_slice()
    }

    // The place of the word run.
    pub fn run_place(&self) -> usize
        ensures { result ≡ self.now.run }
    {
        self.run
    }

    // The node of the term to run.
    pub fn run_term(&self) -> usize
        ensures { result ≡ self.now.term }
    {
        self.term
    }

    // The table of parts.
    pub fn into_parts(self) -> Vec<usize>
        ensures { result.items ≡ parsing.parts_of self }
    {
        self.parts
    }
}

// Do the parts that a construct names by their nodes stand before it?
// Asked at each look, and no invariant: the clauses of the parser say it of the nodes that a term is made of, not of every node of a tree.
fn falls(at: usize, construct: Construct) -> bool
    ensures falls { result ≡ true → Falls at construct }
    ensures exact { Falls at construct → result ≡ true }
{
    match construct {
        Construct::Bind { right, body, .. } => right < at && body < at,
        Construct::Using { body, .. } => body < at,
        Construct::If {
            condition,
            yes,
            other,
        } => condition < at && yes < at && other < at,
        _ => true,
    }
}
