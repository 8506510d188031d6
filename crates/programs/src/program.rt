// A checked listing as a run executes it: an arena of nodes, the parts of a construct before it, names resolved to entries.
ghost use Rattle.std.specs.Prelude.{◌≡◌, true, length, get_or, IfOk, slice_index, slice_index_or};
ghost use Rattle.programs.specs.Programs.{nodes_of, parts_of, roots_of, no_node, no_root, Fresh, Reserved, NodeAdded, NodePut, PartAdded, PartsSet, RootAdded, NamedRun};
ghost use Rattle.programs.specs.Nodes.{Falls};

use crate::table::add;
use crate::types::{Typed, UNIT};
use grammar::tree::{Binder, Range};
use machine::order::Gate;
use std::alloc::{AllocError, Global};

// A leaf of a value.
#[derive(Clone, Copy)]
pub enum Leaf {
    Unit,
    Bit(bool),
    Int(u32),
    Handle(u8),
}

// What is done once the parts are values: the tree's forms, with an operation's number in place of its name.
#[derive(Clone, Copy)]
pub enum Act {
    Tuple,
    Meas,
    Gate(Gate),
    Call(usize),
}

// The tree's constructs resolved. An enum of its own: of the six cases that both have, just three have the same fields.
#[derive(Clone, Copy)]
pub enum Node {
    // no term: a type, or the entry of a name that is bound by the construct after it, and whether the name may be set
    // (a flag, and no case of its own: need and runs take both alike)
    Place(bool),
    // a name that a set alters: its entry
    Target(usize),
    Constant(Leaf),
    // a name: its entry
    Use(usize),
    // the parts are a range of the table of parts, in reverse order
    Built {
        act: Act,
        parts: Range,
    },
    // the names are a range of nodes
    Bind {
        binder: Binder,
        names: Range,
        right: usize,
        body: usize,
    },
    Using {
        names: Range,
        body: usize,
    },
    If {
        condition: usize,
        yes: usize,
        other: usize,
    },
}

// A node with the place of its first word, as in the tree, and its type.
#[derive(Clone, Copy)]
pub struct Placed {
    pub place: usize,
    pub node: Node,
    pub typed: Typed,
}

// An operation: the node of its body, and the entries of its parameters.
#[derive(Clone, Copy)]
pub struct Root {
    pub body: usize,
    pub names: Range,
}

// What a look past the end gives.
const NO_NODE: Placed = Placed {
    place: 0,
    node: Node::Place(false),
    typed: UNIT,
};

const NO_ROOT: Root = Root {
    body: 0,
    names: Range { first: 0, end: 0 },
};

// By number, as the tree: a run's state and its costs are tables with an entry for each node.
#[derive(Drop)]
pub struct Program {
    nodes: Vec<Placed>,
    parts: Vec<usize>,
    roots: Vec<Root>,
    // the node of the term to run, and the place of the word run; no struct, since each look wants one of the two
    run: usize,
    run_place: usize,
}

impl Program {
    // An empty program with room for so many nodes, parts and operations; its term to run is node 0 until it is named, since the room is made before the listing is read.
    pub fn room(heap: Global, size: usize) -> Result<Program, AllocError>
        ensures { IfOk result (λ p. Fresh size p) }
    {
        Ok(Program {
            nodes: Vec::with_capacity(heap, size)?,
            parts: Vec::with_capacity(heap, size)?,
            roots: Vec::with_capacity(heap, size)?,
            run: 0,
            run_place: 0,
        })
    }

    // How many nodes there are.
    pub fn size(&self) -> usize
        ensures { result ≡ length (nodes_of self.now) }
    {
        self.nodes.len()
    }

    // How many parts there are.
    pub fn part_count(&self) -> usize
        ensures { result ≡ length (parts_of self.now) }
    {
        self.parts.len()
    }

    // The node at `at`, or no term where there is none. No `Option`: who looks matches on the node, and no term is a case of it.
    pub fn node(&self, at: usize) -> Node
        ensures { result ≡ (get_or (nodes_of self.now) at no_node).node }
    {
        self.nodes
            .get(at)
            .map_or(NO_NODE.node, |placed| placed.node)
    }

    // The node at `at`, or no term where a term that it names by its node does not stand before it.
    // As the tree's node, over another enum.
    pub fn term(&self, at: usize) -> Node
        ensures falls { Falls at result }
        ensures found { Falls at (get_or (nodes_of self.now) at no_node).node → result ≡ (get_or (nodes_of self.now) at no_node).node }
        ensures none { (Falls at (get_or (nodes_of self.now) at no_node).node → ⊥) → result ≡ no_node.node }
    {
        let node = self.node(at);
        if falls(at, node) { node } else { NO_NODE.node }
    }

    // The type of the node at `at`, or unit where there is none. No `Option`, as for the looks below: each caller would have an arm that never runs.
    pub fn typed(&self, at: usize) -> Typed
        ensures { result ≡ (get_or (nodes_of self.now) at no_node).typed }
    {
        self.nodes
            .get(at)
            .map_or(NO_NODE.typed, |placed| placed.typed)
    }

    // The nodes.
    pub fn nodes(&self) -> &[Placed]
        ensures { result.now ≡ nodes_of self.now }
    {
        self.nodes.as_slice()
    }

    // The place of the first word of the node at `at`, or 0 where there is none.
    pub fn place(&self, at: usize) -> usize
        ensures { result ≡ (get_or (nodes_of self.now) at no_node).place }
    {
        self.nodes
            .get(at)
            .map_or(NO_NODE.place, |placed| placed.place)
    }

    // The entry of the table of parts at `at`, or node 0 where there is none.
    pub fn part(&self, at: usize) -> usize
        ensures { result ≡ slice_index (parts_of self.now) at }
    {
        self.parts.get(at).copied().unwrap_or(0)
    }

    // The operation with so many above it, or one of node 0 where there is none.
    pub fn root(&self, f: usize) -> Root
        ensures { result ≡ slice_index_or (roots_of self.now) f no_root }
    {
        self.roots.get(f).copied().unwrap_or(NO_ROOT)
    }

    // The node of the term to run.
    pub fn run_term(&self) -> usize
        ensures { result ≡ self.now.run }
    {
        self.run
    }

    // The place of the word run.
    pub fn run_place(&self) -> usize
        ensures { result ≡ self.now.run_place }
    {
        self.run_place
    }

    // Asks for room for so many more nodes and operations, where there is not as much.
    pub fn reserve(&mut self, nodes: usize, roots: usize) -> Result<(), AllocError>
        ensures { Reserved nodes roots self.old self.new result }
    {
        self.nodes.reserve(nodes)?;
        self.roots.reserve(roots)?;
        Ok(())
    }

    // Adds a node, and answers its number.
    pub fn add_node(&mut self, placed: Placed) -> Result<usize, AllocError>
        ensures { NodeAdded placed self.old self.new result }
    {
        add(&mut self.nodes, placed)
    }

    // The node at `at`, where there is one, becomes this and has this type.
    pub fn put(&mut self, at: usize, node: Node, typed: Typed)
        ensures { NodePut at node typed self.old self.new }
    {
        if at < self.nodes.len() {
            let place = self.nodes[at].place;
            self.nodes[at] = Placed { place, node, typed };
        }
    }

    // Adds an entry to the table of parts.
    pub fn add_part(&mut self, part: usize) -> Result<(), AllocError>
        ensures { PartAdded part self.old self.new result }
    {
        add(&mut self.parts, part)?;
        Ok(())
    }

    // The table of parts is this.
    pub fn set_parts(&mut self, parts: Vec<usize>)
        ensures { PartsSet parts self.old self.new }
    {
        self.parts = parts;
    }

    // Adds an operation.
    pub fn add_root(&mut self, root: Root) -> Result<(), AllocError>
        ensures { RootAdded root self.old self.new result }
    {
        add(&mut self.roots, root)?;
        Ok(())
    }

    // The term to run is that of the node `run`, after the word run at `run_place`.
    pub fn name_run(&mut self, run: usize, run_place: usize)
        ensures { NamedRun run run_place self.old self.new }
    {
        self.run = run;
        self.run_place = run_place;
    }
}

// Do the terms that a node names by their nodes stand before it? Asked at each look, and no invariant: a node may be added whatever it names.
fn falls(at: usize, node: Node) -> bool
    ensures falls { result ≡ true → Falls at node }
    ensures exact { Falls at node → result ≡ true }
{
    match node {
        Node::Bind { right, body, .. } => right < at && body < at,
        Node::Using { body, .. } => body < at,
        Node::If {
            condition,
            yes,
            other,
        } => condition < at && yes < at && other < at,
        _ => true,
    }
}

#[cfg(test)]
mod tests {
    use super::{NO_NODE, NO_ROOT, Program};
    use std::test::Fail;

    // A program made without room takes a node and an operation once room was asked for.
    #[test]
    fn reserves_room(rt: HostRuntime) -> Result<(), Fail> {
        let mut program = Program::room(rt.alloc(), 0)?;
        program.reserve(1, 1)?;
        assert_eq!(rt; program.add_node(NO_NODE)?, 0);
        program.add_root(NO_ROOT)?;
        assert_eq!(rt; program.size(), 1);
        Ok(())
    }
}
