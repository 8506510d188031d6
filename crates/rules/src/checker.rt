// The checker of the rules: one walk over the syntax tree in the order of the listing's words.
ghost use Rattle.rules.specs.declared.checker.Binding.{Binding};

use crate::fault::RuleFault;
use crate::search::{Named, find, text_of};
use crate::types::{Types, within};
use grammar::tree::{Name, Range, Tree};
use programs::program::Program;
use programs::types::Typed;
use std::alloc::{AllocError, Global};

mod listing;
mod names;
mod terms;

// A name in scope: the node that is its entry, and whether it is spent, a mark that the walk sets and takes back.
#[derive(Clone, Copy)]
pub struct Binding {
    name: Name,
    entry: usize,
    spent: bool,
}

// As the impls of the search.
impl Named for Binding {
    ghost starts = { λ b. b.name.place };

    ghost spans = { λ b. b.name.span };

    fn place(&self) -> usize {
        self.name.place
    }

    fn span(&self) -> usize {
        self.name.span
    }
}

// The memory of a walk over a listing, apart from the walk: it is asked for before the tree is read.
#[derive(Drop)]
pub struct Checker {
    program: Program,
    scope: Vec<Binding>,
    trail: Vec<usize>,
}

impl Checker {
    // Room for a tree of up to `size` nodes.
    pub fn room(heap: Global, size: usize) -> Result<Checker, AllocError> {
        Ok(Checker {
            program: Program::room(heap, size)?,
            scope: Vec::with_capacity(heap, size)?,
            trail: Vec::with_capacity(heap, size)?,
        })
    }
}

// A walk over a listing and its syntax tree.
#[derive(Drop)]
struct Walk<'a> {
    text: &'a [u8],
    tree: &'a Tree,
    // a node for each node of the tree, with its type once it was checked
    program: Program,
    // the names in scope, the innermost last
    scope: Vec<Binding>,
    // the places in the scope of the names that were spent, in order
    trail: Vec<usize>,
    // names below this place in the scope stand outside a mut or set right side
    floor: usize,
    // how many operations stand above the one that is checked
    above: usize,
}

impl<'a> Walk<'a> {
    fn types(&self) -> Types<'_> {
        Types {
            program: &self.program,
            parts: self.tree.parts(),
        }
    }

    fn type_at(&self, at: usize) -> Typed {
        self.program.typed(at)
    }

    // The nodes of the parts in a range, in reverse order.
    fn parts_of(&self, range: Range) -> &'a [usize] {
        within(self.tree.parts(), range)
    }

    // The place of the first word of a node.
    fn place(&self, at: usize) -> usize {
        self.tree.node(at).place
    }

    // The first of the entries with this name.
    fn find<E: Named>(&self, entries: &[E], name: Name) -> Option<usize> {
        find(entries, self.text, text_of(self.text, name))
    }
}

// The program after a walk over a listing that follows the rules. A function of its own, since text and tree need one lifetime.
fn walked<'a>(text: &'a [u8], tree: &'a Tree, checker: Checker) -> Result<Program, RuleFault> {
    let Checker {
        program,
        scope,
        trail,
    } = checker;
    let mut walk = Walk {
        text,
        tree,
        program,
        scope,
        trail,
        floor: 0,
        above: 0,
    };
    walk.listing()?;
    Ok(walk.program)
}

// The program of a listing that follows the rules.
pub fn check(text: &[u8], tree: Tree, checker: Checker) -> Result<Program, RuleFault> {
    let mut program = walked(text, &tree, checker)?;
    program.name_run(tree.run_term(), tree.run_place());
    program.set_parts(tree.into_parts());
    Ok(program)
}
