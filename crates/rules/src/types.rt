// Type equality over the table of nodes.
use grammar::tree::Range;
use programs::program::Program;
use programs::types::Shape;

// The most leaves of a type.
pub const LEAVES: usize = 8;

// The entries of a table in a range, or none where the range is not in the table. No `Option`: to each caller such a range has no entries.
pub(crate) fn within<T>(table: &[T], range: Range) -> &[T] {
    table.get(range.numbers()).unwrap_or(&[])
}

// The nodes of a program with their types, and the table of parts that their tuples name.
#[derive(Clone, Copy)]
pub(crate) struct Types<'a> {
    pub(crate) program: &'a Program,
    pub(crate) parts: &'a [usize],
}

impl Types<'_> {
    // Are two types equal, the first with at most `left` leaves? By hand: parts are compared by number, over two tables.
    #[cycle(type_equality)]
    fn equal(&self, a: usize, b: usize, left: usize) -> bool {
        match (self.program.typed(a).shape, self.program.typed(b).shape) {
            (Shape::Basic(this), Shape::Basic(that)) => this == that,
            (Shape::Tuple(these), Shape::Tuple(those)) => self.equal_parts(these, those, left),
            _ => false,
        }
    }

    // Are two tuples' parts equal at each place? Each part has fewer leaves than the tuple. A `for`, since a closure gets no proof in a cycle of calls.
    #[cycle(type_equality)]
    fn equal_parts(&self, these: Range, those: Range, left: usize) -> bool {
        let these = within(self.parts, these);
        let those = within(self.parts, those);
        if these.len() != those.len() {
            return false;
        }
        for (a, b) in these.iter().zip(those) {
            let leaves = self.program.typed(*a).leaves;
            if leaves >= left || !self.equal(*a, *b, leaves) {
                return false;
            }
        }
        true
    }

    // Are the types of two nodes equal?
    pub(crate) fn same(&self, a: usize, b: usize) -> bool {
        self.equal(a, b, self.program.typed(a).leaves)
    }
}

// Are the types of two nodes of a program equal?
pub fn same(program: &Program, parts: &[usize], a: usize, b: usize) -> bool {
    Types { program, parts }.same(a, b)
}
