// The types of the nodes.
ghost use Rattle.std.specs.Prelude.{◌≡◌};
ghost use Rattle.programs.specs.Types.{one_leaf, linear, is_basic, parts_in};
ghost use Rattle.grammar.specs.declared.tree.Basic.TheVariants.{Bit, Qbit};

use grammar::tree::{Basic, PAIR_END, Range};

// A tuple by a range, and not boxed: equality of types goes by the table. A tuple's parts are those entries of the table that its range of the table of parts names, in reverse order.
#[derive(Clone, Copy)]
pub enum Shape {
    Basic(Basic),
    Tuple(Range),
}

// A type with how many leaves it has, and how many of them are qbit.
#[derive(Clone, Copy)]
pub struct Typed {
    pub shape: Shape,
    pub leaves: usize,
    pub qbits: usize,
}

pub const UNIT: Typed = Typed {
    shape: Shape::Basic(Basic::Unit),
    leaves: 1,
    qbits: 0,
};

pub const BIT: Typed = Typed {
    shape: Shape::Basic(Basic::Bit),
    leaves: 1,
    qbits: 0,
};

pub const INT: Typed = Typed {
    shape: Shape::Basic(Basic::Int),
    leaves: 1,
    qbits: 0,
};

pub const QBIT: Typed = Typed {
    shape: Shape::Basic(Basic::Qbit),
    leaves: 1,
    qbits: 1,
};

// The pair of the type qbit.
pub const PAIR: Typed = Typed {
    shape: Shape::Tuple(Range {
        first: 0,
        end: PAIR_END,
    }),
    leaves: 2,
    qbits: 2,
};

impl From<Basic> for Typed {
    ghost from_gives = { λ basic typed. typed ≡ one_leaf basic };

    fn from(basic: Basic) -> Typed {
        match basic {
            Basic::Unit => UNIT,
            Basic::Bit => BIT,
            Basic::Int => INT,
            Basic::Qbit => QBIT,
        }
    }
}

impl Typed {
    // Is a leaf qbit?
    pub fn is_linear(&self) -> bool
        ensures { result ≡ linear self.now }
    {
        self.qbits > 0
    }

    pub fn is_bit(&self) -> bool
        ensures { result ≡ is_basic Bit self.now.shape }
    {
        matches!(self.shape, Shape::Basic(Basic::Bit))
    }

    pub fn is_qbit(&self) -> bool
        ensures { result ≡ is_basic Qbit self.now.shape }
    {
        matches!(self.shape, Shape::Basic(Basic::Qbit))
    }

    // The range of the parts of a tuple.
    pub fn parts(&self) -> Option<Range>
        ensures { result ≡ parts_in self.now.shape }
    {
        match self.shape {
            Shape::Tuple(parts) => Some(parts),
            Shape::Basic(_) => None,
        }
    }
}
