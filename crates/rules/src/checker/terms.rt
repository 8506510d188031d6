// The walk over the terms.
ghost use Rattle.std.specs.Prelude.{◌<◌};

use super::Walk;
use crate::fault::RuleFault;
use crate::types::LEAVES;
use grammar::tree::{Binder, Constant, Construct, Form, Name, Operation, Range};
use programs::program::{Act, Leaf, Node};
use programs::types::{BIT, INT, PAIR, QBIT, Shape, Typed, UNIT};

impl Walk<'_> {
    // The type of a tuple of the parts in a range, at most 8 leaves; `at` is the node whose place a refusal names.
    fn tuple_of(&self, at: usize, parts: Range) -> Result<Typed, RuleFault> {
        let types = self.parts_of(parts).iter().map(|part| self.type_at(*part));
        let (leaves, qbits) = types.fold((0usize, 0usize), |(leaves, qbits), typed| {
            (
                leaves.saturating_add(typed.leaves),
                qbits.saturating_add(typed.qbits),
            )
        });
        if leaves > LEAVES {
            let place = self.place(at);
            return Err(RuleFault::Leaves { place });
        }
        Ok(Typed {
            shape: Shape::Tuple(parts),
            leaves,
            qbits,
        })
    }

    // A written type. A part stands before it, so that the walk ends; a `for`, since a closure gets no proof in a recursion.
    pub(super) fn written(&mut self, at: usize) -> Result<(), RuleFault> {
        let typed = match self.tree.node(at).construct {
            Construct::BasicType(b) => Typed::from(b),
            Construct::TupleType(parts) => {
                for part in self.parts_of(parts).iter().rev() {
                    if *part < at {
                        self.written(*part)?;
                    }
                }
                self.tuple_of(at, parts)?
            }
            _ => return Ok(()),
        };
        self.program.put(at, Node::Place(false), typed);
        Ok(())
    }

    // The fields are passed on one by one: the case of an enum is no type of its own.
    #[cycle(terms)]
    pub(super) fn term(&mut self, at: usize) -> Result<(), RuleFault> {
        match self.tree.node(at).construct {
            Construct::Constant(c) => {
                self.constant(at, c);
                Ok(())
            }
            Construct::Use(name) => self.use_name(at, name),
            Construct::Built { form, parts } => self.built(at, form, parts),
            Construct::Bind {
                binder,
                names,
                right,
                body,
            } => self.bind_term(at, binder, names, right, body),
            Construct::Using { names, body } => self.using_term(at, names, body),
            Construct::If {
                condition,
                yes,
                other,
            } => self.if_term(at, condition, yes, other),
            _ => Ok(()),
        }
    }

    fn constant(&mut self, at: usize, c: Constant) {
        let (leaf, typed) = match c {
            Constant::Unit => (Leaf::Unit, UNIT),
            Constant::Zero => (Leaf::Bit(false), BIT),
            Constant::One => (Leaf::Bit(true), BIT),
            Constant::Number(n) => (Leaf::Int(n), INT),
        };
        self.program.put(at, Node::Constant(leaf), typed);
    }

    // The parts of a construct, from left to right. A `for`, since a closure gets no proof in a cycle of calls.
    #[cycle(terms)]
    fn parts(&mut self, at: usize, parts: Range) -> Result<(), RuleFault> {
        for part in self.parts_of(parts).iter().rev() {
            if *part < at {
                self.term(*part)?;
            }
        }
        Ok(())
    }

    // Act and type apart: the name of a call is asked before the parts, the type after them.
    #[cycle(terms)]
    fn built(&mut self, at: usize, form: Form, parts: Range) -> Result<(), RuleFault> {
        let act = self.act(form)?;
        self.parts(at, parts)?;
        let typed = self.built_type(at, act, parts)?;
        self.program.put(at, Node::Built { act, parts }, typed);
        Ok(())
    }

    // What is done once the parts of a form are values.
    fn act(&self, form: Form) -> Result<Act, RuleFault> {
        match form {
            Form::Tuple => Ok(Act::Tuple),
            Form::Meas => Ok(Act::Meas),
            Form::Gate(gate) => Ok(Act::Gate(gate)),
            Form::Call(name) => Ok(Act::Call(self.called(name)?)),
        }
    }

    // The operation that a called name means, one that stands above.
    fn called(&self, name: Name) -> Result<usize, RuleFault> {
        let place = name.place;
        let found = self.find(self.tree.operations(), name);
        let f = found.ok_or(RuleFault::Unknown { place })?;
        if f >= self.above {
            return Err(RuleFault::Below { place });
        }
        Ok(f)
    }

    // The type of a construct whose parts fit what is done with them.
    fn built_type(&self, at: usize, act: Act, parts: Range) -> Result<Typed, RuleFault> {
        match act {
            Act::Tuple => self.tuple_of(at, parts),
            Act::Meas if self.are_qbits(parts, 1) => Ok(BIT),
            Act::Gate(gate) if self.are_qbits(parts, gate.width()) => Ok(gate_type(gate.width())),
            Act::Call(f) => self.call_type(at, f, parts),
            _ => Err(RuleFault::Misfit {
                place: self.place(at),
            }),
        }
    }

    // Are the parts so many, and each a qbit?
    fn are_qbits(&self, parts: Range, width: usize) -> bool {
        parts.len() == width
            && self
                .parts_of(parts)
                .iter()
                .all(|at| self.type_at(*at).is_qbit())
    }

    // The type of a call whose arguments have the types of the parameters.
    fn call_type(&self, at: usize, f: usize, parts: Range) -> Result<Typed, RuleFault> {
        let place = self.place(at);
        let operation = self.tree.operations().get(f);
        let operation = operation.ok_or(RuleFault::Unknown { place })?;
        if !self.arguments_fit(*operation, parts) {
            return Err(RuleFault::Misfit { place });
        }
        Ok(self.type_at(operation.result))
    }

    // One argument of the right type for each parameter.
    fn arguments_fit(&self, operation: Operation, parts: Range) -> bool {
        let parameters = self.parameters(operation);
        let arguments = self.parts_of(parts);
        let written = parameters.iter().map(|parameter| parameter.written);
        let types = self.types();
        arguments.len() == parameters.len()
            && written
                .zip(arguments.iter().rev())
                .all(|(to, at)| types.same(*at, to))
    }

    // One function for the three binders: they differ in what is asked of the names, and in the right side.
    #[cycle(terms)]
    fn bind_term(
        &mut self,
        at: usize,
        binder: Binder,
        names: Range,
        right: usize,
        body: usize,
    ) -> Result<(), RuleFault>
        requires right { right < at }
        requires body { body < at }
    {
        match binder {
            Binder::Set => self.ask_set(names)?,
            _ => self.ask_all_new(names)?,
        }
        self.right_side(binder, right)?;
        if !self.fits(binder, names, right) {
            let place = self.place(at);
            return Err(RuleFault::Misfit { place });
        }
        let start = self.scope.len();
        match binder {
            Binder::Let => self.bind_names(names, right, false)?,
            Binder::Mut => self.bind_names(names, right, true)?,
            Binder::Set => {}
        }
        self.term(body)?;
        self.close(start)?;
        let node = Node::Bind {
            binder,
            names,
            right,
            body,
        };
        let typed = self.type_at(body);
        self.program.put(at, node, typed);
        Ok(())
    }

    // A right side: in that of a mut or a set no linear name of the scope around it may be spent.
    #[cycle(terms)]
    fn right_side(&mut self, binder: Binder, right: usize) -> Result<(), RuleFault> {
        let floor = self.floor;
        if !matches!(binder, Binder::Let) {
            self.floor = self.scope.len();
        }
        self.term(right)?;
        self.floor = floor;
        Ok(())
    }

    #[cycle(terms)]
    fn using_term(&mut self, at: usize, names: Range, body: usize) -> Result<(), RuleFault>
        requires { body < at }
    {
        self.ask_all_new(names)?;
        let start = self.scope.len();
        self.bind_qbits(names)?;
        self.term(body)?;
        self.close(start)?;
        let typed = self.type_at(body);
        self.program.put(at, Node::Using { names, body }, typed);
        Ok(())
    }

    #[cycle(terms)]
    fn if_term(
        &mut self,
        at: usize,
        condition: usize,
        yes: usize,
        other: usize,
    ) -> Result<(), RuleFault>
        requires condition { condition < at }
        requires first { yes < at }
        requires other { other < at }
    {
        let place = self.place(at);
        self.term(condition)?;
        if !self.type_at(condition).is_bit() {
            return Err(RuleFault::Misfit { place });
        }
        let outside = self.scope.len();
        let start = self.trail.len();
        self.term(yes)?;
        let middle = self.trail.len();
        self.restore(start, outside);
        self.term(other)?;
        if !self.types().same(yes, other) {
            return Err(RuleFault::Misfit { place });
        }
        if !self.spent_alike(start, middle, outside) {
            return Err(RuleFault::Branches { place });
        }
        self.trail.truncate(middle);
        let typed = self.type_at(yes);
        self.program.put(
            at,
            Node::If {
                condition,
                yes,
                other,
            },
            typed,
        );
        Ok(())
    }
}

// The type of a gate: each is on one qubit or on two.
fn gate_type(width: usize) -> Typed {
    if width == 1 { QBIT } else { PAIR }
}
