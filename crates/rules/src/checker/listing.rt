// The walk over a listing: its operations from the top, then the term to run.
use super::Walk;
use crate::fault::RuleFault;
use crate::types::within;
use grammar::tree::{Operation, Parameter, QBIT};
use programs::program::{Node, Placed, Root};
use programs::types::UNIT;

impl<'a> Walk<'a> {
    // A node of the program for each node of the tree, at once: the walk does not come to them in their order.
    // Where the room that was made before is too small, more is asked for.
    fn fill(&mut self) -> Result<(), RuleFault> {
        self.program.reserve(self.tree.nodes().len(), 0)?;
        for node in self.tree.nodes() {
            self.program.add_node(Placed {
                place: node.place,
                node: Node::Place(false),
                typed: UNIT,
            })?;
        }
        Ok(())
    }

    pub(super) fn parameters(&self, operation: Operation) -> &'a [Parameter] {
        within(self.tree.parameters(), operation.parameters)
    }

    // The names of the parameters are new, and their written types have few leaves.
    fn ask_parameters(&mut self, operation: Operation) -> Result<(), RuleFault> {
        let parameters = self.parameters(operation);
        for (i, parameter) in parameters.iter().enumerate() {
            self.ask_new(&parameters[..i], parameter.name)?;
            self.written(parameter.written)?;
        }
        Ok(())
    }

    // The parameters come into scope.
    fn bind_parameters(&mut self, operation: Operation) -> Result<(), RuleFault> {
        let parameters = self.parameters(operation);
        for (parameter, entry) in parameters.iter().zip(operation.names.numbers()) {
            let typed = self.type_at(parameter.written);
            self.bind(parameter.name, entry, typed, false)?;
        }
        Ok(())
    }

    fn operation(&mut self, at: usize, operation: Operation) -> Result<(), RuleFault> {
        let Operation {
            place,
            name,
            names,
            result,
            body,
            ..
        } = operation;
        if self
            .find(self.tree.operations(), name)
            .is_some_and(|f| f < at)
        {
            return Err(RuleFault::Taken { place: name.place });
        }
        self.above = at;
        self.ask_parameters(operation)?;
        self.written(result)?;
        self.bind_parameters(operation)?;
        self.term(body)?;
        self.close(0)?;
        if !self.types().same(body, result) {
            return Err(RuleFault::Misfit { place });
        }
        self.program.reserve(0, 1)?;
        self.program.add_root(Root { body, names })?;
        Ok(())
    }

    pub(super) fn listing(&mut self) -> Result<(), RuleFault> {
        self.fill()?;
        self.written(QBIT)?;
        let operations = self.tree.operations();
        for (at, operation) in operations.iter().enumerate() {
            self.operation(at, *operation)?;
        }
        self.above = operations.len();
        self.term(self.tree.run_term())
    }
}
