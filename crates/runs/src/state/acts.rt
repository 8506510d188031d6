// What a step does with finished parts.
use super::{Focus, Halt, State, Stepper};
use crate::value::{ITEMS, Item, Value};
use grammar::tree::Range;
use machine::machine::Machine;
use machine::order::Gate;
use programs::program::{Act, Leaf, Node, Program};

// The entry that a name of a pattern means: a new name's own, or the one that a set alters.
fn entry_of(program: &Program, at: usize) -> usize {
    match program.term(at) {
        Node::Target(entry) => entry,
        _ => at,
    }
}

// The handle that a finished part is.
fn handle_of(value: &Value) -> Result<u8, Halt> {
    value.handle().ok_or(Halt::Stuck)
}

impl State {
    fn value_at(&self, at: usize) -> Result<&Value, Halt> {
        self.values.get(at).ok_or(Halt::Stuck)
    }

    // The tuple of the latest finished parts.
    fn gathered(&self, base: usize) -> Result<Value, Halt> {
        let parts = self.values.as_slice().get(base..).ok_or(Halt::Stuck)?;
        let mut whole = Value::empty();
        // At most 15, so a u8.
        whole.push(Item::Tuple(parts.len().min(ITEMS) as u8));
        for part in parts {
            whole.append(part);
        }
        Ok(whole)
    }

    // The parts from `base` on are gone, and this is finished.
    fn finish(&mut self, base: usize, value: Value) {
        self.values.truncate(base);
        self.focus = Focus::Finished(value);
    }
}

impl<M: Machine> Stepper<'_, M> {
    // A construct whose parts are values. Act and parts one by one: the case of an enum is no type of its own.
    pub(super) fn act(&mut self, act: Act, parts: Range) -> Result<(), Halt> {
        let base = self.state.values.len().saturating_sub(parts.len());
        match act {
            Act::Tuple => {
                let whole = self.state.gathered(base)?;
                self.state.finish(base, whole);
                Ok(())
            }
            Act::Meas => self.measure(base),
            Act::Gate(gate) => self.apply(base, gate),
            Act::Call(f) => self.call(base, f),
        }
    }

    fn measure(&mut self, base: usize) -> Result<(), Halt> {
        let handle = handle_of(self.state.value_at(base)?)?;
        let bit = self.machine.measure(handle)?;
        self.state.finish(base, Value::from(Leaf::Bit(bit)));
        Ok(())
    }

    // By the finished parts: a gate on one, or a gate on two, which leaves their pair.
    fn apply(&mut self, base: usize, gate: Gate) -> Result<(), Halt> {
        let parts = self.state.values.as_slice().get(base..).ok_or(Halt::Stuck)?;
        let whole = match parts {
            [one] => {
                self.machine.gate(gate, &[handle_of(one)?])?;
                *one
            }
            [first, second] => {
                let handles = [handle_of(first)?, handle_of(second)?];
                self.machine.gate(gate, &handles)?;
                self.state.gathered(base)?
            }
            _ => return Err(Halt::Stuck),
        };
        self.state.finish(base, whole);
        Ok(())
    }

    // The arguments become the parameters' values, and the body comes next.
    fn call(&mut self, base: usize, f: usize) -> Result<(), Halt> {
        let root = self.program.root(f);
        for (at, from) in root.names.numbers().zip(base..) {
            let value = *self.state.value_at(from)?;
            self.state.set(at, &value)?;
        }
        self.state.values.truncate(base);
        self.state.focus = Focus::Entering(root.body);
        Ok(())
    }

    // The value of a right side goes to the pattern's names, whole or part by part.
    pub(super) fn bind(&mut self, names: Range, value: &Value) -> Result<(), Halt> {
        if let Some(name) = names.single() {
            return self.state.set(entry_of(self.program, name), value);
        }
        // Each part begins where the one before ends.
        let mut first = 1usize;
        for at in names.numbers() {
            let end = value.end(first);
            self.state
                .set(entry_of(self.program, at), &value.part(first, end))?;
            first = end;
        }
        Ok(())
    }

    // A handle is prepared for each name, in order.
    pub(super) fn prepare(&mut self, names: Range) -> Result<(), Halt> {
        for at in names.numbers() {
            let handle = self.machine.prepare()?;
            self.state.set(at, &Value::from(Leaf::Handle(handle)))?;
        }
        Ok(())
    }
}
