// One step of a run.
ghost use Rattle.std.specs.Prelude.{◌<◌, IfSome};

use super::{Focus, Frame, Halt, Stepper};
use crate::value::Value;
use grammar::tree::Range;
use machine::machine::Machine;
use programs::program::{Act, Node, Program};
use programs::table::add;

// The part of a node that runs first: its place in the table of parts, if it stands there, and its node.
// No frame: a frame's node is the one that waits.
#[derive(Clone, Copy)]
struct Inner {
    part: Option<usize>,
    node: usize,
}

// The part of the node at `at` that runs first, if it has one.
fn inner_of(program: &Program, at: usize) -> Option<Inner>
    ensures { IfSome result (λ i. i.node < at) }
{
    let (part, node) = match program.term(at) {
        Node::Built { parts, .. } => {
            let part = parts.numbers().next_back()?;
            (Some(part), program.part(part))
        }
        Node::Bind { right, .. } => (None, right),
        Node::If { condition, .. } => (None, condition),
        _ => return None,
    };
    (node < at).then_some(Inner { part, node })
}

impl<M: Machine> Stepper<'_, M> {
    // The next step.
    pub(super) fn step(&mut self) -> Result<(), Halt> {
        match self.state.focus {
            Focus::Entering(at) => self.enter(at),
            Focus::Finished(value) => {
                let frame = self.state.frames.pop().ok_or(Halt::Ended)?;
                self.resume(frame, value)
            }
        }
    }

    // Finds the part that steps next.
    fn enter(&mut self, start: usize) -> Result<(), Halt> {
        let mut at = start;
        while let Some(inner) = inner_of(self.program, at) {
            self.wait(at, inner.part)?;
            at = inner.node;
        }
        self.leaf(at)
    }

    // The node waits for one of its parts.
    fn wait(&mut self, node: usize, part: Option<usize>) -> Result<(), Halt> {
        add(&mut self.state.frames, Frame { node, part }).map_err(|_| Halt::Stuck)?;
        Ok(())
    }

    // A term with no part that runs before it.
    fn leaf(&mut self, at: usize) -> Result<(), Halt> {
        match self.program.term(at) {
            Node::Constant(leaf) => self.state.focus = Focus::Finished(Value::from(leaf)),
            Node::Use(entry) => self.state.focus = Focus::Finished(*self.state.entry(entry)?),
            Node::Using { names, body } => {
                self.prepare(names)?;
                self.state.focus = Focus::Entering(body);
            }
            Node::Built { act, parts } => self.act(act, parts)?,
            _ => return Err(Halt::Stuck),
        }
        Ok(())
    }

    // A part has become a value: the node that waited for it goes on.
    fn resume(&mut self, frame: Frame, value: Value) -> Result<(), Halt> {
        match self.program.term(frame.node) {
            Node::Built { act, parts } => self.resume_built(frame, act, parts, value)?,
            Node::Bind { names, body, .. } => {
                self.bind(names, &value)?;
                self.state.focus = Focus::Entering(body);
            }
            Node::If { yes, other, .. } => {
                let bit = value.bit().ok_or(Halt::Stuck)?;
                self.state.focus = Focus::Entering(if bit { yes } else { other });
            }
            _ => return Err(Halt::Stuck),
        }
        Ok(())
    }

    // The next part runs, or, after the last, the construct itself.
    fn resume_built(
        &mut self,
        frame: Frame,
        act: Act,
        parts: Range,
        value: Value,
    ) -> Result<(), Halt> {
        add(&mut self.state.values, value).map_err(|_| Halt::Stuck)?;
        let part = frame.part.ok_or(Halt::Stuck)?;
        if part <= parts.first {
            return self.act(act, parts);
        }
        let next = part - 1;
        self.wait(frame.node, Some(next))?;
        self.enter(self.program.part(next))
    }
}
