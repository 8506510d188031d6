// The questions about names: new, in scope, unspent, and spent at the end.
ghost use Rattle.std.specs.Prelude.{◌≡◌, drop};

use super::{Binding, Walk};
use crate::fault::RuleFault;
use crate::search::{Named, name_of};
use crate::types::within;
use grammar::tree::{self, Binder, Name, Range};
use programs::program::Node;
use programs::types::{QBIT, Typed};

// The entries of a table from `start` on, or none past its end. A cut of the slice, since the library's `skip` passes the entries before `start` one by one.
fn after<T>(table: &[T], start: usize) -> &[T]
    ensures { result.now ≡ drop start table.now }
{
    table.get(start..).unwrap_or(&[])
}

impl Walk<'_> {
    // The name of a node of a pattern.
    fn name(&self, at: usize) -> Name {
        name_of(self.tree.node(at))
    }

    // A name in scope, with its place there.
    fn bound(&self, name: Name) -> Option<(usize, Binding)> {
        let at = self.find(self.scope.as_slice(), name)?;
        let binding = self.scope.get(at)?;
        Some((at, *binding))
    }

    // A bound name is no operation, no name in scope and none of those before it.
    pub(super) fn ask_new<E: Named>(&self, before: &[E], name: Name) -> Result<(), RuleFault> {
        if self.find(self.tree.operations(), name).is_some()
            || self.bound(name).is_some()
            || self.find(before, name).is_some()
        {
            return Err(RuleFault::Taken { place: name.place });
        }
        Ok(())
    }

    // The names of a pattern are new.
    pub(super) fn ask_all_new(&self, names: Range) -> Result<(), RuleFault> {
        let nodes = within(self.tree.nodes(), names);
        for (i, node) in nodes.iter().enumerate() {
            self.ask_new(&nodes[..i], name_of(*node))?;
        }
        Ok(())
    }

    // The names of a set are different, in scope, and bound by mut. By number, since each node is put.
    pub(super) fn ask_set(&mut self, names: Range) -> Result<(), RuleFault> {
        for at in names.numbers() {
            let name = self.name(at);
            let place = name.place;
            let before = Range { end: at, ..names };
            if self.find(within(self.tree.nodes(), before), name).is_some() {
                return Err(RuleFault::Taken { place });
            }
            let (_, binding) = self.bound(name).ok_or(RuleFault::Unknown { place })?;
            let Node::Place(true) = self.program.node(binding.entry) else {
                return Err(RuleFault::Fixed { place });
            };
            let typed = self.type_at(binding.entry);
            self.program.put(at, Node::Target(binding.entry), typed);
        }
        Ok(())
    }

    // A name is used.
    pub(super) fn use_name(&mut self, node: usize, name: Name) -> Result<(), RuleFault> {
        let place = name.place;
        let (at, binding) = self.bound(name).ok_or(RuleFault::Unknown { place })?;
        let typed = self.type_at(binding.entry);
        if typed.is_linear() {
            if binding.spent {
                return Err(RuleFault::Spent { place });
            }
            self.spend(at, place)?;
        }
        self.program.put(node, Node::Use(binding.entry), typed);
        Ok(())
    }

    // A name comes into scope; `settable` is the flag that its node gets.
    pub(super) fn bind(
        &mut self,
        name: Name,
        entry: usize,
        typed: Typed,
        settable: bool,
    ) -> Result<(), RuleFault> {
        self.program.put(entry, Node::Place(settable), typed);
        self.scope.push(Binding {
            name,
            entry,
            spent: false,
        })?;
        Ok(())
    }

    // The names of a using come into scope as qbits. By number, since each node is put.
    pub(super) fn bind_qbits(&mut self, names: Range) -> Result<(), RuleFault> {
        for at in names.numbers() {
            self.bind(self.name(at), at, QBIT, false)?;
        }
        Ok(())
    }

    // The names of a let or a mut come into scope with the type of the right side, or its parts.
    pub(super) fn bind_names(
        &mut self,
        names: Range,
        right: usize,
        settable: bool,
    ) -> Result<(), RuleFault> {
        let typed = self.type_at(right);
        if let Some(at) = names.single() {
            return self.bind(self.name(at), at, typed, settable);
        }
        // After `fits`, the type is a tuple.
        let parts = typed.parts().map_or(&[][..], |parts| self.parts_of(parts));
        for (at, part) in names.numbers().zip(parts.iter().rev()) {
            let typed = self.type_at(*part);
            self.bind(self.name(at), at, typed, settable)?;
        }
        Ok(())
    }

    // Does the type of a right side fit the names?
    pub(super) fn fits(&self, binder: Binder, names: Range, right: usize) -> bool {
        let typed = self.type_at(right);
        match binder {
            Binder::Set => self.fits_set(names, right),
            Binder::Mut if typed.is_linear() => false,
            _ => names.len() == 1
                || typed
                    .parts()
                    .is_some_and(|parts| parts.len() == names.len()),
        }
    }

    // Does the type of a right side fit the names that it sets?
    fn fits_set(&self, names: Range, right: usize) -> bool {
        if let Some(at) = names.single() {
            return self.fits_target(at, right);
        }
        let Some(parts) = self.type_at(right).parts() else {
            return false;
        };
        parts.len() == names.len()
            && names
                .numbers()
                .zip(self.parts_of(parts).iter().rev())
                .all(|(at, part)| self.fits_target(at, *part))
    }

    // Has a part of a right side the type of the name that it sets?
    fn fits_target(&self, at: usize, part: usize) -> bool {
        match self.program.node(at) {
            Node::Target(entry) => self.types().same(part, entry),
            _ => false,
        }
    }

    // The names from `start` on leave the scope: the linear ones are spent. A `for`: from a method that takes &mut self, a closure over it in `find` got no proof.
    pub(super) fn close(&mut self, start: usize) -> Result<(), RuleFault> {
        for binding in after(self.scope.as_slice(), start) {
            if !binding.spent && self.type_at(binding.entry).is_linear() {
                return Err(RuleFault::Unspent {
                    place: binding.name.place,
                });
            }
        }
        self.scope.truncate(start);
        Ok(())
    }
}

impl Walk<'_> {
    // An unspent linear name is spent.
    fn spend(&mut self, at: usize, place: usize) -> Result<(), RuleFault> {
        if at < self.floor {
            return Err(RuleFault::Outside { place });
        }
        self.trail.push(at)?;
        if let Some(binding) = self.scope.get_mut(at) {
            binding.spent = true;
        }
        Ok(())
    }

    // The names below `outside` that were spent since `start` are unspent again. Marks one by one, as in `spent_alike`: `if_term` alone takes and gives them.
    pub(super) fn restore(&mut self, start: usize, outside: usize) {
        let new = after(self.trail.as_slice(), start);
        for at in new.iter().filter(|at| **at < outside) {
            if let Some(binding) = self.scope.get_mut(*at) {
                binding.spent = false;
            }
        }
    }

    // Are the names below `outside` that were spent from `start` to `middle` those that were spent from there on?
    pub(super) fn spent_alike(&self, start: usize, middle: usize, outside: usize) -> bool {
        let outer = |at: &&usize| **at < outside;
        let spent = |at: &usize| self.scope.get(*at).is_some_and(|binding| binding.spent);
        let both = after(self.trail.as_slice(), start);
        let first = both.iter().take(middle.saturating_sub(start)).filter(outer);
        let second = after(self.trail.as_slice(), middle).iter().filter(outer);
        let mut spends = both.iter().filter(outer);
        spends.all(spent) && first.count() == second.count()
    }
}
