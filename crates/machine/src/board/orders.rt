// Questions to a board, and what an order does to it.
ghost use Rattle.std.specs.Prelude.{◌≡◌, ◌<◌, None, nat_le, MatchResult};
ghost use Rattle.machine.specs.Boards.{seen};
ghost use Rattle.machine.specs.Coins.{FirstFree, FreeFrom};
ghost use Rattle.machine.specs.Gates.{Admits, GateAnswer, gate_question};
ghost use Rattle.machine.specs.Model.{tally, every, Accepted, Started, Does, Clears, ordered};
ghost use Rattle.machine.specs.Orders.{handle_list};
ghost use Rattle.machine.specs.Promises.{PrepareAnswer, NotLive, IfRefused, IfAccepted};
ghost use Rattle.machine.specs.declared.order.Order.TheVariants.{Applied, Measured};

use super::Board;
use crate::order::{Gate, Handles, Order, Refusal};

impl Board {
    // A capacity of 0 is taken as 1, above 64 as 64.
    pub(crate) fn new(capacity: u8) -> Board
        ensures { Started capacity (seen result) }
    {
        Board {
            capacity: capacity.clamp(1, 64),
            used: 0,
            live: [false; 64],
            count: 0,
            latest: None,
        }
    }

    pub(crate) fn capacity(&self) -> u8
        ensures { result ≡ (seen self.now).capacity }
    {
        self.capacity
    }

    fn is_full(&self) -> bool
        ensures { result ≡ nat_le (seen self.now).capacity (tally (seen self.now).live 64) }
    {
        self.used >= self.capacity
    }

    fn is_live(&self, handle: u8) -> bool
        ensures { result ≡ (seen self.now).live handle }
    {
        self.live.get(usize::from(handle)).copied().unwrap_or(false)
    }

    // Counts the order, which becomes the latest.
    fn accept(&mut self, order: Order)
        ensures accepted { Accepted (seen self.old) (seen self.new) order }
        ensures live { self.new.live ≡ self.old.live }
    {
        self.count = self.count.wrapping_add(1);
        self.latest = Some(order);
    }

    // The first handle that is not live, from `start` on, 0 following the greatest; none where as many are live as the capacity.
    fn free_from(&self, start: u8) -> Option<u8>
        requires { start < (seen self.now).capacity }
        ensures { FreeFrom (seen self.now) start result }
    {
        if self.is_full() {
            return None;
        }
        (0..self.capacity)
            .map(|distance| (start + distance) % self.capacity)
            .find(|handle| !self.is_live(*handle))
    }

    // Makes the first handle live that is not, from `start` on, and answers it.
    pub(crate) fn prepare(&mut self, start: u8) -> Result<u8, Refusal>
        requires { start < (seen self.old).capacity }
        ensures answer { PrepareAnswer (seen self.old) (seen self.new) result }
        ensures same { IfRefused result (self.new ≡ self.old) }
        ensures first { IfAccepted result (λ h. FirstFree (seen self.old).capacity (seen self.old).live start h) }
    {
        let handle = self.free_from(start).ok_or(Refusal::Full)?;
        self.live[usize::from(handle)] = true;
        self.used += 1;
        self.accept(Order::Prepared { handle });
        Ok(handle)
    }

    // Measures the handle, which is live no more, with the answer `bit`.
    pub(crate) fn measure(&mut self, handle: u8, bit: bool) -> Result<(), Refusal>
        ensures answer { MatchResult result (λ _. Does (seen self.old) (ordered (Measured handle bit)) (seen self.new)) (λ e. NotLive (seen self.old) handle e) }
        ensures same { IfRefused result (self.new ≡ self.old) }
    {
        if !self.is_live(handle) {
            return Err(Refusal::Dead);
        }
        self.live[usize::from(handle)] = false;
        self.used -= 1;
        self.accept(Order::Measured { handle, bit });
        Ok(())
    }

    fn all_live(&self, handles: &[u8]) -> bool
        ensures { result ≡ every (seen self.now).live handles.now }
    {
        handles.iter().all(|handle| self.is_live(*handle))
    }

    // The handles of a gate order that is accepted, or the first question with the reply no.
    pub(crate) fn admit(&self, gate: Gate, handles: &[u8]) -> Result<Handles, Refusal>
        ensures { Admits gate handles.now (seen self.now).live result }
    {
        if handles.len() != gate.width() {
            return Err(Refusal::Width);
        }
        if !self.all_live(handles) {
            return Err(Refusal::Dead);
        }
        match handles {
            [one] => Ok(Handles::One(*one)),
            [first, second] if first != second => Ok(Handles::Two(*first, *second)),
            _ => Err(Refusal::Same),
        }
    }

    pub(crate) fn apply(&mut self, gate: Gate, handles: Handles)
        requires { gate_question gate (handle_list handles) (seen self.old).live ≡ None }
        ensures { Does (seen self.old) (ordered (Applied gate handles)) (seen self.new) }
    {
        self.accept(Order::Applied { gate, handles });
    }

    pub(crate) fn gate(&mut self, gate: Gate, handles: &[u8]) -> Result<(), Refusal>
        ensures answer { GateAnswer gate handles.now (seen self.old) (seen self.new) result }
        ensures same { IfRefused result (self.new ≡ self.old) }
    {
        let handles = self.admit(gate, handles)?;
        self.apply(gate, handles);
        Ok(())
    }

    pub(crate) fn clear(&mut self)
        ensures { Clears (seen self.old) (seen self.new) }
    {
        self.live = [false; 64];
        self.used = 0;
    }
}
