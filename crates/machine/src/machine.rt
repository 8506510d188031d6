// A machine, by what it means.
ghost use Rattle.std.specs.Prelude.{◌≡◌};
ghost use Rattle.machine.specs.Gates.{GateAnswer};
ghost use Rattle.machine.specs.Model.{Model, Clears};
ghost use Rattle.machine.specs.Promises.{PrepareAnswer, MeasureAnswer, IfRefused};

use crate::order::{Gate, Refusal};

pub trait Machine {
    ghost model: { Self → Model };

    fn capacity(&self) -> u8
        ensures { result ≡ (model self.now).capacity };

    // Makes a handle live and answers it.
    fn prepare(&mut self) -> Result<u8, Refusal>
        ensures answer { PrepareAnswer (model self.old) (model self.new) result }
        ensures same { IfRefused result (self.new ≡ self.old) };

    // Measures the handle, which is live no more, and answers the bit.
    fn measure(&mut self, handle: u8) -> Result<bool, Refusal>
        ensures answer { MeasureAnswer handle (model self.old) (model self.new) result }
        ensures same { IfRefused result (self.new ≡ self.old) };

    // Leaves no live handle.
    fn clear(&mut self)
        ensures { Clears (model self.old) (model self.new) };

    // Applies the gate to the handles, in order. Apart, since they become an order only where they are admitted.
    fn gate(&mut self, gate: Gate, handles: &[u8]) -> Result<(), Refusal>
        ensures answer { GateAnswer gate handles.now (model self.old) (model self.new) result }
        ensures same { IfRefused result (self.new ≡ self.old) };
}
