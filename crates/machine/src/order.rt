// Gates, orders and refusals of a machine.
ghost use Rattle.std.specs.Prelude.{◌≡◌};
ghost use Rattle.machine.specs.Orders.{width, number};

#[derive(Clone, Copy, PartialEq, Eq)]
pub enum Gate {
    X,
    Y,
    Z,
    H,
    S,
    Cnot,
    Cz,
    Swap,
}

impl Gate {
    // How many qubits the gate is on.
    pub fn width(&self) -> usize
        ensures { result ≡ width self.now }
    {
        match self {
            Gate::X | Gate::Y | Gate::Z | Gate::H | Gate::S => 1,
            Gate::Cnot | Gate::Cz | Gate::Swap => 2,
        }
    }
}

// The handles of a gate, in order.
#[derive(Clone, Copy)]
pub enum Handles {
    One(u8),
    Two(u8, u8),
}

// An accepted order with its answer: the handle given, or the bit.
#[derive(Clone, Copy)]
pub enum Order {
    Prepared { handle: u8 },
    Applied { gate: Gate, handles: Handles },
    Measured { handle: u8, bit: bool },
}

// Why a machine refuses an order, by its number.
#[derive(Clone, Copy)]
pub enum Refusal {
    Full = 91,
    Width = 92,
    Dead = 93,
    Same = 94,
}

impl Refusal {
    pub fn number(&self) -> u8
        ensures { result ≡ number self.now }
    {
        *self as u8
    }
}
