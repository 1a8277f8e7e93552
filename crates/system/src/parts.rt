// The state with a part replaced, and its bank.
ghost use Rattle.std.specs.Prelude.{◌≡◌};
ghost use Rattle.state.specs.Bank.{parts_in};
ghost use Rattle.system.specs.System.{with_slots};
ghost use Rattle.system.specs.Inner.{parts_of, with_parts};

use crate::System;
use registers::Registers;
use state::{CELLS, Cells, FLOATS, Floats, Parts};
use timer::Queue;

pub(crate) fn with_slots(s: System, slots: [u32; 76]) -> System
    ensures { result ≡ with_slots s slots }
{
    System {
        registers: Registers {
            slots,
            ..s.registers
        },
        ..s
    }
}

fn parts_of(s: System) -> Parts
    ensures { result ≡ parts_of s }
{
    Parts {
        devices: s.devices,
        ring: s.queue.ring,
        keys: s.keys,
    }
}

pub(crate) fn with_parts(s: System, x: Parts) -> System
    ensures { result ≡ with_parts s x }
{
    System {
        devices: x.devices,
        queue: Queue {
            ring: x.ring,
            ..s.queue
        },
        keys: x.keys,
        ..s
    }
}

// The bank of a state that is held by value, for a call that is lent words. A call in a closure over it would be no
// plainer: most calls are lent arrays of the state beside it.
#[derive(Drop)]
pub(crate) struct Bank {
    pub(crate) cells: Cells,
    pub(crate) floats: Floats,
}

impl Bank {
    pub(crate) fn of(s: System) -> Bank
        ensures { parts_in result.cells result.floats ≡ parts_of s }
    {
        let mut cells = [0; CELLS];
        let mut floats = [0.0; FLOATS];
        state::wholes::put_parts(&mut cells, &mut floats, parts_of(s));
        Bank { cells, floats }
    }

    pub(crate) fn parts(&self) -> Parts
        ensures { result ≡ parts_in self.now.cells self.now.floats }
    {
        state::wholes::parts_of(&self.cells, &self.floats)
    }

    // The state as the words have it now.
    pub(crate) fn put_back(&self, s: System) -> System
        ensures { result ≡ with_parts s (parts_in self.now.cells self.now.floats) }
    {
        with_parts(s, self.parts())
    }
}
