// All of the bank at once, for a caller that holds the state by value.
ghost use Rattle.std.specs.Prelude.{◌≡◌};
ghost use Rattle.state.specs.Bank.{parts_in};
ghost use Rattle.state.specs.Packed.{cells_of, floats_of};

use crate::{CELLS, Cells, Devices, FLOATS, Floats, Parts};

pub fn parts_of(cells: &Cells, floats: &Floats) -> Parts
    ensures { result ≡ parts_in cells.now floats.now }
{
    let flash = crate::chips::chip_of(cells);
    let panel = crate::panels::panel_of(cells);
    let clocks = crate::moments::clocks_of(cells, floats);
    let latch = crate::rests::latch_of(cells, floats);
    let tone = crate::rests::tone_of(floats);
    let off = crate::rests::off_of(cells);
    let ring = crate::rests::ring_of(cells);
    let keys = crate::rests::keys_of(cells, floats);
    let devices = Devices {
        flash,
        panel,
        clocks,
        latch,
        tone,
        off,
    };
    Parts {
        devices,
        ring,
        keys,
    }
}

// Every word is set, whatever stood there.
pub fn put_parts(cells: &mut Cells, floats: &mut Floats, x: Parts)
    ensures { (cells.new ≡ cells_of x) × (floats.new ≡ floats_of x)
        × (parts_in cells.new floats.new ≡ x) }
{
    *cells = [0; CELLS];
    *floats = [0.0; FLOATS];
    let d = x.devices;
    let c = d.clocks;
    let timers = c.timers;
    crate::chips::put_chip(cells, d.flash);
    crate::panels::put_panel(cells, d.panel);
    crate::moments::put_times(floats, c.times);
    for n in 0..map::TIMER_COUNT {
        crate::moments::put_timer(cells, floats, n, timers[n]);
    }
    crate::moments::put_irq(cells, floats, c.irq);
    crate::moments::put_vsync(cells, c.vsync);
    crate::moments::put_converting(cells, c.converting);
    crate::rests::put_latch(cells, floats, d.latch);
    crate::rests::put_tone(floats, d.tone);
    crate::rests::put_off(cells, d.off);
    crate::rests::put_ring(cells, x.ring);
    crate::rests::put_keys(cells, floats, x.keys);
}
