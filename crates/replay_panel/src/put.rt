// Puts state as no run leaves it, to see that any state is worked as the Rust works it.
use panel::Panel;

// A byte, or none from 256 on.
fn maybe(value: u64) -> Option<u8> {
    if value % 512 < 256 {
        Some((value % 256) as u8)
    } else {
        None
    }
}

// An address where nothing can be put leaves all as it is.
pub(crate) fn put(panel: Panel, at: u64, value: u64) -> Panel {
    let place = (value % 65536) as u16;
    let mut next = panel;
    match at {
        0 => next.window.x0 = place,
        1 => next.window.x1 = place,
        2 => next.window.y0 = place,
        3 => next.window.y1 = place,
        4 => next.pen.x = place,
        5 => next.pen.y = place,
        6 => next.pen.frames = value,
        7 => next.cmd = maybe(value),
        8 => next.pen.half = maybe(value),
        _ => {}
    }
    next
}
