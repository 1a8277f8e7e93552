// What a script holds: u32 count of presses, the presses, u32 count of steps, the steps.
ghost use Rattle.std.specs.Prelude.{◌≡◌, ◌&&◌, ℕ, ◌+◌, ◌-◌, ◌*◌, ◌≤◌, ◌<◌, length};
ghost use Rattle.memory.specs.Bytes.{loaded};
ghost use Rattle.entries.specs.Turn.{kind_in};
ghost use Rattle.runner.specs.Format.{press_bytes, step_bytes, most_presses, wide, presses_in, steps_in};
ghost use Rattle.runner.specs.Inner.{Kinds};
ghost use Rattle.runner.specs.Format.{kinds_from, bad_script, press_from, step_from};

use entries::Entry;

// The bytes of a press and of a step, the greatest count of each, and the last kind of a step.
pub(crate) const PRESS_BYTES: usize = map::PRESS_BYTES;

pub(crate) const STEP_BYTES: usize = map::STEP_BYTES;

const MOST_PRESSES: usize = map::MOST_PRESSES;

const MOST_STEPS: usize = map::MOST_STEPS;

const LAST_KIND: usize = map::WIPE as usize;

// Eight bytes.
fn load_wide(script: &[u8], at: usize) -> u64
    requires { at < 1000000 }
    ensures { result ≡ wide script.now at }
{
    let low = memory::load(script, at, 4);
    let high = memory::load(script, at + 4, 4);
    u64::from(low) + u64::from(high) * 0x1_0000_0000
}

pub(crate) fn presses(script: &[u8]) -> usize
    ensures { result ≡ presses_in script.now }
{
    memory::load(script, 0, 4) as usize
}

pub(crate) fn steps(script: &[u8], p: usize) -> usize
    requires { p ≤ most_presses }
    ensures { result ≡ steps_in script.now p }
{
    memory::load(script, 4 + PRESS_BYTES * p, 4) as usize
}

// Of each byte, whether it is the kind of a step.
fn known_kinds() -> [bool; 256]
    ensures { Kinds result }
{
    let mut table = [false; 256];
    for k in 1..LAST_KIND + 1 {
        table[k] = true;
    }
    table
}

// Whether the kind of the step at a place is one of those.
fn kind_at(table: &[bool; 256], script: &[u8], at: usize) -> bool
    requires { at + 1 ≤ length script.now }
    ensures { Kinds table.now → result ≡ kind_in (loaded script.now at 1) }
{
    table[usize::from(script[at])]
}

// The same of four steps, with no branch.
fn four_kinds(table: &[bool; 256], script: &[u8], at: usize) -> bool
    requires { at + step_bytes * 4 ≤ length script.now }
    ensures { Kinds table.now → (n : ℕ) → 4 ≤ n → kinds_from script.now at n
        ≡ (result && kinds_from script.now (at + step_bytes * 4) (n - 4)) }
{
    let a = kind_at(table, script, at);
    let b = kind_at(table, script, at + STEP_BYTES);
    let c = kind_at(table, script, at + STEP_BYTES * 2);
    let d = kind_at(table, script, at + STEP_BYTES * 3);
    a & (b & (c & d))
}

// The same of n steps, one by one.
fn few_kinds(table: &[bool; 256], script: &[u8], from: usize, n: usize) -> bool
    requires { from + step_bytes * n ≤ length script.now }
    ensures { Kinds table.now → result ≡ kinds_from script.now from n }
{
    let mut good = true;
    for i in 0..n {
        good &= kind_at(table, script, from + STEP_BYTES * i);
    }
    good
}

// Whether the n steps from a place on have kinds from 1 to the last. All are looked at, so that nothing waits for a
// test.
fn kinds(script: &[u8], from: usize, n: usize) -> bool
    requires { from + step_bytes * n ≤ length script.now }
    ensures { result ≡ kinds_from script.now from n }
{
    let table = known_kinds();
    let mut at = from;
    let mut left = n;
    let mut good = true;
    // No `for`: over the fours a step of memory takes 0.7 instructions more (counted), of some 47 in all.
    while left >= 4 {
        good &= four_kinds(&table, script, at);
        at += STEP_BYTES * 4;
        left -= 4;
    }
    good & few_kinds(&table, script, at, left)
}

pub(crate) fn bad_script(script: &[u8]) -> bool
    ensures { result ≡ bad_script script.now }
{
    let p = presses(script);
    if p > MOST_PRESSES {
        return true;
    }
    let n = steps(script, p);
    if n > MOST_STEPS {
        return true;
    }
    let from = 8 + PRESS_BYTES * p;
    if script.len() == from + STEP_BYTES * n {
        return !kinds(script, from, n);
    }
    true
}

// A press, its bytes given.
fn press_in(bytes: &[u8]) -> Entry
    ensures { result ≡ press_from bytes.now 0 }
{
    Entry {
        kind: 0,
        size: 0,
        address: memory::load(bytes, 0, 1),
        value: load_wide(bytes, 1),
    }
}

// A step, its bytes given.
fn step_in(bytes: &[u8]) -> Entry
    ensures { result ≡ step_from bytes.now 0 }
{
    Entry {
        kind: memory::load(bytes, 0, 1),
        size: memory::load(bytes, 1, 1),
        address: memory::load(bytes, 4, 4),
        value: load_wide(bytes, 8),
    }
}

// The press at a place. Here and below a part of known length is taken of the script, so that no load tests for the
// end.
pub(crate) fn press_at(script: &[u8], at: usize) -> Entry
    requires { at + press_bytes ≤ length script.now }
    ensures { result ≡ press_from script.now at }
{
    let end = at + PRESS_BYTES;
    press_in(&script[at..end])
}

// The step at a place.
pub(crate) fn step_at(script: &[u8], at: usize) -> Entry
    requires { at + step_bytes ≤ length script.now }
    ensures { result ≡ step_from script.now at }
{
    let end = at + STEP_BYTES;
    step_in(&script[at..end])
}
