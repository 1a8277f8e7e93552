// Scripts for hosts, over the four memories of a unit; crate script_c has the entry for C. 01, Scripts.
//
// A Rattle caller whose memories have other lengths calls runner::loops::run_script: the same but for refusal 7.
#![tactic(auto)]

ghost use Rattle.std.specs.Prelude.{◌≡◌};
ghost use Rattle.runner.specs.Script.{ended, bad_memory, script_of};

// 7: a memory has not the length that a unit's has.
pub fn bad_memory(ram: &[u8], sram: &[u8], gpio: &[u8], fb: &[u8]) -> bool
    ensures { result ≡ bad_memory ram.now sram.now gpio.now fb.now }
{
    (ram.len() != map::RAM_SIZE)
        | ((sram.len() != map::SRAM_SIZE)
            | ((gpio.len() != map::GPIO_SIZE) | (fb.len() != map::FRAMEBUFFER_SIZE)))
}

// 01's numbers as hosts get them: done, and 7.
pub const DONE: u32 = map::DONE as u32;

pub const BAD_MEMORY: u32 = map::BAD_MEMORY as u32;

// Runs a script over the lent memories as they come, and says by 01's number whether it was refused as a whole.
pub fn tg18_run_script(
    ram: &mut [u8],
    sram: &mut [u8],
    gpio: &mut [u8],
    framebuffer: &mut [u8],
    script: &[u8],
    out: &mut [u8],
) -> u32
    ensures { ended result ram.new sram.new gpio.new framebuffer.new
        out.new
        ≡ script_of ram.old sram.old gpio.old framebuffer.old
        script.now out.old }
{
    if bad_memory(ram, sram, gpio, framebuffer) {
        return BAD_MEMORY;
    }
    map::status(runner::loops::run_script(ram, sram, gpio, framebuffer, script, out))
}
