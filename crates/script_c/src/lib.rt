// The entry for C of crate script: each function has its clauses again and calls it.
#![tactic(auto)]

ghost use Rattle.std.specs.Prelude.{◌≡◌};
ghost use Rattle.runner.specs.Script.{ended, script_of};

// Runs a script over the lent memories as they come, and says by 01's number whether it was refused as a whole.
#[unsafe(no_mangle)]
pub extern "C" fn tg18_run_script(
    ram: &mut [u8],
    sram: &mut [u8],
    gpio: &mut [u8],
    framebuffer: &mut [u8],
    script: &[u8],
    out: &mut [u8],
) -> u32
    ensures { ended result ram.new sram.new gpio.new framebuffer.new
        out.new
        ≡ script_of ram.old sram.old gpio.old framebuffer.old
        script.now out.old }
{
    script::tg18_run_script(ram, sram, gpio, framebuffer, script, out)
}
