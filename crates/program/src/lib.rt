// The program `overlay` for C: its functions are linked with programs/overlay.c, which reads, calls, writes and exits. include/overlay.h declares them.
#![tactic(auto)]

ghost use Rattle.std.specs.Prelude.{◌≡◌, ◌++◌, length, drop};
ghost use Rattle.commands.specs.Arguments.{text_source, second_source};
ghost use Rattle.commands.specs.Outcomes.{command_of};

use commands_code::{command, second_source, text_source};

// Where the text comes from: 0 from nowhere, 1 from standard input, n above 1 from the file that the program's argument n names.
#[unsafe(no_mangle)]
pub extern "C" fn overlay_text_source(arguments: &[u8]) -> usize
    ensures { result ≡ text_source arguments.now }
{
    text_source(arguments)
}

// Where the second text comes from, likewise.
#[unsafe(no_mangle)]
pub extern "C" fn overlay_second_source(arguments: &[u8]) -> usize
    ensures { result ≡ second_source arguments.now }
{
    second_source(arguments)
}

// What the program says: its exit status. The bytes for standard output and for standard error stand at the start of `out` and of `err`; how many they are
// is left in `printed` and `told`. What the cells of `table` and `work` hold afterwards is free.
#[unsafe(no_mangle)]
pub extern "C" fn overlay_command(
    arguments: &[u8],
    text: &[u8],
    second: &[u8],
    table: &mut [u32; 524288],
    work: &mut [i32; 524288],
    out: &mut [u8; 167772160],
    err: &mut [u8; 65536],
    printed: &mut usize,
    told: &mut usize,
) -> u32
    ensures { let o = command_of arguments.now text.now second.now in
        (result ≡ o.status) × (printed.new ≡ length o.out) × (told.new ≡ length o.err)
        × (out.new ≡ o.out ++ drop (length o.out) out.old)
        × (err.new ≡ o.err ++ drop (length o.err) err.old) }
{
    let reply = command(arguments, text, second, table, work, out, err);
    *printed = reply.out;
    *told = reply.err;
    u32::from(reply.status)
}
