//! What `--help`, `-h` and `--version` are answered with.

use vex_lines::Words;

/// The version of the program, as the file VERSION at the top has it, and the logic that the program is proved in, as
/// `rt version` prints it.
const VERSION: &str = "vex_tool 0.9.0\nlogic dac8208d650f15bf\n";

/// The commands, the settings and the statuses. The script at the top writes this text too, and reads the names of
/// commands and settings from it, so a command stands here as two blanks, its name, and P or N where a word follows.
const HELP: &str = r"vex_tool decodes 64-bit VEX instructions, and finds the shortest bytes of each.
It reads lines of hex digits from standard input.

  recode P   for each line the length, the meaning and the shortest bytes of the instruction that begins it
               echo 'C4 C1 78 28 C0' | vex_tool recode default
  sweep P    the same for one instruction after another of each line
               echo 'C5 F8 77 C5 F4 58 C2' | vex_tool sweep haswell
  asm P      the shortest bytes of the meaning that each line writes in words, as a result line has them
               echo 'VADDPS x0 x1 x2 0' | vex_tool asm default
  spellings P
             all bytes that have the meaning of the instruction that begins each line, in their order
               echo 'C5 F8 77' | vex_tool spellings default
  emulate P  what the integer vector instructions of each line change, on a machine that starts anew for each line
               echo 'C5 F1 FC C2' | vex_tool emulate haswell
  least      which of the decoder's settings the instructions of each line need, and which profiles have them
               echo 'C5 FA 10 07 C4 E3 7B F0 C1 05' | vex_tool least
  make N     one line on how N generated spellings are recoded, N from 1 to 1,000,000
               vex_tool make 1000
  notes P    what stands in the prefix and the opcode byte of each line, and then its answer
               echo 'C5 F8 77' | vex_tool notes default

P names settings: default (everything is permitted), minimal (no VEX instruction is), or a microarchitecture:
  k8 k10 bulldozer piledriver steamroller excavator zen zen2 zen3 zen4 zen5
  netburst core penryn nehalem westmere sandybridge ivybridge haswell haswell_ex broadwell skylake kabylake
Settings and profiles are those of the decoder yaxpeax-x86, and not what a processor runs: sandybridge takes VPADDD on
ymm registers, which is AVX2 and faults there.

  -h, --help  this text
  --version   the version, and the logic that the program is proved in

It ends with 0 (Done), 1 (ReadFault), 2 (Usage), 3 (WriteFault), 4 (NoMemory) or 5 (TooLong: over 2^26 bytes of input),
and names a status other than 0 on standard error.
";

/// The text that the words ask for: `--help` or `-h` alone, or `--version` alone. `None` for all other words.
pub fn text_asked(words: &Words) -> Option<&'static str> {
    if words.over() || words.get(1).is_some() {
        return None;
    }
    match words.get(0) {
        Some("--help" | "-h") => Some(HELP),
        Some("--version") => Some(VERSION),
        _ => None,
    }
}
