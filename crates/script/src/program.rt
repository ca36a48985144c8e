// What the programs over scripts share.
ghost use Rattle.script.specs.Transcripts.{final_state};
ghost use Rattle.std.specs.Prelude.{◌≡◌, IsUtf8, OnOk};

use crate::transcript::{Transcript, rehearse};
use anyhow::anyhow;

pub const USAGE: &str = "usage: rehearse [FILE]

Carries out a script, from FILE or else from standard input, and writes what each line answers.
A line is words parted by spaces. Blank lines and lines that begin with # are passed over.

  number OCTETS      reads a number's content: its digits, and how many octets held them
  number14 OCTETS    the same, where the presentation of the number may be restricted
  read OCTETS        reads a message

OCTETS are pairs of hexadecimal digits, in one word or several.
";

// Carries out a script and writes what it answers. It fails where a line was none of the script's.
pub fn run(rt: &HostRuntime, script: &[u8]) -> anyhow::Result<()>
    ensures { OnOk result (IsUtf8 script.now → (final_state script.now).lines_counted.errors ≡ 0) }
{
    let heap = rt.alloc();
    let script = String::from_utf8_lossy(heap, script)?;
    let Transcript { text, lines } = rehearse(heap, script.as_str())?;
    print!(rt; "{text}")?;
    if lines.errors > 0 {
        return Err(anyhow!("a line is none of the script's"));
    }
    Ok(())
}
