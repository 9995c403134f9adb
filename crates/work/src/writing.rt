// Writing what work files print, to whatever takes octets.
ghost use Rattle.std.specs.Prelude.{◌≡◌, ◌≢◌, length, IfErr, IsOk, OnOk};
ghost use Rattle.std.specs.Io.KnownBytes.{Appends};
ghost use Rattle.work.specs.Answers.{works_text};

use crate::carrying::carry_out;
use crate::running::Halt;
use std::alloc::Global;
use std::io::Write;
use workfile::reading::Work;

// Carries out works and writes what they print, each in its turn. The text of one is made whole before it is written, so
// that memory that runs out leaves nothing half said of it.
pub fn write_works<W: Write>(heap: Global, works: &[Work], out: &mut W) -> Result<(), Halt>
    ensures written { OnOk result (Appends (W.contents out.old) (W.contents out.new) (works_text works.now)) }
    ensures none { length works.now ≡ 0 → IsOk result }
    ensures error { IfErr result (λ h. h ≢ Halt.Faulty) }
{
    for work in works {
        let text = carry_out(heap, &work.commands)?;
        out.write_all(text.as_bytes())?;
    }
    Ok(())
}
