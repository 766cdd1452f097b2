//! Writes one line to a writer.
ghost use Rattle.std.specs.Prelude.{◌≡◌, OnOk, OnErr, IfErr};
ghost use Rattle.std.specs.Io.KnownBytes.{Appends};
ghost use Rattle.olk_answers.specs.Steps.{AppendsFront};

use crate::reading::Stop;
use std::io::Write;

/// Writes all of the bytes, or fails with a beginning of them written.
pub fn write_whole<O: Write>(writer: &mut O, bytes: &[u8]) -> Result<(), Stop>
    ensures ok { OnOk result (Appends (O.contents writer.old) (O.contents writer.new) bytes.now) }
    ensures err { OnErr result
        (AppendsFront (O.contents writer.old) (O.contents writer.new) bytes.now) }
    ensures failed { IfErr result (λ stop. stop ≡ Stop.Failed) }
{
    let mut written = 0;
    while written < bytes.len() {
        match writer.write(&bytes[written..]) {
            Ok(0) | Err(_) => return Err(Stop::Failed),
            Ok(count) => written += count,
        }
    }
    Ok(())
}
