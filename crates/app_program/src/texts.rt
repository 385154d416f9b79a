//! What a run writes of its stage. Nothing is written if the text was refused.

ghost use Rattle.std.specs.Prelude.{◌≡◌, Err, MatchResult};
ghost use Rattle.std.specs.Io.KnownBytes.{Appends, Keeps};
ghost use Rattle.app_jobs.specs.declared.fault.JobFault.TheVariants.{Device};

use crate::stream::write_whole;
use app_jobs::JobFault;
use std::io::Write;

/// Writes a text that was made. If the text was refused, writes nothing and returns that fault.
/// Fails with `Device` if the writer fails.
pub fn write_made<W: Write>(writer: &mut W, made: Result<Vec<u8>, JobFault>) -> Result<(), JobFault>
    ensures { MatchResult made
        (λ text. MatchResult result
        (λ _. Appends (W.contents writer.old) (W.contents writer.new) text.items)
        (λ fault. fault ≡ Device))
        (λ fault. (result ≡ Err fault) × Keeps (W.contents writer.old) (W.contents writer.new)) }
{
    let text = made?;
    write_whole(writer, text.as_slice())?;
    Ok(())
}
