//! Checks that a text is a scene that can be run.

ghost use Rattle.std.specs.Prelude.{◌≡◌, ◌⊎◌, [], IfOk, IfErr, OnOk};
ghost use Rattle.app_program.specs.Checking.{IsSceneOpened, IsNoScene, IsChecked, IsUnchecked, counts_text};
ghost use Rattle.app_program.specs.Opening.{IsDeviceOrMemory};
ghost use Rattle.app_program.specs.declared.open.OpenedScene.{OpenedScene as OpenedOf};

use crate::open::{OpenedScene, open_scene};
use crate::stream::read_whole;
use crate::texts::write_made;
use app_jobs::JobFault;
use itoa::Buffer;
use std::alloc::{AllocError, Global};
use std::io::{Read, Write};

/// Reads a scene to its end, and writes one line: `good`, the number of its nodes and the number of
/// its routes. Boxes for its scripts are not looked for.
///
/// Fails with `Device` if the reader or the writer fails or if the end is not reached in 2^27
/// reads, with `Memory` if memory is refused, or else with the first fault of the scene. On failure
/// nothing is written, unless the writer fails.
pub fn check_text<R: Read, W: Write>(
    alloc: Global,
    reader: &mut R,
    writer: &mut W,
) -> Result<(), JobFault>
    ensures ok { OnOk result (IsChecked (R.remaining reader.old) (R.remaining reader.new)
        (W.contents writer.old) (W.contents writer.new)) }
    ensures refused { IfErr result (λ f. IsDeviceOrMemory f
        ⊎ IsNoScene (R.remaining reader.old) (R.remaining reader.new) f) }
    ensures nothing { IfErr result (IsUnchecked (R.remaining reader.old) (R.remaining reader.new)
        (W.contents writer.old) (W.contents writer.new)) }
{
    write_made(writer, read_counts(alloc, reader))
}

/// Returns the line about the scene that a reader has left.
fn read_counts<R: Read>(alloc: Global, reader: &mut R) -> Result<Vec<u8>, JobFault>
    ensures line { IfOk result (λ v. (o : OpenedOf)
        × IsSceneOpened (R.remaining reader.old) (R.remaining reader.new) o
        × (v.items ≡ counts_text o)) }
    ensures refused { IfErr result (λ f. IsDeviceOrMemory f
        ⊎ IsNoScene (R.remaining reader.old) (R.remaining reader.new) f) }
{
    let opened = read_scene(alloc, reader)?;
    let line = counts_line(alloc, &opened);
    // For the prover: an explicit call. The drop of a scene would be proved at each exit.
    drop(opened);
    Ok(line?)
}

/// Returns the scene that a reader has left, with its routes.
fn read_scene<R: Read>(alloc: Global, reader: &mut R) -> Result<OpenedScene, JobFault>
    ensures read { IfOk result (IsSceneOpened (R.remaining reader.old) (R.remaining reader.new)) }
    ensures refused { IfErr result (λ f. IsDeviceOrMemory f
        ⊎ IsNoScene (R.remaining reader.old) (R.remaining reader.new) f) }
{
    let bytes = read_whole(alloc, reader)?;
    open_scene(alloc, bytes.as_slice())
}

/// Returns the line about a scene.
fn counts_line(alloc: Global, opened: &OpenedScene) -> Result<Vec<u8>, AllocError>
    ensures { IfOk result (λ v. v.items ≡ counts_text opened.now) }
{
    let mut line = Vec::new(alloc);
    write_counts(opened, &mut line)?;
    Ok(line)
}

/// Writes the line about a scene into an empty buffer. The buffer is lent: if this function owned
/// it, its drop would be proved at each exit.
#[tactic(auto, unfolding(crate::specs::Checking::counts_text))]
fn write_counts(opened: &OpenedScene, line: &mut Vec<u8>) -> Result<(), AllocError>
    requires { line.old.items ≡ [] }
    ensures { OnOk result (line.new.items ≡ counts_text opened.now) }
{
    let mut digits = Buffer::new();
    line.extend_from_slice(b"good ")?;
    line.extend_from_slice(digits.format(opened.scene.node_count()).as_bytes())?;
    line.extend_from_slice(b" nodes ")?;
    line.extend_from_slice(digits.format(opened.routes.len()).as_bytes())?;
    line.extend_from_slice(b" routes\n")?;
    Ok(())
}
