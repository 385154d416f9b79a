//! Snapshots are exact: each world that has a snapshot is loaded from it, and whatever loads is a
//! snapshot.

ghost use Rattle.std.specs.Prelude.{◌≡◌, ◌<◌, ◌≤◌, ◌^◌, Err, List, Ok, length, ℕ};
ghost use Rattle.byte_codec.specs.Exact.{IsBytes};
ghost use Rattle.scene_core.specs.Scene.{SceneView};
ghost use Rattle.cascade_core.specs.Course.{Scripted};
ghost use Rattle.snapshot_core.specs.Loading.{HasSnapshot, loaded};
ghost use Rattle.snapshot_core.specs.Opening.{version_in};
ghost use Rattle.snapshot_core.specs.Shot.{shot, shot_as};
ghost use Rattle.snapshot_core.specs.declared.fault.SnapFault.TheVariants.{BootNotNew};

/// A world that fits, with a state for each script, is loaded from its snapshot for each higher
/// boot, and for no other boot. Bytes that load are the snapshot of what they load, of the version
/// that they name, and the loaded world has a snapshot.
pub fn snapshots_are_exact()
    ensures loads { (mark : List ℕ) (scene : SceneView) (boot new : ℕ) (w : Scripted)
        → length mark ≡ 32 → boot < 2 ^ 32 → HasSnapshot scene w
        → boot < new → loaded mark scene new (shot mark boot scene w) ≡ Ok (boot, w) }
    ensures refuses { (mark : List ℕ) (scene : SceneView) (boot new : ℕ) (w : Scripted)
        → length mark ≡ 32 → boot < 2 ^ 32 → HasSnapshot scene w
        → new ≤ boot → loaded mark scene new (shot mark boot scene w) ≡ Err BootNotNew }
    ensures found { (mark : List ℕ) (scene : SceneView) (new : ℕ) (bytes : List ℕ)
        (x : ℕ × Scripted) → IsBytes bytes → loaded mark scene new bytes ≡ Ok x
        → (bytes ≡ shot_as (version_in bytes) mark x.0 scene x.1) × HasSnapshot scene x.1
        × (x.0 < new) }
{}
