//! The boot of a viewer that is given none.

ghost use Rattle.std.specs.Prelude.{◌≡◌, ◌<◌, ◌≤◌, ◌^◌, ℕ, IfNone, IfSome};
ghost use Rattle.app_commands.specs.Boots.{IsLeastBeyond, boot_at};

use std::time::Clock;

/// The beginning of 2020, in seconds after that of 1970.
const BEGINNING: u64 = 1_577_836_800;

/// Returns the boot of a viewer that starts this many seconds after the beginning of 1970: the
/// seconds since 2020, from 2 to 2^32 - 1. Without a time it is 2.
pub fn boot_at(seconds: Option<u64>) -> u32
    ensures value { result ≡ boot_at seconds }
    ensures low { 2 ≤ result }
{
    match seconds {
        Some(seconds) => {
            let since = seconds.saturating_sub(BEGINNING);
            u32::try_from(since).unwrap_or(u32::MAX).max(2)
        }
        None => 2,
    }
}

/// Returns the boot of a viewer that starts now by the clock, as `boot_at` says.
pub fn boot_now<C: Clock>(clock: &C) -> u32
    ensures { 2 ≤ result }
{
    match clock.since_1970() {
        Ok(time) => boot_at(Some(time.as_secs())),
        Err(_) => boot_at(None),
    }
}

/// Returns the boot that a viewer takes whose host knows the boot `kept` of it, or 0 for none: the
/// least one from `own` on that is above `kept`. `None` if there is none.
pub fn boot_beyond(kept: u32, own: u32) -> Option<u32>
    ensures some { IfSome result (IsLeastBeyond kept own) }
    ensures none { IfNone result ((boot : ℕ) → boot < 2 ^ 32 → ¬ IsLeastBeyond kept own boot) }
{
    if kept < own {
        Some(own)
    } else {
        kept.checked_add(1)
    }
}
