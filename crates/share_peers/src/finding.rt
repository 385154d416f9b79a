//! Where an address is in a table, and where the next one goes.

ghost use Rattle.std.specs.Prelude.{◌≡◌, ◌<◌, ◌+◌, ◌%◌, ◌↔◌, ℕ, IfSome, IfNone, Some, length};
ghost use Rattle.std.specs.Prelude.{true, false};
ghost use Rattle.share_peers.specs.Table.{AllKept, IsAt, IsFree, is_kept};

use std::net::SocketAddr;

fn is_same(place: &Option<SocketAddr>, address: &SocketAddr) -> bool
    ensures { (result ≡ true) ↔ (place.now ≡ Some address.now) }
{
    match place {
        Some(other) => other == address,
        None => false,
    }
}

/// Returns the first place with this address, if there is one.
pub(crate) fn place_of(table: &[Option<SocketAddr>], address: &SocketAddr) -> Option<usize>
    ensures some { IfSome result (λ n. IsAt table.now n address.now) }
    ensures none { IfNone result ((n : ℕ) → ¬ IsAt table.now n address.now) }
{
    for (place, there) in table.iter().enumerate() {
        if is_same(there, address) {
            return Some(place);
        }
    }
    None
}

fn is_kept(kept: &[u16], place: u16) -> bool
    ensures { result ≡ is_kept kept.now place }
{
    kept.contains(&place)
}

/// Returns the place that is `steps` after another one, round a table of `count`.
pub(crate) fn place_after(place: u16, steps: u16, count: u16) -> u16
    requires { 0 < count }
    ensures { result ≡ (place + steps) % count }
{
    ((u32::from(place) + u32::from(steps)) % u32::from(count)) as u16
}

/// Returns the first place from `next` on, round a table of `count`, that isn't kept, if there is
/// one.
pub(crate) fn free_place(kept: &[u16], count: u16, next: u16) -> Option<u16>
    requires { next < count }
    ensures some { IfSome result (IsFree kept.now count next) }
    ensures none { IfNone result (AllKept kept.now count) }
{
    for step in 0..count {
        let place = place_after(next, step, count);
        if !is_kept(kept, place) {
            return Some(place);
        }
    }
    None
}
