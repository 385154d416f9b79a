//! The number of routes followed.

ghost use Rattle.std.specs.Prelude.{◌≡◌, count_by, true};
ghost use Rattle.cascade_trace.specs.Ends.{all_differ, has_sent};

use route_core::Routes;
use scene_core::End;

/// Returns the number of routes that start at one of these outputs. The outputs must all differ.
pub fn deliveries(routes: &Routes, sent: &[End]) -> usize
    requires differ { all_differ sent.now ≡ true }
    ensures { result ≡ count_by (λ r. has_sent sent.now r.source) routes.now }
{
    // For the prover: no sum exceeds the number of routes, which is small.
    let _most = routes.len();
    let mut count = 0;
    for source in sent {
        count += routes.from_output(*source).len();
    }
    count
}
