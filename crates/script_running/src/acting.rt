//! Calls to the scripts of a world, and what their nodes send.

ghost use Rattle.std.specs.Prelude.{◌≡◌, ◌++◌, ◌<◌, [], is_some, length, map, slice_get};
ghost use Rattle.script_host.specs.Behaviour.{Initialize, Settle};
ghost use Rattle.script_running.specs.Acting as spec;
ghost use Rattle.script_running.specs.Acting.{act, call_of, kinds_of};
ghost use Rattle.script_running.specs.Ports as port_spec;

use crate::ports::{Ports, event_at, reply_of};
use react_core::Outbox;
use script_host::{Behaviour, Replies, Scripts};
use x3d_values::{Kind, Value};

/// Adds to `out` what the node of a script sends if the script sends these replies.
fn push_replies(kind: Kind, ports: &Ports, replies: &Replies, out: &mut Outbox)
    requires empty { out.old.items ≡ [] }
    ensures { out.new.items ≡ map (port_spec.reply_of kind ports.now) replies.now.items }
{
    match replies.as_slice() {
        [] => {}
        [only] => out.push(reply_of(kind, ports, *only)),
        [first, second] => {
            out.push(reply_of(kind, ports, *first));
            out.push(reply_of(kind, ports, *second));
        }
        _ => unreachable!(),
    }
}

/// Initializes the k-th script, and adds to `out` what its node sends. Allocates nothing.
#[tactic(auto, using(crate::proofs::CallLemmas::kinds_kept), unfolding(crate::specs::Acting::act))]
pub fn initialize<B: Behaviour>(scripts: &mut Scripts<B>, k: usize, ports: &Ports, out: &mut Outbox)
    requires there { k < length scripts.old }
    requires empty { out.old.items ≡ [] }
    ensures scripts { scripts.new ≡ (act ports.now Initialize k scripts.old).scripts }
    ensures replies { out.new.items ≡ (act ports.now Initialize k scripts.old).replies }
    ensures kinds { kinds_of scripts.new ≡ kinds_of scripts.old }
{
    let kind = scripts.kind(k);
    let replies = scripts.call_initialize(k);
    push_replies(kind, ports, &replies, out);
}

/// Settles the k-th script after the events of a timestamp, and adds to `out` what its node sends.
/// Allocates nothing.
#[tactic(auto, using(crate::proofs::CallLemmas::kinds_kept), unfolding(crate::specs::Acting::act))]
pub fn settle<B: Behaviour>(scripts: &mut Scripts<B>, k: usize, ports: &Ports, out: &mut Outbox)
    requires there { k < length scripts.old }
    requires empty { out.old.items ≡ [] }
    ensures scripts { scripts.new ≡ (act ports.now Settle k scripts.old).scripts }
    ensures replies { out.new.items ≡ (act ports.now Settle k scripts.old).replies }
    ensures kinds { kinds_of scripts.new ≡ kinds_of scripts.old }
{
    let kind = scripts.kind(k);
    let replies = scripts.call_settle(k);
    push_replies(kind, ports, &replies, out);
}

/// Hands an event at a field of its node to the k-th script, and adds to `out` what the node sends.
/// Reports whether the script received the event. Allocates nothing.
#[tactic(auto, using(crate::proofs::CallLemmas::kinds_kept), unfolding(crate::specs::Acting::act))]
pub fn receive<B: Behaviour>(
    scripts: &mut Scripts<B>,
    k: usize,
    ports: &Ports,
    field: u16,
    value: &Value,
    out: &mut Outbox,
) -> bool
    requires there { k < length scripts.old }
    requires empty { out.old.items ≡ [] }
    ensures received { result ≡ is_some (call_of ports.now k field value.now scripts.old) }
    ensures scripts { scripts.new ≡ (spec.receive ports.now k field value.now scripts.old).scripts }
    ensures replies { out.new.items
        ≡ (spec.receive ports.now k field value.now scripts.old).replies }
    ensures kinds { kinds_of scripts.new ≡ kinds_of scripts.old }
{
    let kind = scripts.kind(k);
    let Some(event) = event_at(kind, ports, field, value) else {
        return false;
    };
    let replies = scripts.call_receive(k, event.input, event.numbers);
    push_replies(kind, ports, &replies, out);
    true
}
