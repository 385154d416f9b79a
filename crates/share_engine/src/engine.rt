//! What asks etcd.

ghost use Rattle.std.specs.Prelude.{◌≡◌, List, Option, None, IsErrOf, OnOk};
ghost use Rattle.share_engine.specs.Exchanges.{Exchange, grown};

use thiserror::Error;

/// Why an exchange has no answer.
#[derive(Clone, Copy, Debug, Drop, PartialEq, Eq, Error)]
pub enum EngineFault {
    /// No whole answer came in time: the request may have been carried out or not.
    #[error("no answer came")]
    Silent,
    /// Memory was refused. Nothing was asked.
    #[error("memory was refused")]
    Memory,
}

/// What keeps the logs of worlds: etcd, or what stands for it in tests.
pub trait Engine: Drop {
    // The exchanges so far, in order, if the engine records them.
    ghost told: { Self → Option (List Exchange) } = { λ _. None };

    /// Asks for a transaction: the body of a POST to /v3/kv/txn. Puts the body of the answer into
    /// `into`, which it empties first.
    ///
    /// Fails with `Silent` if no whole answer came in time, and with `Memory` without asking.
    fn ask(&mut self, body: &[u8], into: &mut Vec<u8>) -> Result<(), EngineFault>
        ensures ok { OnOk result (told self.new
            ≡ grown (told self.old) (record { asked = body.now; answer = Some into.new.items })) }
        ensures silent { IsErrOf result EngineFault.Silent → told self.new
            ≡ grown (told self.old) (record { asked = body.now; answer = None }) }
        ensures memory { IsErrOf result EngineFault.Memory → told self.new ≡ told self.old };
}
