//! Which Welcome answers a Hello.

ghost use Rattle.std.specs.Prelude.{◌≡◌, IsTrue};
ghost use Rattle.share_session.specs.Welcomes.{answers};

use crate::message::{Hello, Welcome};
use crate::numbers::ViewerCount;
use crate::run::Run;

impl Hello {
    /// Returns the Welcome that answers this Hello.
    pub fn welcome(&self, cookie: [u8; 8], run: Run, viewers: ViewerCount, kept: u32) -> Welcome
        ensures value { result ≡ record {
          mark = self.now.mark;
          who = self.now.who;
          cookie = cookie;
          nonce = self.now.nonce;
          run = run;
          viewers = viewers;
          kept = kept;
        } }
        ensures answers { IsTrue (answers self.now result) }
    {
        let mark = self.mark;
        let nonce = self.nonce;
        Welcome {
            mark,
            who: self.who,
            cookie,
            nonce,
            run,
            viewers,
            kept,
        }
    }
}

impl Welcome {
    /// Reports whether this answers a Hello. A viewer takes no other: it may be an old one, or of
    /// somebody who didn't get the Hello.
    pub fn answers(&self, hello: &Hello) -> bool
        ensures { result ≡ answers hello.now self.now }
    {
        self.nonce == hello.nonce && self.mark == hello.mark && self.who.get() == hello.who.get()
    }
}
