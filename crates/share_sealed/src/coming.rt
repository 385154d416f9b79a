//! What came of a receive, and how many datagrams had no right seal.

/// What came of a receive.
#[derive(Clone, Copy)]
pub enum Coming {
    /// Nothing arrived, or as many datagrams without a right seal as one receive takes.
    Nothing,
    /// A datagram without a right seal.
    Wrong,
    /// From this peer, a datagram of this number of bytes.
    Handed(u16, usize),
}

/// How many datagrams without a right seal one receive takes at most. So a flood of them doesn't
/// keep a turn from its end.
const MOST_WRONG: u32 = 64;

/// How many datagrams had no right seal.
#[derive(Clone, Copy)]
pub struct Wrongs {
    /// In a row, since a receive last ended.
    row: u32,
    /// In all, up to 2^64 - 1.
    all: u64,
}

impl Wrongs {
    ghost use Rattle.std.specs.Prelude.{◌≡◌};
    ghost use Rattle.share_sealed.specs.Passing as spec;

    pub(crate) fn none() -> Wrongs
        ensures { result ≡ record { row = 0; all = 0 } }
    {
        Wrongs { row: 0, all: 0 }
    }

    pub(crate) fn all(&self) -> u64
        ensures { result ≡ self.now.all }
    {
        self.all
    }

    /// Notes that the receive has ended.
    pub(crate) fn end_row(&mut self)
        ensures { self.new ≡ record self.old { row = 0 } }
    {
        self.row = 0;
    }

    /// Counts a datagram without a right seal. Returns what came of the receive.
    pub(crate) fn count(&mut self) -> Coming
        ensures wrongs { self.new ≡ spec.wrongs_wrong self.old }
        ensures value { result ≡ spec.coming_wrong self.old.row }
    {
        self.all = self.all.saturating_add(1);
        if self.row < MOST_WRONG - 1 {
            self.row += 1;
            Coming::Wrong
        } else {
            self.end_row();
            Coming::Nothing
        }
    }
}
