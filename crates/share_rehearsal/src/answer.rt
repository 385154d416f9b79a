//! The answers to the steps of a rehearsal.

use share_law::{
    FloorFault, GatherFault, Gathered, HostFault, HostReply, JoinFault, NumberFault, OfferFault,
    SaveFault, SnapFault, TakeFault, Taken,
};

/// The answer to a step of a rehearsal.
#[derive(Clone, Copy)]
pub enum Answer {
    /// The result of numbering a clock: its number.
    Clocked(Result<u64, NumberFault>),
    /// The result of the host taking a packet.
    HostTook(Result<HostReply, HostFault>),
    /// The result of a viewer taking a packet.
    ViewerTook(Result<Taken, TakeFault>),
    /// The result of a viewer offering a point: its number in the viewer's boot.
    Offered(Result<u32, OfferFault>),
    /// The number, from 0, of the packet that was made. `None` if there was none to make.
    Sent(Option<usize>),
    /// The result of a viewer taking a snapshot: the snapshot's number, from 0.
    Saved(Result<usize, SaveFault>),
    /// The result of rewinding a viewer to a snapshot: the number of inputs that its world has
    /// applied.
    Rewound(Result<u64, SnapFault>),
    /// The result of dropping the host's inputs below a floor: the floor.
    Dropped(Result<u64, FloorFault>),
    /// The result of a viewer gathering a piece of a snapshot.
    Collected(Result<Gathered, GatherFault>),
    /// The result of a viewer joining with the snapshot that it gathered: the number of inputs that
    /// its world has applied.
    Joined(Result<u64, JoinFault>),
    /// The viewer dropped what it had gathered.
    Forgot,
    /// There is no packet, viewer or snapshot with the step's number.
    NoSuch,
}
