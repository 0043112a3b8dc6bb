//! Why a hub refuses a call.
use ll_verdict::{AskFault, ClockFault, PublishFault};

/// Why a channel's room refuses a call.
#[derive(Clone, Copy, Debug, PartialEq, Eq)]
pub enum RoomFault {
    /// The fault of an item.
    Publish(PublishFault),
    /// The fault of a request.
    Ask(AskFault),
    /// The fault of a reading of the clock.
    Clock(ClockFault),
}

/// Why a hub refuses a call.
#[derive(Clone, Copy, Debug, PartialEq, Eq)]
pub enum HubFault {
    /// There is no channel at that place.
    UnknownChannel,
    /// The channel has accepted fewer items than the caller has seen: the pass is another hub's.
    WentBack { seen: u64, found: u64 },
    /// The channel's room refuses the call.
    Room { channel: usize, fault: RoomFault },
    /// The pass or the claim is another hub's.
    Stranger,
    /// The limit of passes or of counts is reached, or a pass is missing at the end.
    Short,
    /// Out of memory.
    Memory,
}

impl HubFault {
    /// Returns its name.
    pub fn name(self) -> &'static str {
        match self {
            HubFault::UnknownChannel => "UnknownChannel",
            HubFault::WentBack { .. } => "WentBack",
            HubFault::Room { .. } => "Room",
            HubFault::Stranger => "Stranger",
            HubFault::Short => "Short",
            HubFault::Memory => "Memory",
        }
    }
}
