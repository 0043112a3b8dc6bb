//! Why a publisher's line is refused, with the numbers and names that publishers read.
ghost use Rattle.std.specs.Prelude.{◌≡◌};
ghost use Rattle.ll_publish.specs.Refusals.{refusal_code, refusal_name, rule_code, rule_name};

use ll_item::ItemFault;
use ll_verdict::PublishFault;

/// Why a publisher's line is refused.
#[derive(Clone, Copy, PartialEq, Eq)]
pub enum Refusal {
    /// The fault of an item that its channel doesn't accept.
    Rule(PublishFault),
    /// A line that isn't of its form.
    BadLine,
    /// A channel that wasn't declared.
    UnknownChannel,
    /// A line of more than 4,096 bytes, without its end.
    LineTooLong,
    /// An item of more than 1,048,576 bytes.
    MediaTooLong,
    /// A channel with a secret, on a connection that hasn't given it.
    NotAllowed,
}

impl From<PublishFault> for Refusal {
    ghost use Rattle.std.specs.Prelude.{◌≡◌};
    ghost use Rattle.ll_publish.specs.declared.refusal.Refusal.TheVariants.{Rule};

    ghost from_gives = { λ fault refusal. refusal ≡ Rule fault };

    fn from(fault: PublishFault) -> Refusal {
        Refusal::Rule(fault)
    }
}

impl From<ItemFault> for Refusal {
    ghost use Rattle.std.specs.Prelude.{◌≡◌};
    ghost use Rattle.ll_publish.specs.Refusals.{item_refusal};

    ghost from_gives = { λ fault refusal. refusal ≡ item_refusal fault };

    fn from(fault: ItemFault) -> Refusal {
        match fault {
            ItemFault::BadLine => Refusal::BadLine,
            ItemFault::NoRendition => Refusal::Rule(PublishFault::NoRendition),
            ItemFault::BadAttribute => Refusal::Rule(PublishFault::BadAttribute),
            ItemFault::Memory => Refusal::Rule(PublishFault::Memory),
        }
    }
}

impl Refusal {
    /// Returns the number that a publisher reads.
    pub fn code(self) -> u64
        ensures { result ≡ refusal_code self }
    {
        match self {
            Refusal::Rule(fault) => code_of(fault),
            Refusal::BadLine => 13,
            Refusal::UnknownChannel => 14,
            Refusal::LineTooLong => 15,
            Refusal::MediaTooLong => 16,
            Refusal::NotAllowed => 19,
        }
    }

    /// Returns the name that a publisher reads.
    pub fn name(self) -> &'static str
        ensures { result.now ≡ refusal_name self }
    {
        match self {
            Refusal::Rule(fault) => name_of(fault),
            Refusal::BadLine => "BadLine",
            Refusal::UnknownChannel => "UnknownChannel",
            Refusal::LineTooLong => "LineTooLong",
            Refusal::MediaTooLong => "MediaTooLong",
            Refusal::NotAllowed => "NotAllowed",
        }
    }
}

/// Returns the number of a channel's refusal.
fn code_of(fault: PublishFault) -> u64
    ensures { result ≡ rule_code fault }
{
    match fault {
        PublishFault::NoRendition => 1,
        PublishFault::Ended => 2,
        PublishFault::BadDuration => 3,
        PublishFault::TooLong => 4,
        PublishFault::OpenSegment => 5,
        PublishFault::CountEnd => 6,
        PublishFault::TimeEnd => 7,
        PublishFault::IdTaken => 8,
        PublishFault::BadAttribute => 9,
        PublishFault::IdUnknown => 10,
        PublishFault::RecordFull => 11,
        PublishFault::Memory => 12,
        PublishFault::NoSegment => 17,
        PublishFault::TimeBack => 18,
    }
}

/// Returns the name of a channel's refusal.
fn name_of(fault: PublishFault) -> &'static str
    ensures { result.now ≡ rule_name fault }
{
    match fault {
        PublishFault::NoRendition => "NoRendition",
        PublishFault::Ended => "Ended",
        PublishFault::BadDuration => "BadDuration",
        PublishFault::TooLong => "TooLong",
        PublishFault::OpenSegment => "OpenSegment",
        PublishFault::CountEnd => "CountEnd",
        PublishFault::TimeEnd => "TimeEnd",
        PublishFault::IdTaken => "IdTaken",
        PublishFault::BadAttribute => "BadAttribute",
        PublishFault::IdUnknown => "IdUnknown",
        PublishFault::RecordFull => "RecordFull",
        PublishFault::Memory => "Memory",
        PublishFault::NoSegment => "NoSegment",
        PublishFault::TimeBack => "TimeBack",
    }
}
