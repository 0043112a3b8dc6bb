//! Why the head of a request is refused.
use http::StatusCode;

/// Why no request stands at the front of some bytes: the first of these faults that its head has.
#[derive(Clone, Copy, Debug)]
pub enum HeadFault {
    /// The bytes begin no head (RFC 9112, sections 2 to 5).
    BadHead,
    /// The first 8,192 bytes hold no whole head, or the head has more than 64 fields.
    HeadTooLarge,
    /// The version is HTTP/1.1, and there isn't exactly one Host field (section 3.2).
    BadHost,
    /// The method isn't GET.
    BadMethod,
    /// A body follows (section 6).
    BadBody,
}

impl HeadFault {
    ghost use Rattle.std.specs.Prelude.{◌≡◌};
    ghost use Rattle.ll_wire.specs.Response.{head_status, head_fault_name};

    /// Returns the HTTP status of the answer.
    pub fn status(self) -> StatusCode
        ensures { result ≡ head_status self }
    {
        match self {
            HeadFault::BadMethod => StatusCode::METHOD_NOT_ALLOWED,
            HeadFault::HeadTooLarge => StatusCode::REQUEST_HEADER_FIELDS_TOO_LARGE,
            _ => StatusCode::BAD_REQUEST,
        }
    }

    /// Returns the name that the answer's body spells.
    pub fn name(self) -> &'static str
        ensures { result.now ≡ head_fault_name self }
    {
        match self {
            HeadFault::BadHead => "BadHead",
            HeadFault::HeadTooLarge => "HeadTooLarge",
            HeadFault::BadHost => "BadHost",
            HeadFault::BadMethod => "BadMethod",
            HeadFault::BadBody => "BadBody",
        }
    }
}
