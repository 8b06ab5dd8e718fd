// Why a request isn't served.
ghost use Rattle.std.specs.Prelude.{◌≡◌};
ghost use Rattle.desk_http.specs.Refusals.{refusal_line, refusal_status};

use text_ground::memory::Memory;
use thiserror::Error;

/// Why a request isn't served.
#[derive(Clone, Copy, Debug, PartialEq, Eq, Error)]
pub enum BadRequest {
    /// A header or the body isn't as it has to be.
    #[error("Bad Request")]
    Malformed,
    /// Nothing is under the method and the target.
    #[error("Not Found")]
    NotFound,
    /// There is no memory for it.
    #[error("Insufficient Storage")]
    Memory,
}

impl BadRequest {
    /// The status of the reply: 400, 404 or 507.
    pub fn status(self) -> u16
        ensures { result ≡ refusal_status self }
    {
        match self {
            BadRequest::Malformed => 400,
            BadRequest::NotFound => 404,
            BadRequest::Memory => 507,
        }
    }

    /// The body of the reply: the phrase of its status, and a line feed.
    pub fn line(self) -> &'static [u8]
        ensures { result.now ≡ refusal_line self }
    {
        match self {
            BadRequest::Malformed => b"Bad Request\n",
            BadRequest::NotFound => b"Not Found\n",
            BadRequest::Memory => b"Insufficient Storage\n",
        }
    }
}

impl From<Memory> for BadRequest {
    ghost use Rattle.desk_http.specs.declared.fault.BadRequest.TheVariants.{Memory};

    ghost from_gives = { λ _ fault. fault ≡ Memory };

    fn from(_: Memory) -> Self {
        BadRequest::Memory
    }
}
