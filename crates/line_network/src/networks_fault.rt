//! Why no networks were put together.
ghost use Rattle.std.specs.Prelude.{◌≡◌};

use thiserror::Error;

/// Why no networks were put together. The message is the fault's name.
#[derive(Clone, Copy, Debug, Error)]
pub enum NetworksFault {
    /// There is no network, or there are more than 8 (47).
    #[error("BadNetworkCount")]
    BadNetworkCount,
}

impl NetworksFault {
    /// The number that stands for the fault in a reply, 47.
    pub fn number(self) -> u32
        ensures { result ≡ 47 }
    {
        match self {
            NetworksFault::BadNetworkCount => 47,
        }
    }
}
