//! The front of a capture, and the end of its settled parts.
ghost use Rattle.std.specs.Prelude.{◌≡◌};
ghost use Rattle.capture.specs.Reading.{known_form};

use crate::place::Place;
use packet_sync::{FileForm, OtherPackets};

/// What the first bytes of a capture show: the size of its packets, if it is not 188, and what it is if it is no
/// transport stream.
#[derive(Clone, Copy)]
pub struct Front {
    pub other: Option<OtherPackets>,
    pub form: FileForm,
}

/// The front of a capture, once enough bytes have arrived, and the place where its settled parts end.
#[derive(Clone, Copy)]
pub struct Settled {
    pub front: Option<Front>,
    pub place: Place,
}

impl Settled {
    /// Before the first byte.
    pub(crate) const NONE: Settled = Settled {
        front: None,
        place: Place::FIRST,
    };

    /// Returns what the capture is if it is no transport stream, as far as that is known.
    #[tactic(auto, unfolding(crate::specs::Reading::known_form))]
    pub(crate) fn form(&self) -> FileForm
        ensures { result ≡ known_form self.now.front }
    {
        match self.front {
            None => FileForm::Unknown,
            Some(front) => front.form,
        }
    }
}
