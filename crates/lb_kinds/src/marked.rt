// A subchannel of a view, with its mark.
use lb_policy::SubSeen;

/// A subchannel as a policy sees it, with a mark.
#[derive(Clone, Copy, Debug, PartialEq, Eq)]
pub struct Marked {
    pub seen: SubSeen,
    /// Whether it was in TRANSIENT_FAILURE, and has not been READY since.
    pub failed: bool,
}

impl Default for Marked {
    fn default() -> Marked {
        Marked {
            seen: SubSeen::default(),
            failed: false,
        }
    }
}
