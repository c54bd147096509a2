//! The sections of a demo.

use crate::steps::Script;
use app_message::Messages;
use site_base::FpNo;

/// The work of one worker of a demo, which has its own share.
#[derive(Debug, Drop)]
pub enum Section {
    /// These messages are the input of one session.
    Till(Messages),
    /// The dispenser of this point carries out the steps of a script. While it waits for a state,
    /// it looks at the point at most this often.
    Dispenser {
        point: FpNo,
        polls: u64,
        script: Script,
    },
}
