//! Where the text of a replay goes.

ghost use Rattle.std.specs.Prelude.{◌≡◌, ◌≤◌, true, false, Bool, ℕ, List, Option, None, IsOk, OnOk};
ghost use Rattle.std.specs.Result.{IsErrOf};
ghost use Rattle.std.specs.Io.KnownBytes.{Appends};
ghost use Rattle.devices.specs.Counted.{device_of, failures_of};
ghost use Rattle.devices.specs.Devices.{one_more, AppendsFront};

use devices::{Counted, WriteFault, write_whole};
use std::io::Write;

/// Takes the text of a replay, piece after piece.
pub(crate) trait TextSink {
    /// The octets that it holds, where they are known.
    ghost holds: { Self → Option (List ℕ) };

    /// How many of its calls failed.
    ghost failures: { Self → ℕ };

    /// It takes each text whole.
    ghost never_fails: { Bool };

    /// Takes the whole text, or a front of it where it fails.
    fn put(&mut self, text: &[u8], turns: &mut u64) -> Result<(), WriteFault>
        ensures ok { OnOk result (Appends (holds self.old) (holds self.new) text.now) }
        ensures front { AppendsFront (holds self.old) (holds self.new) text.now }
        ensures counted { OnOk result (failures self.new ≡ failures self.old) }
        ensures failed { IsErrOf result WriteFault.Failed
            → failures self.new ≡ one_more (failures self.old) }
        ensures turns { turns.new ≤ turns.old }
        ensures sure { never_fails ≡ true → IsOk result };
}

impl<W: Write> TextSink for Counted<W> {
    ghost holds = { λ c. W.contents (device_of c) };

    ghost failures = { λ c. failures_of c };

    ghost never_fails = { false };

    fn put(&mut self, text: &[u8], turns: &mut u64) -> Result<(), WriteFault> {
        write_whole(self, text, turns)
    }
}

/// Lets each text go.
#[derive(Drop)]
pub(crate) struct NoText;

impl TextSink for NoText {
    ghost holds = { λ _. None };

    ghost failures = { λ _. 0 };

    ghost never_fails = { true };

    fn put(&mut self, _text: &[u8], _turns: &mut u64) -> Result<(), WriteFault> {
        Ok(())
    }
}
