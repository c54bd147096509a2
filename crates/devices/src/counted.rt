//! A reader or a writer whose failed calls are counted.
ghost use Rattle.std.specs.Prelude.{◌≡◌, ◌≢◌, ◌<◌, OnOk, IfOk, IfErr};
ghost use Rattle.std.specs.Io.{ReadsAtMost, WritesAtMost};
ghost use Rattle.std.specs.Io.KnownBytes.{Keeps, ReadConsumes, WriteAppends};
ghost use Rattle.std.specs.IoError.{error_kind};
ghost use Rattle.devices.specs.Devices.{one_more};

use std::io::{self, ErrorKind, Read, Write};

/// A reader or a writer with the number of its failed calls, from 0 up to the greatest `u64`, where
/// the count stays.
///
/// A call that returns an error is a failed call, unless a signal interrupted it. A write that
/// takes no octet is one too, because the writer takes no more. A read of no octet is not: it is
/// the end of the input. Between the calls the device is as it would be by itself.
#[derive(Debug, Drop)]
pub struct Counted<D> {
    device: D,
    failures: u64,
}

impl<D> Counted<D> {
    ghost use Rattle.devices.specs.Counted.{device_of, failures_of};

    /// Returns the device, none of whose calls has failed yet.
    pub fn new(device: D) -> Counted<D>
        ensures device { device_of result ≡ device }
        ensures failures { failures_of result ≡ 0 }
    {
        Counted {
            device,
            failures: 0,
        }
    }

    /// Returns the number of failed calls. It rises by one in each failed call and in no other.
    pub fn failures(&self) -> u64
        ensures { result ≡ failures_of self.now }
    {
        self.failures
    }

    /// Returns the device, to look at.
    pub fn get_ref(&self) -> &D
        ensures { result.now ≡ device_of self.now }
    {
        &self.device
    }

    /// Returns the device without its count.
    pub fn into_inner(self) -> D
        ensures { result ≡ device_of self }
    {
        self.device
    }
}

impl<R: Read> Read for Counted<R> {
    ghost use Rattle.devices.specs.Counted.{device_of, failures_of};

    ghost remaining = { λ c. R.remaining (device_of c) };

    /// One read of the device. Its error leaves the input as it was.
    fn read(&mut self, buf: &mut [u8]) -> io::Result<usize>
        ensures bound { ReadsAtMost result buf.new }
        ensures bytes { ReadConsumes (R.remaining (device_of self.old))
            (R.remaining (device_of self.new))
            result buf.new }
        ensures ok { OnOk result (failures_of self.new ≡ failures_of self.old) }
        ensures interrupted { IfErr result (λ e. error_kind e ≡ ErrorKind.Interrupted
            → failures_of self.new ≡ failures_of self.old) }
        ensures failed { IfErr result (λ e. error_kind e ≢ ErrorKind.Interrupted
            → failures_of self.new ≡ one_more (failures_of self.old)) }
    {
        let result = self.device.read(buf);
        if let Err(e) = &result {
            if e.kind() != ErrorKind::Interrupted {
                self.failures = self.failures.saturating_add(1);
            }
        }
        result
    }
}

impl<W: Write> Write for Counted<W> {
    ghost use Rattle.devices.specs.Counted.{device_of, failures_of};

    ghost contents = { λ c. W.contents (device_of c) };

    /// One write to the device. Its error leaves what was written as it was.
    fn write(&mut self, buf: &[u8]) -> io::Result<usize>
        ensures bound { WritesAtMost result buf.now }
        ensures bytes { WriteAppends (W.contents (device_of self.old))
            (W.contents (device_of self.new))
            result buf.now }
        ensures took { IfOk result (λ n. 0 < n → failures_of self.new ≡ failures_of self.old) }
        ensures took_none { IfOk result (λ n. n ≡ 0
            → failures_of self.new ≡ one_more (failures_of self.old)) }
        ensures interrupted { IfErr result (λ e. error_kind e ≡ ErrorKind.Interrupted
            → failures_of self.new ≡ failures_of self.old) }
        ensures failed { IfErr result (λ e. error_kind e ≢ ErrorKind.Interrupted
            → failures_of self.new ≡ one_more (failures_of self.old)) }
    {
        let result = self.device.write(buf);
        let has_failed = match &result {
            Ok(n) => *n == 0,
            Err(e) => e.kind() != ErrorKind::Interrupted,
        };
        if has_failed {
            self.failures = self.failures.saturating_add(1);
        }
        result
    }

    /// Flushes the device. Nothing is written by it that was not written before. One that fails
    /// counts as a call that failed; nothing here flushes.
    fn flush(&mut self) -> io::Result<()>
        ensures bytes { Keeps (W.contents (device_of self.old)) (W.contents (device_of self.new)) }
        ensures ok { OnOk result (failures_of self.new ≡ failures_of self.old) }
        ensures interrupted { IfErr result (λ e. error_kind e ≡ ErrorKind.Interrupted
            → failures_of self.new ≡ failures_of self.old) }
        ensures failed { IfErr result (λ e. error_kind e ≢ ErrorKind.Interrupted
            → failures_of self.new ≡ one_more (failures_of self.old)) }
    {
        let result = self.device.flush();
        if let Err(e) = &result {
            if e.kind() != ErrorKind::Interrupted {
                self.failures = self.failures.saturating_add(1);
            }
        }
        result
    }
}
