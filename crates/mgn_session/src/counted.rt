ghost use Rattle.std.specs.Prelude.{◌≡◌, length, true, false};
ghost use Rattle.std.specs.Io.{ReadsAtMost, WritesAtMost};
ghost use Rattle.std.specs.Io.KnownBytes.{Keeps, ReadConsumes, WriteAppends};
ghost use Rattle.mgn_session.specs.Device.{device_of, dirty_after, failed_of, gave_nothing, has_ended, is_dirty, Counts, CountsWrite};

use std::io;
use std::io::{Read, Write};

/// A device, and how many of its calls failed: reads, writes and flushes that gave an error, and writes that took
/// none of some bytes.
#[derive(Drop)]
pub struct Counted<T> {
    device: T,
    failed: u64,
    // Whether bytes were written that no flush followed.
    dirty: bool,
    // Whether the last read had room and gave nothing.
    ended: bool,
}

impl<T> Counted<T> {
    /// The device, of which no call has failed yet.
    pub fn new(device: T) -> Counted<T>
        ensures device { device_of result ≡ device }
        ensures failed { failed_of result ≡ 0 }
        ensures clean { is_dirty result ≡ false }
        ensures open { has_ended result ≡ false }
    {
        Counted {
            device,
            failed: 0,
            dirty: false,
            ended: false,
        }
    }

    /// The device.
    pub fn into_inner(self) -> T
        ensures { result ≡ device_of self }
    {
        let Counted {
            device,
            failed: _,
            dirty: _,
            ended: _,
        } = self;
        device
    }

    /// How many calls failed, at most 2^64 - 1. Takes no memory.
    pub fn failed(&self) -> u64
        ensures { result ≡ failed_of self.now }
    {
        self.failed
    }
}

impl<R: Read> Read for Counted<R> {
    ghost remaining = { λ counted. R.remaining (device_of counted) };

    fn read(&mut self, buf: &mut [u8]) -> io::Result<usize>
        ensures bound { ReadsAtMost result buf.new }
        ensures bytes { ReadConsumes (R.remaining (device_of self.old)) (R.remaining (device_of self.new))
            result buf.new }
        ensures failed { Counts (failed_of self.old) (failed_of self.new) result }
        ensures ended { has_ended self.new ≡ gave_nothing result (length buf.new) }
        ensures dirty { is_dirty self.new ≡ is_dirty self.old }
    {
        let outcome = self.device.read(buf);
        if outcome.is_err() {
            self.failed = self.failed.saturating_add(1);
        }
        self.ended = match &outcome {
            Ok(taken) => *taken == 0 && !buf.is_empty(),
            Err(_) => false,
        };
        outcome
    }
}

impl<W: Write> Write for Counted<W> {
    ghost contents = { λ counted. W.contents (device_of counted) };

    fn write(&mut self, buf: &[u8]) -> io::Result<usize>
        ensures bound { WritesAtMost result buf.now }
        ensures bytes { WriteAppends (W.contents (device_of self.old)) (W.contents (device_of self.new))
            result buf.now }
        ensures failed { CountsWrite (failed_of self.old) (failed_of self.new) result (length buf.now) }
        ensures dirty { is_dirty self.new ≡ true }
        ensures ended { has_ended self.new ≡ has_ended self.old }
    {
        let outcome = self.device.write(buf);
        let failed = match &outcome {
            Ok(taken) => *taken == 0 && !buf.is_empty(),
            Err(_) => true,
        };
        if failed {
            self.failed = self.failed.saturating_add(1);
        }
        self.dirty = true;
        outcome
    }

    fn flush(&mut self) -> io::Result<()>
        ensures bytes { Keeps (W.contents (device_of self.old)) (W.contents (device_of self.new)) }
        ensures failed { Counts (failed_of self.old) (failed_of self.new) result }
        ensures dirty { is_dirty self.new ≡ dirty_after (is_dirty self.old) result }
        ensures ended { has_ended self.new ≡ has_ended self.old }
    {
        let outcome = self.device.flush();
        match &outcome {
            Ok(()) => self.dirty = false,
            Err(_) => self.failed = self.failed.saturating_add(1),
        }
        outcome
    }
}
