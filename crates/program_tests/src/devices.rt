//! Devices that are slow, full, or fail.
use std::io;
use std::io::{Read, Write};

/// Gives its bytes, so many a read, and then ends, or fails in this way.
#[derive(Drop)]
pub(crate) struct SlowReader<'a> {
    pub(crate) bytes: &'a [u8],
    pub(crate) step: usize,
    pub(crate) fault: Option<io::ErrorKind>,
}

impl Read for SlowReader<'_> {
    fn read(&mut self, buf: &mut [u8]) -> io::Result<usize> {
        if self.bytes.is_empty()
            && let Some(kind) = self.fault
        {
            return Err(kind.into());
        }
        let count = buf.len().min(self.step);
        self.bytes.read(&mut buf[..count])
    }
}

/// Takes so many bytes a call while it has room, and then none, or fails in this way.
#[derive(Drop)]
pub(crate) struct SlowWriter {
    pub(crate) taken: Vec<u8>,
    pub(crate) step: usize,
    pub(crate) room: usize,
    pub(crate) fault: Option<io::ErrorKind>,
}

impl Write for SlowWriter {
    fn write(&mut self, buf: &[u8]) -> io::Result<usize> {
        let room = self.room.saturating_sub(self.taken.len());
        if room == 0
            && let Some(kind) = self.fault
        {
            return Err(kind.into());
        }
        let count = buf.len().min(self.step).min(room);
        self.taken.extend_from_slice(&buf[..count])?;
        Ok(count)
    }

    fn flush(&mut self) -> io::Result<()> {
        Ok(())
    }
}
