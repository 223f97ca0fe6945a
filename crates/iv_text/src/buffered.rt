//! A sink with a buffer in front of another one.
ghost use Rattle.std.specs.Prelude.{◌≡◌, ◌≤◌, ◌+◌, ◌++◌, [], length, drop, OnOk, OnErr};
ghost use Rattle.std.specs.Io.KnownBytes.{Keeps, append_known};
ghost use Rattle.iv_text.specs.Sinks.{FailsOnce, FailsNever};
ghost use Rattle.iv_text.specs.Buffering.{buffer_of, sink_of, buffered_state};

use crate::device::{DeviceFault, Sink};
use std::marker::Model;

// How many bytes the buffer holds.
const CAPACITY: usize = 8192;

#[derive(Drop)]
struct Buffer {
    bytes: [u8; CAPACITY],
    len: usize,
}

impl Model for Buffer {
    ghost use Rattle.std.specs.Prelude.{ℕ, List, ◌≤◌, take};

    ghost Value = { List ℕ };

    ghost view = { λ b. take b.len b.bytes };

    ghost invariant = { λ b. b.len ≤ 8192 };
}

impl Buffer {
    fn new() -> Buffer
        ensures { result ≡ [] }
    {
        Buffer {
            bytes: [0; CAPACITY],
            len: 0,
        }
    }

    fn len(&self) -> usize
        ensures value { result ≡ length self.now }
        ensures bound { result ≤ 8192 }
    {
        self.len
    }

    fn as_slice(&self) -> &[u8]
        ensures { result.now ≡ self.now }
    {
        &self.bytes[..self.len]
    }

    // Takes the first bytes out, and moves the rest to the front.
    fn consume(&mut self, count: usize)
        requires { count ≤ length self.old }
        ensures { self.new ≡ drop count self.old }
    {
        let len = self.len;
        self.bytes.copy_within(count..len, 0);
        self.len = len - count;
    }

    fn append(&mut self, more: &[u8])
        requires { length self.old + length more.now ≤ 8192 }
        ensures { self.new ≡ self.old ++ more.now }
    {
        let len = self.len;
        self.bytes[len..len + more.len()].copy_from_slice(more);
        self.len = len + more.len();
    }
}

// Writes the bytes of the buffer to the sink. Those that a failed call leaves stay in the buffer.
fn write_out<W: Sink>(buffer: &mut Buffer, sink: &mut W) -> Result<(), DeviceFault>
    ensures bytes { Keeps (append_known (W.state sink.old).contents buffer.old)
        (append_known (W.state sink.new).contents buffer.new) }
    ensures empty { OnOk result (buffer.new ≡ []) }
    ensures works { OnOk result (FailsNever (W.state sink.old) (W.state sink.new)) }
    ensures fails { OnErr result (FailsOnce (W.state sink.old) (W.state sink.new)) }
{
    while buffer.len() > 0 {
        let count = sink.write(buffer.as_slice())?;
        buffer.consume(count);
    }
    Ok(())
}

/// A sink with a buffer of 8,192 bytes in front of another one, which it writes to where the buffer
/// is full and more bytes come. It takes no memory. Bytes that are in the buffer when it is dropped
/// are lost: `flush` writes them.
#[derive(Drop)]
pub struct Buffered<'a, W> {
    sink: &'a mut W,
    buffer: Buffer,
}

impl<'a, W: Sink> Buffered<'a, W> {
    /// An empty buffer in front of this sink.
    pub fn new(sink: &'a mut W) -> Buffered<'a, W>
        ensures empty { buffer_of result ≡ [] }
        ensures sink { (sink_of result).now ≡ sink.old }
        ensures same_sink { (sink_of result).ghost_name ≡ sink.entry.ghost_name }
    {
        Buffered {
            sink,
            buffer: Buffer::new(),
        }
    }

    /// Writes the bytes of the buffer to the sink.
    pub fn flush(&mut self) -> Result<(), DeviceFault>
        ensures empty { OnOk result (buffer_of self.new ≡ []) }
        ensures bytes { Keeps (buffered_state W.state self.old).contents
            (buffered_state W.state self.new).contents }
        ensures works { OnOk result
            (FailsNever (buffered_state W.state self.old) (buffered_state W.state self.new)) }
        ensures fails { OnErr result
            (FailsOnce (buffered_state W.state self.old) (buffered_state W.state self.new)) }
    {
        write_out(&mut self.buffer, self.sink)
    }
}

impl<W: Sink> Sink for Buffered<'_, W> {
    ghost state = { buffered_state W.state };

    fn write(&mut self, bytes: &[u8]) -> Result<usize, DeviceFault> {
        if self.buffer.len() == CAPACITY {
            self.flush()?;
        }
        let count = bytes.len().min(CAPACITY - self.buffer.len());
        self.buffer.append(&bytes[..count]);
        Ok(count)
    }
}
