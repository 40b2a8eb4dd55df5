//! The traits `Source` and `Sink`, and a write of all bytes.
ghost use Rattle.std.specs.Prelude.{◌≡◌, ℕ, ◌<◌, ◌≤◌, List, Option, Result, OnErr};
ghost use Rattle.zen_disk.specs.Faults.{HasCause};
ghost use Rattle.zen_link.specs.Streams.{AppendedPart, Reads, Writes, WritesAll};

use thiserror::Error;

/// A call of a source or a sink has failed, and its count of faults rose.
#[derive(Clone, Copy, Debug, PartialEq, Eq, Error)]
#[error("the stream failed")]
pub struct Failed;

/// What text is read from.
pub trait Source {
    ghost use Rattle.zen_link.specs.declared.stream.Failed.{Failed};

    /// The bytes left, where the source tells.
    ghost left: { Self → Option (List ℕ) };

    /// How many faults there were.
    ghost faults: { Self → ℕ };

    /// Whether a read with this result leads from one to the other, as far as the source tells.
    ghost moves: { Self → Self → Result ℕ Failed → Type 0 };

    /// Reads the next bytes into a prefix of the buffer, and says how many. Zero into a buffer that is not empty is
    /// the end of input. `Failed` only where the count of faults rose; nothing is taken then.
    fn read(&mut self, into: &mut [u8]) -> Result<usize, Failed>
        ensures reads { Reads (left self.old) (left self.new) into.new result }
        ensures cause { HasCause (faults self.old) (faults self.new) result }
        ensures moves { moves self.old self.new result };
}

/// What text is written to.
pub trait Sink {
    ghost use Rattle.zen_link.specs.declared.stream.Failed.{Failed};

    /// The bytes that were written, where the sink tells.
    ghost written: { Self → Option (List ℕ) };

    /// How many faults there were.
    ghost faults: { Self → ℕ };

    /// Whether a write of these bytes with this result leads from one to the other, as far as the sink tells.
    ghost moves: { Self → List ℕ → Self → Result ℕ Failed → Type 0 };

    /// Writes a prefix of the bytes, and says how many: at least one of a piece that is not empty. `Failed` only where
    /// the count of faults rose; nothing is written then.
    fn write(&mut self, bytes: &[u8]) -> Result<usize, Failed>
        ensures writes { Writes (written self.old) (written self.new) bytes.now result }
        ensures cause { HasCause (faults self.old) (faults self.new) result }
        ensures moves { moves self.old bytes.now self.new result };
}

/// Writes all of the bytes. `Failed` only where the sink's count of faults rose; a prefix of them is written then, and not all.
pub fn write_all<S: Sink>(out: &mut S, bytes: &[u8]) -> Result<(), Failed>
    ensures writes { WritesAll (S.written out.old) (S.written out.new) bytes.now result }
    ensures part { OnErr result (AppendedPart (S.written out.old) (S.written out.new) bytes.now) }
    ensures cause { HasCause (S.faults out.old) (S.faults out.new) result }
{
    let mut at = 0;
    while at < bytes.len() {
        let Ok(count) = out.write(&bytes[at..]) else {
            return Err(Failed);
        };
        at += count;
    }
    Ok(())
}
