// Sinks, and writing the whole of a text.
ghost use Rattle.std.specs.Prelude.{◌≡◌, ◌<◌, ◌≤◌, length, take, IfOk, OnOk, OnErr};
ghost use Rattle.std.specs.Io.{StartsWith};
ghost use Rattle.irr_io.specs.Count.{NeverFalls, CountsOne, CountsAtMost};
ghost use Rattle.irr_io.specs.Views.{SinkView, Gains, Gained, WriteFailed};

use crate::Failed;

/// What takes bytes.
pub trait Sink {
    // The bytes taken so far and the number of writes, where they are told, and how many writes failed,
    // as a count of 64 bits.
    ghost view: { Self → SinkView };

    /// Takes some bytes from the front of `piece`, at least one unless it is empty, and returns how
    /// many. A write that fails is counted and takes nothing.
    fn write(&mut self, piece: &[u8]) -> Result<usize, Failed>
        ensures fits { IfOk result (λ n. n ≤ length piece.now) }
        ensures progress { IfOk result (λ n. 0 < length piece.now → 0 < n) }
        ensures gained { IfOk result (λ n. Gains (view self.old) (view self.new) (take n piece.now)) }
        ensures kept { OnErr result ((view self.new).held ≡ (view self.old).held) }
        ensures failed { OnErr result (WriteFailed (view self.old) (view self.new)) }
        ensures never_falls { NeverFalls (view self.old).faults (view self.new).faults }
        ensures counted { CountsOne (view self.old).writes (view self.new).writes };
}

/// Writes all of `bytes`, or stops at the first write that fails.
pub fn write_all<O: Sink>(sink: &mut O, bytes: &[u8]) -> Result<(), Failed>
    ensures all { OnOk result (Gains (O.view sink.old) (O.view sink.new) bytes.now) }

    // A failed call has written a front of the bytes, and the count of faults rose.
    ensures front { OnErr result (Gained (O.view sink.old) (O.view sink.new) (StartsWith bytes.now)) }
    ensures failed { OnErr result (WriteFailed (O.view sink.old) (O.view sink.new)) }

    ensures never_falls { NeverFalls (O.view sink.old).faults (O.view sink.new).faults }
    ensures writes { CountsAtMost (length bytes.now) (O.view sink.old).writes (O.view sink.new).writes }
{
    let mut done = 0;
    while done < bytes.len() {
        done += sink.write(&bytes[done..])?;
    }
    Ok(())
}
