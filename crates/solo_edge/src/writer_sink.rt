ghost use Rattle.std.specs.Prelude.{◌≡◌, ◌<◌, ◌⊎◌, ℕ, []};
ghost use Rattle.solo_devices.specs.Sink.{GivesTo, FitsPiece, CountsFaults};
ghost use Rattle.solo_edge.specs.Telling.{if_told, IsTellable};

use crate::Tells;
use crate::retried::write_piece;
use solo_devices::{Gave, Sink};
use std::io::{self, Write};
use std::marker::PhantomData;

/// A sink over a writer, as a file or standard output. A write that fails, or that takes nothing, is counted.
#[derive(Drop)]
pub struct WriterSink<W: Write, B: Tells> {
    writer: W,
    faults: u64,
    tells: PhantomData<B>,
    ghost known: { IsTellable B.Tells.told (W.Write.contents writer) },
}

impl<W: Write, B: Tells> WriterSink<W, B> {
    /// A sink that was given nothing.
    pub fn new(writer: W) -> WriterSink<W, B>
        requires { IsTellable B.Tells.told (W.Write.contents writer) }
        ensures given { ⟦<WriterSink<W, B> as Sink>⟧.given result
            ≡ if_told B.Tells.told (W.Write.contents writer) }
        ensures faults { ⟦<WriterSink<W, B> as Sink>⟧.faults result ≡ 0 }
    {
        WriterSink {
            writer,
            faults: 0,
            tells: PhantomData,
        }
    }

    /// Writes what the writer still holds.
    pub fn flush(&mut self) -> io::Result<()> {
        self.writer.flush()
    }

    /// How often a write failed so far.
    pub fn faults(&self) -> u64
        ensures { result ≡ ⟦<WriterSink<W, B> as Sink>⟧.faults self.now }
    {
        self.faults
    }
}

impl<W: Write, B: Tells> Sink for WriterSink<W, B> {
    ghost given = { λ sink. if_told B.Tells.told (W.Write.contents sink.writer) };

    ghost faults = { λ sink. sink.faults };

    fn give(&mut self, piece: &[u8]) -> Gave
        // A write that is done counts no fault.
        ensures done { (count : ℕ) → result ≡ Gave.Bytes count → (0 < count) ⊎ (piece.now ≡ [])
            → ⟦<WriterSink<W, B> as Sink>⟧.faults self.new ≡ ⟦<WriterSink<W, B> as Sink>⟧.faults self.old }
        // As the trait says.
        ensures fits { FitsPiece result piece.now }
        ensures bytes { GivesTo (⟦<WriterSink<W, B> as Sink>⟧.given self.old)
            (⟦<WriterSink<W, B> as Sink>⟧.given self.new) result piece.now }
        ensures cause { CountsFaults (⟦<WriterSink<W, B> as Sink>⟧.faults self.old)
            (⟦<WriterSink<W, B> as Sink>⟧.faults self.new) result piece.now }
    {
        match write_piece(&mut self.writer, piece) {
            Ok(count) => {
                if count == 0 && !piece.is_empty() {
                    self.faults = self.faults.saturating_add(1);
                }
                Gave::Bytes(count)
            }
            Err(_) => {
                self.faults = self.faults.saturating_add(1);
                Gave::Failed
            }
        }
    }
}
