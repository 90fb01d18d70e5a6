ghost use Rattle.std.specs.Prelude.{◌≡◌, ℕ};
ghost use Rattle.solo_devices.specs.Count.{raised};
ghost use Rattle.solo_devices.specs.Source.{TakesFrom, FitsPiece, CountsFaults, bytes_taken};
ghost use Rattle.solo_edge.specs.Telling.{if_told, IsTellable};

use crate::Tells;
use crate::retried::read_piece;
use solo_devices::{Source, Took};
use std::io::Read;
use std::marker::PhantomData;

/// A source over a reader, as a file or standard input. A read that fails is counted.
#[derive(Drop)]
pub struct ReaderSource<R: Read, B: Tells> {
    reader: R,
    taken: u64,
    faults: u64,
    tells: PhantomData<B>,
    ghost known: { IsTellable B.Tells.told (R.Read.remaining reader) },
}

impl<R: Read, B: Tells> ReaderSource<R, B> {
    /// A source of which nothing was taken.
    pub fn new(reader: R) -> ReaderSource<R, B>
        requires { IsTellable B.Tells.told (R.Read.remaining reader) }
        ensures left { ⟦<ReaderSource<R, B> as Source>⟧.left result
            ≡ if_told B.Tells.told (R.Read.remaining reader) }
        ensures taken { ⟦<ReaderSource<R, B> as Source>⟧.taken result ≡ 0 }
        ensures faults { ⟦<ReaderSource<R, B> as Source>⟧.faults result ≡ 0 }
    {
        ReaderSource {
            reader,
            taken: 0,
            faults: 0,
            tells: PhantomData,
        }
    }

    /// How often a read failed so far.
    pub fn faults(&self) -> u64
        ensures { result ≡ ⟦<ReaderSource<R, B> as Source>⟧.faults self.now }
    {
        self.faults
    }
}

impl<R: Read, B: Tells> Source for ReaderSource<R, B> {
    ghost left = { λ source. if_told B.Tells.told (R.Read.remaining source.reader) };

    ghost taken = { λ source. source.taken };

    ghost faults = { λ source. source.faults };

    fn take(&mut self, piece: &mut [u8]) -> Took
        // A read that is done counts no fault.
        ensures done { (count : ℕ) → result ≡ Took.Bytes count
            → ⟦<ReaderSource<R, B> as Source>⟧.faults self.new
            ≡ ⟦<ReaderSource<R, B> as Source>⟧.faults self.old }
        // As the trait says.
        ensures fits { FitsPiece result piece.new }
        ensures bytes { TakesFrom (⟦<ReaderSource<R, B> as Source>⟧.left self.old)
            (⟦<ReaderSource<R, B> as Source>⟧.left self.new) result piece.new }
        ensures taken { ⟦<ReaderSource<R, B> as Source>⟧.taken self.new
            ≡ raised (⟦<ReaderSource<R, B> as Source>⟧.taken self.old) (bytes_taken result) }
        ensures cause { CountsFaults (⟦<ReaderSource<R, B> as Source>⟧.faults self.old)
            (⟦<ReaderSource<R, B> as Source>⟧.faults self.new) result }
    {
        let took = match read_piece(&mut self.reader, piece) {
            Ok(count) => Took::Bytes(count),
            Err(_) => {
                self.faults = self.faults.saturating_add(1);
                Took::Failed
            }
        };
        self.taken = self.taken.saturating_add(bytes_taken(took));
        took
    }
}

/// How many bytes the answer adds to those that were taken.
fn bytes_taken(took: Took) -> u64
    ensures { result ≡ bytes_taken took }
{
    match took {
        Took::Bytes(count) => count as u64,
        Took::Failed => 0,
    }
}
