ghost use Rattle.batch_ends.specs.Causes.{Counts};
ghost use Rattle.batch_ends.specs.Tells.{Tells};

use crate::Units;
use batch_procs::{JobWork, Loader};
use solo_devices::{Area, Sink, Source};

/// The devices of a network over jobs of this kind: what they tell, and what they count.
pub trait Peripherals<J: JobWork> {
    type Deck;

    type Paper;

    type Files;

    type Input;

    type Output;

    ghost tells: { Tells J.Load Self.Deck Self.Paper Self.Files Self.Input Self.Output };

    ghost counts: { Counts Self.Deck Self.Paper Self.Files Self.Input Self.Output };
}

impl<J: JobWork, S: Source, K: Sink, F: Loader<J>, A: Area, B: Area> Peripherals<J>
    for Units<S, K, F, A, B> {
    type Deck = S;

    type Paper = K;

    type Files = F;

    type Input = A;

    type Output = B;

    ghost tells = { record {
      left = S.left;
      taken = S.taken;
      given = K.given;
      files = F.found;
      sound = F.sound;
      pages = F.pages;
      input_size = A.size;
      input_pages = A.pages;
      output_size = B.size;
      output_pages = B.pages;
    } };

    ghost counts = { record {
      read_faults = S.faults;
      taken = S.taken;
      print_faults = K.faults;
      file_faults = F.faults;
      input_faults = A.faults;
      output_faults = B.faults;
    } };
}
