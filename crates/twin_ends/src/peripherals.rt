ghost use Rattle.twin_ends.specs.TwinTells.{TwinTells, TwinCounts};

use crate::TwinUnits;
use batch_procs::{JobWork, Loader};
use solo_devices::{Area, Sink, Source};

/// The devices of the six over jobs of this kind: what they tell, and what they count.
pub trait TwinPeripherals<J: JobWork> {
    type Deck;

    type Paper;

    type Files;

    type Pages;

    ghost tells: { TwinTells J.Load Self.Deck Self.Paper Self.Files Self.Pages };

    ghost counts: { TwinCounts Self.Deck Self.Paper Self.Files Self.Pages };
}

impl<J: JobWork, S: Source, K: Sink, F: Loader<J>, A: Area> TwinPeripherals<J>
    for TwinUnits<S, K, F, A> {
    type Deck = S;

    type Paper = K;

    type Files = F;

    type Pages = A;

    ghost tells = { record {
      left = S.left;
      taken = S.taken;
      given = K.given;
      files = F.found;
      sound = F.sound;
      file_pages = F.pages;
      size = A.size;
      pages = A.pages;
    } };

    ghost counts = { record {
      read_faults = S.faults;
      taken = S.taken;
      print_faults = K.faults;
      file_faults = F.faults;
      page_faults = A.faults;
    } };
}
