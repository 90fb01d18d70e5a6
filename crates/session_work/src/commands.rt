// The commands of a session, as the job process knows them.
ghost use Rattle.std.specs.Prelude.{IsTrue};
ghost use Rattle.session_work.specs.Pausing.{Awaits};
ghost use Rattle.session_work.specs.Facing.{OpensWith, PlansFrom, Follows, Passes};

use crate::session::Session;
use disk_files::FileArea;
use solo_devices::Area;
use solo_procs::{Commands, Given, Need, WorkFault};
use std::alloc::Global;
use std::marker::{Model, PhantomData};

/// The commands of a session, on the files of an area.
#[derive(Drop)]
pub struct SessionCommands<A> {
    session: Session,
    area: PhantomData<A>,
}

impl<A> Model for SessionCommands<A> {
    ghost use Rattle.session_work.specs.declared.session.Session.{Session};
    ghost use Rattle.session_work.specs.Pausing.{MayGoOn};

    ghost Value = { Session };

    ghost view = { λ commands. commands.session };

    ghost invariant = { λ commands. MayGoOn commands.session.under_way };
}

impl<A: Area> Commands for SessionCommands<A> {
    type Files = FileArea<A>;

    ghost use Rattle.std.specs.Prelude.{IsTrue};
    ghost use Rattle.session_work.specs.Pausing.{Awaits};
    ghost use Rattle.session_work.specs.Facing.{OpensWith, PlansFrom, Follows, Passes};

    ghost sound = { λ files. IsTrue files.sound };

    ghost faults = { λ files. A.faults files.area };

    ghost opens = { λ files plan. OpensWith (A.pages files.area) plan };

    ghost awaits = { λ commands pages kind. Awaits commands pages kind };

    ghost plans = { λ commands files plan. PlansFrom commands (A.pages files.area) plan };

    ghost follows = { λ commands opening before files. Follows commands (A.pages opening.area) before
        (A.pages files.area) };

    ghost passes = { λ opening before files. Passes (A.pages opening.area) before (A.pages files.area) };

    fn begin(alloc: Global) -> SessionCommands<A> {
        SessionCommands {
            session: Session::new(alloc),
            area: PhantomData,
        }
    }

    fn work(&mut self, given: Given, files: &mut FileArea<A>) -> Result<Need, WorkFault> {
        let need = self.session.work(given, files);
        // that the pages of sound files are a Solo disk is known where it is asked
        let _sound = files.sound();
        need
    }
}
