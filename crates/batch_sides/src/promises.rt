//! What is promised of those that come to a start on a thread of their own: they did what their history asks
//! for where all came, and else they stay as they were.
ghost use Rattle.std.specs.Prelude.{◌≡◌};
ghost use Rattle.batch_sides.specs.Files.{loading};
ghost use Rattle.batch_sides.specs.Row.{CardsCame, JobsCame, LinesCame, PagesCame};

use crate::card_side::CardSide;
use crate::input_side::InputSide;
use crate::job_side::JobSide;
use crate::output_side::OutputSide;
use crate::run::Ended;
use batch_procs::{JobWork, Loader};
use side_by_side::{Start, Told};
use solo_devices::{Area, Source};
use std::marker::PhantomData;
use std::snapshot::Snapshot;
use std::thread::Promise;

/// Of the process that comes to this start with this side.
pub struct Coming<'s, J, C> {
    start: &'s Start,
    side: Snapshot<C>,
    of: PhantomData<J>,
}

impl<'s, J, C> Coming<'s, J, C> {
    pub(crate) fn with(start: &'s Start, side: &C) -> Coming<'s, J, C>
        ensures { (result.start.now ≡ start.now) × (result.side.value ≡ side.now) }
    {
        Coming {
            start,
            side: Snapshot::of(side),
            of: PhantomData::<J>,
        }
    }
}

impl<'s, J, C> Drop for Coming<'s, J, C> {
    fn drop(self) {
        let Coming {
            start: _,
            side: _,
            of: _,
        } = self;
    }
}

impl<'a, 's, J: JobWork, S: Source + Drop> Promise<(Ended<CardSide<'a, S>>, Told<'s>)>
    for Coming<'s, J, CardSide<'a, S>> {
    ghost kept_by = { λ coming came. CardsCame J.jobs S.left S.taken S.faults
        coming.start.now.lock came.1.of came.1.value coming.side.value came.0 };
}

impl<'a, 's, J: JobWork, A: Area + Send> Promise<(Ended<InputSide<'a, A>>, Told<'s>)>
    for Coming<'s, J, InputSide<'a, A>> {
    ghost kept_by = { λ coming came. PagesCame J.jobs A.size
        coming.start.now.lock came.1.of came.1.value coming.side.value came.0 };
}

impl<'a, 's, J: JobWork, F: Loader<J>, A: Area + Send, B: Area + Send> Promise<
    (Ended<JobSide<'a, F, A, B>>, Told<'s>),
> for Coming<'s, J, JobSide<'a, F, A, B>> {
    ghost kept_by = { λ coming came. JobsCame J.jobs (loading F.found F.pages F.faults F.sound) A.size B.size
        coming.start.now.lock came.1.of came.1.value coming.side.value came.0 };
}

impl<'a, 's, J: JobWork, B: Area + Send> Promise<(Ended<OutputSide<'a, B>>, Told<'s>)>
    for Coming<'s, J, OutputSide<'a, B>> {
    ghost kept_by = { λ coming came. LinesCame J.jobs B.size
        coming.start.now.lock came.1.of came.1.value coming.side.value came.0 };
}
