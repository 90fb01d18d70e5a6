// What a process on a thread of its own is to have done.
ghost use Rattle.std.specs.Prelude.{◌≡◌, OnErr};
ghost use Rattle.pipeline.specs.Rows.{Fed, Worked};

use crate::{Failed, Parcel, Source, Stage};
use slot_buffer::{RecvEnd, SendEnd};
use solo_base::NoMemory;
use std::snapshot::Snapshot;
use std::thread::Promise;

/// Of a stage between these ends.
#[derive(Drop)]
pub(crate) struct Works<S: Stage> {
    stage: Snapshot<S>,
    taker: Snapshot<RecvEnd<Parcel<S::In>>>,
    putter: Snapshot<SendEnd<Parcel<S::Out>>>,
}

impl<S: Stage> Works<S> {
    pub(crate) fn with(
        stage: &S,
        taker: &RecvEnd<Parcel<S::In>>,
        putter: &SendEnd<Parcel<S::Out>>,
    ) -> Works<S>
        ensures { (result.stage.value ≡ stage.now) × (result.taker.value ≡ taker.now)
            × (result.putter.value ≡ putter.now) }
    {
        Works {
            stage: Snapshot::of(stage),
            taker: Snapshot::of(taker),
            putter: Snapshot::of(putter),
        }
    }
}

impl<S: Stage> Promise<
    (
        RecvEnd<Parcel<S::In>>,
        SendEnd<Parcel<S::Out>>,
        Result<(), NoMemory>,
    ),
> for Works<S> {
    ghost kept_by = { λ works ends. (ends.0.gate ≡ works.taker.value.gate)
        × (ends.1.gate ≡ works.putter.value.gate)
        × Worked (S.gives works.stage.value) ends.0.calls ends.1.calls ends.2 };
}

/// Of who feeds a pipeline from this source, to this end.
#[derive(Drop)]
pub(crate) struct Feeds<S: Source> {
    source: Snapshot<S>,
    putter: Snapshot<SendEnd<Parcel<S::Item>>>,
}

impl<S: Source> Feeds<S> {
    pub(crate) fn with(source: &S, putter: &SendEnd<Parcel<S::Item>>) -> Feeds<S>
        ensures { (result.source.value ≡ source.now) × (result.putter.value ≡ putter.now) }
    {
        Feeds {
            source: Snapshot::of(source),
            putter: Snapshot::of(putter),
        }
    }
}

impl<S: Source> Promise<(SendEnd<Parcel<S::Item>>, S, Result<(), Failed>)> for Feeds<S> {
    ghost kept_by = { λ feeds fed. (fed.0.gate ≡ feeds.putter.value.gate)
        × Fed (S.tells feeds.source.value) (S.gave fed.1) fed.0.calls fed.2
        × OnErr fed.2 (S.failed fed.1) };
}
