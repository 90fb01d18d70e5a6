// The laws of Solo over a session. Nothing is done here: the contracts are the laws.

ghost use Rattle.session_law.specs.Plans.{PlansFit, NeedsAreTheSession};
ghost use Rattle.session_law.specs.Passing.{EachPieceLeadsOn, BehindIsPassed};
ghost use Rattle.session_law.specs.Tells.{EveryInterleavingTells, OpeningsAreSound, StoredSessionRuns};

/// What told files make of the work is a plan whose needs fit on pages, whatever the work begins with; and
/// where it begins with what cards and typed lines hand on, its needs are the first of the session's.
pub fn the_session_is_a_plan()
    ensures fits { PlansFit }
    ensures needs { NeedsAreTheSession }
{}

/// Each piece of work leads on from where those before it led, by the plan of the session, and comes to the
/// maps of the session, also in its middle.
pub fn work_follows_the_session()
    ensures each { EachPieceLeadsOn }
    ensures behind { BehindIsPassed }
{}

/// Over told cards, typed lines and files, whatever the order of the events, whichever calls of the devices
/// fail and wherever memory is refused: in each state that can be reached console and paper gained a first
/// part of what the session displays and prints, and all of it where the processes ended with their work
/// done, no typed line being left then. The files that the work left are the last of the first maps of
/// the session.
pub fn every_interleaving_tells_the_session()
    ensures session { EveryInterleavingTells }
    ensures premise { OpeningsAreSound }
    ensures stored { StoredSessionRuns }
{}
