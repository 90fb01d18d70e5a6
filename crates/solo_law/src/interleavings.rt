ghost use Rattle.network_run.specs.Sound.{IsSoundLaw};
ghost use Rattle.network_law.specs.Processes.{IsLawful};
ghost use Rattle.solo_law.specs.Devices.{Devices};
ghost use Rattle.solo_law.specs.Solo.{solo, SoloState, IsReached, IsStuck, the_law};
ghost use Rattle.solo_law.specs.Holds.{Holds};

/// Solo meets what the law of networks asks of its processes. Nothing is done here: the contract is the law.
pub fn is_lawful()
    ensures { IsLawful solo }
{}

/// Whatever the order of the events, whichever calls of the devices fail and wherever memory is refused: in
/// each state that can be reached the six buffers hand over in order, a stop is told rightly, each process
/// ends as its cause says, and console and paper gained what the needs of the commands show and print, in
/// order. Nothing is done here: the contract is the law.
pub fn every_interleaving()
    ensures { (devices : Devices) (s : SoloState) → IsReached devices s → Holds devices s }
{}

/// No state that can be reached is stuck, whichever calls of the devices failed and wherever memory was
/// refused: where no event may happen but by a failure, all three have ended. Nothing is done here: the
/// contract is the law.
pub fn no_state_is_stuck()
    ensures { (devices : Devices) (s : SoloState) → IsReached devices s → IsStuck s → ⊥ }
{}

/// The law of Solo is sound, as who steps its network asks: only a process may go on, none that has ended,
/// and where none may, all three have ended. Nothing is done here: the contract is the law.
pub fn the_law_is_sound()
    ensures { IsSoundLaw the_law }
{}
