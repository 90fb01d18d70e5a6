//! A process that is inside a gate.
use crate::gate::Gate;
use crate::kept::Kept;
use crate::kind::MonitorKind;
use crate::pass::Pass;

/// The state of a monitor, which one process has to itself. It isn't `Drop`: end it by `leave` or `delay`.
// What keeps the state is a parameter: beside a field that declares a pointer, nothing could be said of what a call by value leaves in the pass.
pub struct Inside<'a, M: MonitorKind, K = Kept<<M as MonitorKind>::State>> {
    pub(crate) pass: &'a mut Pass<M>,
    pub(crate) gate: &'a Gate<M>,
    pub(crate) state: K,
}
