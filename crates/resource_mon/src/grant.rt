/// The answer to a request.
#[derive(Clone, Copy, Debug, PartialEq, Eq)]
pub enum Grant {
    Got,
    /// Another process has it: this one waits until the turn is handed to it.
    Wait,
}
