use stack_code::Verified;

/// What a job finds of its program.
#[derive(Debug, Drop)]
pub enum Loaded {
    /// The code of the file, verified.
    Code(Verified),
    /// There is no file of this name.
    NoFile,
    /// The file is of another kind than that of code.
    NotCode,
    /// The byte of the file, from 0, at which it is no good code.
    BadCode { at: u32 },
}
