use solo_base::Cause;

/// The devices of a run, by what they are for: the deck, the paper, the files, and the areas of the spools to
/// the two job processes and from them.
pub struct TwinDevices<S, K, F, A> {
    pub deck: S,
    pub paper: K,
    pub files: F,
    pub input_a: A,
    pub input_b: A,
    pub output_a: A,
    pub output_b: A,
}

/// How a run ended, and its devices.
pub struct TwinDone<S, K, F, A> {
    pub cause: Option<Cause>,
    pub devices: TwinDevices<S, K, F, A>,
}
