//! What a beam is: its width, and how its states are compared.

/// A beam: how many states a layer has at most, and how states are compared.
#[derive(Clone, Copy)]
pub struct Beam {
    /// The most states of a layer.
    pub width: u32,
    /// The factor of the cost if processes are not equally far, which `State::imbalance` computes; 0 lets them go apart freely.
    pub imbalance: u32,
    /// Where the random numbers begin that are added to the worth of states. Beams that differ in it alone try other states.
    pub seed: u32,
}
