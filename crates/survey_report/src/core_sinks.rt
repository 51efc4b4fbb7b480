//! The sinks of what shows an INCONSISTENT.

/// The sinks of what shows an INCONSISTENT.
#[derive(Drop)]
pub struct CoreSinks<C, N, P> {
    /// The sink of the certificate.
    pub cert: C,
    /// The sink of the core's names.
    pub names: N,
    /// The sink of the part that these make up.
    pub part: P,
}
