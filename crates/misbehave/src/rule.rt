//! The sentences on which verdicts rest. Nothing here speaks of misbehaviours.

/// A sentence of a standard that binds a peer.
#[derive(Clone, Copy)]
pub struct Rule {
    /// The standard's name, as `RFC 9113`.
    pub standard: &'static str,
    /// The section.
    pub section: &'static str,
    /// The sentence, or the part of it that binds. Where two are needed, `"; "` stands between
    /// them.
    pub sentence: &'static str,
}
