//! The limit of a graph, for code that counts. It is the word of `specs/Limits.antt`.
ghost use Rattle.std.specs.Prelude.{◌≡◌};
ghost use Rattle.term_numbers.specs.Limits.{max_triples};

/// A graph has at most so many distinct triples.
pub const MAX_TRIPLES: u32 = 8_388_608;

/// The constant is the limit. The call does nothing: its contract is the law.
pub fn limit_law()
    ensures { MAX_TRIPLES ≡ max_triples }
{}
