// The limits of a query, for code that counts. They are the words of `specs/Limits.antt`.
ghost use Rattle.std.specs.Prelude.{◌≡◌};
ghost use Rattle.alg_model.specs.Limits.{max_variables, max_triple_patterns, max_optionals, max_groups, max_open_groups};

/// A query has at most so many variables.
pub const MAX_VARIABLES: usize = 64;

/// A query has at most so many triple patterns.
pub const MAX_TRIPLE_PATTERNS: usize = 256;

/// A query has at most so many parts that are optional.
pub const MAX_OPTIONALS: usize = 63;

/// A query has at most so many groups.
pub const MAX_GROUPS: usize = 256;

/// A query has at most so many groups that are open at once.
pub const MAX_OPEN_GROUPS: usize = 32;

/// The constants are the limits. The call does nothing: its contract is the law.
pub fn limits_law()
    ensures variables { MAX_VARIABLES ≡ max_variables }
    ensures triple_patterns { MAX_TRIPLE_PATTERNS ≡ max_triple_patterns }
    ensures optionals { MAX_OPTIONALS ≡ max_optionals }
    ensures groups { MAX_GROUPS ≡ max_groups }
    ensures open_groups { MAX_OPEN_GROUPS ≡ max_open_groups }
{}
