//! The limits of a query, but those of its names.
ghost use Rattle.std.specs.Prelude.{◌≡◌, ◌≤◌};
ghost use Rattle.alg_model.specs.Limits.{max_triple_patterns, max_optionals, max_groups};
ghost use Rattle.sparql_parse.specs.computed.Faults.{limit_among};
ghost use Rattle.sparql_parse.specs.computed.Symbols.{counts_with, tally_after};

use crate::fault::QueryFault;
use alg_model::{MAX_GROUPS, MAX_OPEN_GROUPS, MAX_OPTIONALS, MAX_TRIPLE_PATTERNS, MAX_VARIABLES};
use query_grammar::Role;

/// How many triple patterns, OPTIONALs and groups there are.
#[derive(Clone, Copy, Debug)]
pub(crate) struct Tally {
    pub(crate) objects: usize,
    pub(crate) optionals: usize,
    pub(crate) groups: usize,
}

impl Tally {
    /// The same with one token more, in this role.
    pub(crate) fn after(self, role: Role) -> Tally
        requires objects { self.objects ≤ max_triple_patterns }
        requires optionals { self.optionals ≤ max_optionals }
        requires groups { self.groups ≤ max_groups }
        ensures { result ≡ tally_after self role }
    {
        let mut tally = self;
        match role {
            Role::Object => tally.objects += 1,
            Role::Optional => tally.optionals += 1,
            Role::Open => tally.groups += 1,
            _ => {}
        }
        tally
    }

    /// The fault of a token that makes the counts so, with these many names and open groups: the first
    /// limit that is passed.
    pub(crate) fn fault(self, names: usize, depth: usize, at: usize) -> Option<QueryFault>
        ensures { result ≡ limit_among at (counts_with names self depth) }
    {
        if names > MAX_VARIABLES {
            return Some(QueryFault::TooManyVariables { at });
        }
        if self.objects > MAX_TRIPLE_PATTERNS {
            return Some(QueryFault::TooManyPatterns { at });
        }
        if self.optionals > MAX_OPTIONALS {
            return Some(QueryFault::TooManyOptionals { at });
        }
        if depth > MAX_OPEN_GROUPS {
            return Some(QueryFault::TooDeep { at });
        }
        if self.groups > MAX_GROUPS {
            return Some(QueryFault::TooManyGroups { at });
        }
        None
    }
}
