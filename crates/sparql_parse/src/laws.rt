//! Laws of the reading of queries. The calls do nothing: their contracts are the laws.
ghost use Rattle.std.specs.Prelude.{◌≡◌, ◌↔◌, ◌⊎◌, ◌≤◌, ℕ, List, Ok, Err, length};
ghost use Rattle.alg_model.specs.Limits.{max_variables, PatternKeepsLimits};
ghost use Rattle.alg_model.specs.Query.{AbstractQuery};
ghost use Rattle.sparql_parse.specs.declared.fault.QueryFault.{QueryFault};
ghost use Rattle.sparql_parse.specs.Denotes.{Denotes, IsFaultOf};
ghost use Rattle.sparql_parse.specs.computed.Reading.{query_reading};

/// What is read of a text, token by token, is exactly the query that the text denotes by the grammar, or
/// exactly its first fault.
pub fn what_is_read_is_what_is_denoted()
    ensures query { (text : List ℕ) (query : AbstractQuery) → (query_reading text ≡ Ok query) ↔ Denotes text query }
    ensures fault { (text : List ℕ) (fault : QueryFault) → (query_reading text ≡ Err fault) ↔ IsFaultOf text fault }
{}

/// Each text denotes one query or has one fault, and never both.
pub fn a_text_denotes_one_query_or_has_one_fault()
    ensures some { (text : List ℕ) → ((query : AbstractQuery) × Denotes text query) ⊎ ((fault : QueryFault) × IsFaultOf text fault) }
    ensures one_query { (text : List ℕ) (query other : AbstractQuery) → Denotes text query → Denotes text other → query ≡ other }
    ensures one_fault { (text : List ℕ) (fault other : QueryFault) → IsFaultOf text fault → IsFaultOf text other → fault ≡ other }
    ensures not_both { (text : List ℕ) (query : AbstractQuery) (fault : QueryFault) → Denotes text query → ¬ IsFaultOf text fault }
{}

/// A query that a text denotes keeps the limits.
pub fn a_query_that_is_denoted_keeps_the_limits()
    ensures names { (text : List ℕ) (query : AbstractQuery) → Denotes text query → length query.names ≤ max_variables }
    ensures pattern { (text : List ℕ) (query : AbstractQuery) → Denotes text query → PatternKeepsLimits (length query.names) query.pattern }
{}
