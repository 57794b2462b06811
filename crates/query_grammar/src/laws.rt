// Laws between the grammar and the push parser. The calls do nothing: their contracts are the laws.
ghost use Rattle.std.specs.Prelude.{◌≡◌, ◌↔◌, ◌++◌, ◌∷◌, ◌⊎◌, [], ℕ, IsSome, List, Some, None};
ghost use Rattle.query_tokens.specs.Token.{Lexeme};
ghost use Rattle.query_grammar.specs.declared.expect.State.{State};
ghost use Rattle.query_grammar.specs.Terminals.{terminal_of};
ghost use Rattle.query_grammar.specs.Roles.{Labelled, open_groups, tokens_of};
ghost use Rattle.query_grammar.specs.Tree.{Syntax};
ghost use Rattle.query_grammar.specs.Grammar.{AreQuery, Begins, HasFaultAt, IsQuery};
ghost use Rattle.query_grammar.specs.Expecting.{
  IsReadToEnd,
  Progress,
  StopsAt,
  next_step,
  read_tokens,
  start,
};

/// The push parser reads exactly the queries of the grammar to their end, and gives each token the role
/// that it has in the query.
pub fn queries_are_read_to_their_end()
    ensures read { (tree : Syntax) (labelled : List Labelled) → IsQuery tree labelled → IsReadToEnd labelled }
    ensures spelled { (labelled : List Labelled) → IsReadToEnd labelled → (tree : Syntax) × IsQuery tree labelled }
{}

/// The grammar is unambiguous: tokens are a query in one way, with one role for each token and one
/// syntax tree.
pub fn tokens_have_one_tree()
    ensures roles { (tree other : Syntax) (labelled others : List Labelled) →
        IsQuery tree labelled → IsQuery other others → tokens_of labelled ≡ tokens_of others → labelled ≡ others }
    ensures tree { (tree other : Syntax) (labelled others : List Labelled) →
        IsQuery tree labelled → IsQuery other others → tokens_of labelled ≡ tokens_of others → tree ≡ other }
{}

/// The push parser reads exactly the tokens that begin some query; a token for which `next` gives
/// nothing begins none, together with those before it. What it reads has the roles of a query that it
/// begins.
pub fn beginnings_are_read()
    ensures exactly { (tokens : List Lexeme) → Begins tokens ↔ IsSome (read_tokens start tokens) }
    ensures refused { (tokens : List Lexeme) (token : Lexeme) (reading : Progress) →
        read_tokens start tokens ≡ Some reading → next_step reading.state (terminal_of token) ≡ None →
        ¬ Begins (tokens ++ token ∷ []) }
    ensures roles { (tree : Syntax) (labelled after : List Labelled) → IsQuery tree (labelled ++ after) →
        (state : State) × (read_tokens start (tokens_of labelled) ≡ Some (record { labelled = labelled; state = state })) }
{}

/// The fault of the grammar stands exactly where the push parser stops. Tokens are a query or have one
/// fault, and none have two.
pub fn the_fault_is_where_the_run_stops()
    ensures exactly { (tokens : List Lexeme) (i : ℕ) → HasFaultAt tokens i ↔ StopsAt tokens i }
    ensures some { (tokens : List Lexeme) → AreQuery tokens ⊎ ((i : ℕ) × HasFaultAt tokens i) }
    ensures none { (tokens : List Lexeme) (i : ℕ) → AreQuery tokens → ¬ HasFaultAt tokens i }
    ensures one { (tokens : List Lexeme) (i j : ℕ) → HasFaultAt tokens i → HasFaultAt tokens j → i ≡ j }
{}

/// A state counts the groups that the tokens after which it stands have opened and not closed.
pub fn open_groups_are_counted()
    ensures { (tokens : List Lexeme) (reading : Progress) →
        read_tokens start tokens ≡ Some reading → reading.state.groups ≡ open_groups reading.labelled }
{}
