//! Laws of tokens, for all texts.
ghost use Rattle.std.specs.Prelude.{◌≡◌, ℕ, List};
ghost use Rattle.query_tokens.specs.declared.token.TokenKind.{TokenKind};
ghost use Rattle.query_tokens.specs.Token.{IsToken, Lexeme};
ghost use Rattle.query_tokens.specs.Tokens.{AreTokens};

/// A text is a token of one kind at most.
pub fn a_text_is_of_one_kind()
    ensures { (kind other : TokenKind) (text : List ℕ) → IsToken kind text → IsToken other text → kind ≡ other }
{}

/// The tokens of a source are one list.
pub fn a_source_has_one_list_of_tokens()
    ensures { (source : List ℕ) (tokens others : List Lexeme) → AreTokens source tokens → AreTokens source others → tokens ≡ others }
{}

/// Each source has its tokens.
pub fn each_source_has_tokens()
    ensures { (source : List ℕ) → (tokens : List Lexeme) × AreTokens source tokens }
{}
