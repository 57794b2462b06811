//! Laws of what tokens stand for, for all tokens: it is what their rules say.
ghost use Rattle.std.specs.Prelude.{◌≡◌, ◌↔◌, ◌⊎◌, ℕ, IsTrue, All, List, [], ◌∷◌, ◌++◌, map};
ghost use Rattle.std.specs.Char.{to_ascii_lowercase};
ghost use Rattle.std.specs.List.{concat};
ghost use Rattle.std.specs.Str.{chars, all_scalars, encode_utf8_all, IsUtf8};
ghost use Rattle.bm_term.specs.Canonical.{IsLowerTag, IsTerm, RdfTerm};
ghost use Rattle.rdf_text.specs.Marks.{at_sign, colon};
ghost use Rattle.rdf_escapes.specs.Iris.{IsIriRef};
ghost use Rattle.rdf_escapes.specs.Strings.{is_quote, IsString};
ghost use Rattle.query_tokens.specs.PrefixedNames.{IsPrefixName, SpellsLocal};
ghost use Rattle.query_tokens.specs.Token.{Lexeme};
ghost use Rattle.query_tokens.specs.Tokens.{AreTokens};
ghost use Rattle.query_tokens.specs.Variables.{is_variable_mark};
ghost use Rattle.query_tokens.specs.declared.token.TokenKind.TheVariants as kinds;
ghost use Rattle.query_values.specs.Iris.{SpellsIri, SpellsPrefix, SpellsPrefixed};
ghost use Rattle.query_values.specs.Literals.{SpellsBoolean, SpellsLexical, SpellsNumber, SpellsTag};
ghost use Rattle.query_values.specs.Variables.{SpellsVariable};
ghost use Rattle.query_values.specs.reading.Values.{IsSpelled, IsSpelledOrBad, AreIriChars, iri_of, prefix_of, local_of, lexical_of, tag_of, name_of, plain_literal, tagged_literal, typed_literal, number_literal, boolean_literal, type_iri};

/// Each token of a source is a text of the rule of its kind, but the one that is bad.
pub fn tokens_are_spelled()
    ensures { (source : List ℕ) (tokens : List Lexeme) → IsUtf8 source → AreTokens source tokens →
        All IsSpelledOrBad tokens }
{}

/// An IRI in brackets stands for the IRI that it spells. All its characters may stand in an IRI.
pub fn iris_stand_for_what_they_spell()
    ensures spells { (token : Lexeme) (iri : List ℕ) → IsIriRef (chars token.text) iri → iri_of token ≡ iri }
    ensures rule { (token : Lexeme) → IsSpelled token → token.kind ≡ kinds.Iri → (iri : List ℕ) → SpellsIri token iri ↔ (iri_of token ≡ iri) }
    ensures characters { (token : Lexeme) → AreIriChars (iri_of token) }
{}

/// A string stands for the lexical form that it spells.
pub fn strings_stand_for_what_they_spell()
    ensures spells { (token : Lexeme) (mark : ℕ) (lexical : List ℕ) → IsTrue (is_quote mark) →
        IsString mark (chars token.text) lexical → lexical_of token ≡ lexical }
    ensures rule { (token : Lexeme) → IsSpelled token → token.kind ≡ kinds.Quoted → (lexical : List ℕ) → SpellsLexical token lexical ↔ (lexical_of token ≡ lexical) }
    ensures characters { (token : Lexeme) → IsTrue (all_scalars (lexical_of token)) }
{}

/// The prefix of a prefixed name, or of a prefix with its colon, is what stands before the colon.
pub fn prefixes_stand_before_the_colon()
    ensures spells { (token : Lexeme) (name local : List ℕ) → (name ≡ []) ⊎ IsPrefixName name →
        chars token.text ≡ name ++ colon ∷ local → prefix_of token ≡ name }
    ensures rule { (token : Lexeme) → IsSpelled token → token.kind ≡ kinds.Prefix → (prefix : List ℕ) → SpellsPrefix token prefix ↔ (prefix_of token ≡ prefix) }
{}

/// A prefixed name stands for the local name that it spells. All its characters may stand in an IRI.
pub fn local_names_stand_for_what_they_spell()
    ensures spells { (token : Lexeme) (name local : List ℕ) (values : List (List ℕ)) → (name ≡ []) ⊎ IsPrefixName name →
        SpellsLocal local values → chars token.text ≡ name ++ colon ∷ local → local_of token ≡ concat values }
    ensures rule { (token : Lexeme) → IsSpelled token → token.kind ≡ kinds.Prefixed → (prefix local : List ℕ) →
        SpellsPrefixed token prefix local ↔ ((prefix_of token ≡ prefix) × (local_of token ≡ local)) }
    ensures characters { (token : Lexeme) → IsSpelled token → token.kind ≡ kinds.Prefixed → AreIriChars (local_of token) }
{}

/// A language tag stands for itself in lower case, without its mark.
pub fn tags_stand_for_themselves_in_lower_case()
    ensures spells { (token : Lexeme) (tag : List ℕ) → chars token.text ≡ at_sign ∷ tag → tag_of token ≡ map to_ascii_lowercase tag }
    ensures rule { (token : Lexeme) → IsSpelled token → token.kind ≡ kinds.Tag → (tag : List ℕ) → SpellsTag token tag ↔ (tag_of token ≡ tag) }
    ensures lower { (token : Lexeme) → IsSpelled token → token.kind ≡ kinds.Tag → IsLowerTag (tag_of token) }
{}

/// A variable has the name that comes after its mark, whichever mark that is.
pub fn variables_are_named_after_their_mark()
    ensures spells { (token : Lexeme) (mark : ℕ) (name : List ℕ) → IsUtf8 token.text → IsTrue (is_variable_mark mark) →
        chars token.text ≡ mark ∷ name → name_of token ≡ encode_utf8_all name }
    ensures rule { (token : Lexeme) → IsSpelled token → token.kind ≡ kinds.Variable → (name : List ℕ) → SpellsVariable token name ↔ (name_of token ≡ name) }
{}

/// A number stands for its text with the datatype of its kind, and `true` and `false` for themselves in lower case.
pub fn numbers_and_truth_values_are_typed()
    ensures number { (token : Lexeme) (literal : RdfTerm) → SpellsNumber token literal → number_literal token ≡ literal }
    ensures boolean { (token : Lexeme) (literal : RdfTerm) → SpellsBoolean token literal → boolean_literal token ≡ literal }
{}

/// What the tokens of literals stand for are terms.
pub fn literals_are_terms()
    ensures plain { (string : Lexeme) → IsTerm (plain_literal string) }
    ensures tagged { (string tag : Lexeme) → IsSpelled tag → tag.kind ≡ kinds.Tag → IsTerm (tagged_literal string tag) }
    ensures typed { (string : Lexeme) (datatype : List ℕ) → AreIriChars datatype → IsTerm (typed_literal string datatype) }
    ensures number { (token : Lexeme) → IsSpelled token → IsTerm (number_literal token) }
    ensures boolean { (token : Lexeme) → IsSpelled token → IsTerm (boolean_literal token) }
    ensures word { IsTerm type_iri }
{}
