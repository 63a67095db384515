//! What holds of the tokens of every line, each law as the contract of a function that does nothing.
ghost use Rattle.std.specs.Prelude.{◌≡◌, ℕ, List, ◌++◌, Some};
ghost use Rattle.std.specs.List.{flat_map};
ghost use Rattle.uts_lex.specs.Lexemes.{Lexeme, put_before, front_lexeme, lexemes_of};
ghost use Rattle.uts_lex.specs.Spelling.{IsLexeme, EndsBefore, IsLongest, visible_bytes};

/// A well spelled token is read again, before the tokens of what stands behind it.
#[tactic(auto, using(crate::proofs::Readings::token_read))]
pub fn token_is_read_again()
    ensures { (token : Lexeme) (rest : List ℕ) → IsLexeme token → EndsBefore token.kind token.bytes rest
        → lexemes_of (token.bytes ++ rest) ≡ put_before token (lexemes_of rest) }
{}

/// The tokens of a line are its bytes but for blanks and a comment, in their order.
#[tactic(auto, using(crate::proofs::Coverings::tokens_cover))]
pub fn no_byte_is_lost()
    ensures { (line : List ℕ) (tokens : List Lexeme) → lexemes_of line ≡ Some tokens
        → flat_map (λ token. token.bytes) tokens ≡ visible_bytes line }
{}

/// The token at the front of some bytes is the longest that is well spelled there.
pub fn token_is_the_longest()
    ensures { (bytes : List ℕ) (token : Lexeme) → front_lexeme bytes ≡ Some token
        → IsLongest token bytes }
{}
