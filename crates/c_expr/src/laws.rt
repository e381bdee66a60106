//! Laws of the grammar.

ghost use Rattle.std.specs.Prelude.{◌≡◌, ℕ, List, codes, Result};
ghost use Rattle.c_tree.specs.Expr.{Expr};
ghost use Rattle.c_token.specs.Signs.{padded};
ghost use Rattle.c_token.specs.declared.token.Token.{Token};
ghost use Rattle.c_expr.specs.declared.fault.ParseFault.{ParseFault};
ghost use Rattle.c_expr.specs.declared.keyword.TheConstants.{CHAR, END_OF_FILE, GETCHAR, INT, PUTCHAR, UNSIGNED};
ghost use Rattle.c_expr.specs.declared.level.TheConstants.{LEVELS};
ghost use Rattle.c_expr.specs.declared.punctuator.TheConstants.{BRACE_CLOSE, BRACE_OPEN, BRACKET_CLOSE, BRACKET_OPEN, COLON, COMMA, EQUALS, PARENTHESIS_CLOSE, PARENTHESIS_OPEN, QUESTION, SEMICOLON, STAR};
ghost use Rattle.c_expr.specs.Grammar.{IsAssign, IsCond};
ghost use Rattle.c_expr.specs.Leveled.{Leveled, tokens_of};
ghost use Rattle.c_expr.specs.Parsing.{Parsed, Agrees};

/// A list of tokens has at most one tree.
pub fn one_tree()
    ensures expression { (l : ℕ) (a b : List Leveled) (x y : Expr) → IsAssign l a x
        → IsAssign l b y → tokens_of a ≡ tokens_of b → x ≡ y }
    ensures conditional { (l : ℕ) (a b : List Leveled) (x y : Expr) → IsCond l a x → IsCond l b y
        → tokens_of a ≡ tokens_of b → x ≡ y }
{}

/// At most one answer fits a list of tokens.
pub fn one_answer()
    ensures expression { (l : ℕ) (ts : List Token) (o p : Result (Expr × List Token) ParseFault)
        → Parsed (IsAssign l) ts o → Parsed (IsAssign l) ts p → Agrees o p }
    ensures conditional { (l : ℕ) (ts : List Token) (o p : Result (Expr × List Token) ParseFault)
        → Parsed (IsCond l) ts o → Parsed (IsCond l) ts p → Agrees o p }
{}

/// The number of levels.
pub fn levels_in_numbers()
    ensures levels { LEVELS ≡ 201 }
{}

/// How signs are written.
pub fn signs_in_bytes()
    ensures parenthesis_open { PARENTHESIS_OPEN ≡ padded (codes "(") }
    ensures parenthesis_close { PARENTHESIS_CLOSE ≡ padded (codes ")") }
    ensures bracket_open { BRACKET_OPEN ≡ padded (codes "[") }
    ensures bracket_close { BRACKET_CLOSE ≡ padded (codes "]") }
    ensures brace_open { BRACE_OPEN ≡ padded (codes "{") }
    ensures brace_close { BRACE_CLOSE ≡ padded (codes "}") }
    ensures comma { COMMA ≡ padded (codes ",") }
    ensures semicolon { SEMICOLON ≡ padded (codes ";") }
    ensures question { QUESTION ≡ padded (codes "?") }
    ensures colon { COLON ≡ padded (codes ":") }
    ensures equals { EQUALS ≡ padded (codes "=") }
    ensures star { STAR ≡ padded (codes "*") }
{}

/// How reserved words are written.
pub fn words_in_bytes()
    ensures int { INT.now ≡ codes "int" }
    ensures char { CHAR.now ≡ codes "char" }
    ensures unsigned { UNSIGNED.now ≡ codes "unsigned" }
    ensures end_of_file { END_OF_FILE.now ≡ codes "EOF" }
    ensures getchar { GETCHAR.now ≡ codes "getchar" }
    ensures putchar { PUTCHAR.now ≡ codes "putchar" }
{}
