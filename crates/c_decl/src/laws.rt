//! Laws of the grammar of texts.

ghost use Rattle.std.specs.Prelude.{◌≡◌, List, codes, Result};
ghost use Rattle.c_tree.specs.Item.{Item};
ghost use Rattle.c_token.specs.declared.token.Token.{Token};
ghost use Rattle.c_expr.specs.declared.fault.ParseFault.{ParseFault};
ghost use Rattle.c_expr.specs.Leveled.{Leveled, tokens_of};
ghost use Rattle.c_expr.specs.Parsing.{Agrees};
ghost use Rattle.c_decl.specs.declared.reserved.TheConstants.{BEGIN_PPR, BOP_CHECKED, BOP_PRIVATE, BREAK, CONTINUE, DO, ELSE, END_PPR, FOR, IF, POST, RETURN, VOID, WAIT, WHILE};
ghost use Rattle.c_decl.specs.Units.{IsUnit};
ghost use Rattle.c_decl.specs.Whole.{ParsedWhole};

/// A list of tokens has at most one tree of a text.
pub fn one_tree_of_a_text()
    ensures { (a b : List Leveled) (xs ys : List Item) → IsUnit a xs → IsUnit b ys
        → tokens_of a ≡ tokens_of b → xs ≡ ys }
{}

/// At most one answer fits a list of tokens.
pub fn one_answer_of_a_text()
    ensures { (ts : List Token) (o p : Result (List Item) ParseFault) → ParsedWhole IsUnit ts o
        → ParsedWhole IsUnit ts p → Agrees o p }
{}

/// How reserved words are written.
pub fn reserved_words_in_bytes()
    ensures void { VOID.now ≡ codes "void" }
    ensures if_ { IF.now ≡ codes "if" }
    ensures else_ { ELSE.now ≡ codes "else" }
    ensures while_ { WHILE.now ≡ codes "while" }
    ensures do_ { DO.now ≡ codes "do" }
    ensures for_ { FOR.now ≡ codes "for" }
    ensures return_ { RETURN.now ≡ codes "return" }
    ensures break_ { BREAK.now ≡ codes "break" }
    ensures continue_ { CONTINUE.now ≡ codes "continue" }
    ensures bop_checked { BOP_CHECKED.now ≡ codes "BOP_CHECKED" }
    ensures bop_private { BOP_PRIVATE.now ≡ codes "BOP_PRIVATE" }
    ensures begin_ppr { BEGIN_PPR.now ≡ codes "BeginPPR" }
    ensures end_ppr { END_PPR.now ≡ codes "EndPPR" }
    ensures wait { WAIT.now ≡ codes "Wait" }
    ensures post { POST.now ≡ codes "Post" }
{}
