//! Laws of the code of statements, of functions and of whole texts.

ghost use Rattle.std.specs.Prelude.{◌≡◌, ℕ, ◌*◌, ◌≤◌, List, length, Option, None, false};
ghost use Rattle.bop_bits.specs.declared.map.TheConstants.{CODE_WORDS};
ghost use Rattle.c_tree.specs.Accepted.{text_fault};
ghost use Rattle.c_tree.specs.Fun.{Fun};
ghost use Rattle.c_tree.specs.Item.{Item};
ghost use Rattle.c_tree.specs.Stmt.{Stmt, Stmts};
ghost use Rattle.c_tree.specs.Ty.{Ty};
ghost use Rattle.c_layout.specs.Frames.{frames};
ghost use Rattle.c_layout.specs.Laid.{is_data_too_large, first_too_large};
ghost use Rattle.c_semantics.specs.Evaluated.{IsRunnable};
ghost use Rattle.c_semantics.specs.Names.{Names, Definition};
ghost use Rattle.low_labels.specs.Closed.{place_in, words_of};
ghost use Rattle.low_labels.specs.Operation.{width_of};
ghost use Rattle.low_labels.specs.Placed.{HasAt};
ghost use Rattle.low_stmt.specs.declared.count.TheConstants.{MOST_PARTS};
ghost use Rattle.low_stmt.specs.CodeBound.{count_text};
ghost use Rattle.low_stmt.specs.DefinedOnce.{AreDefinedOnce};
ghost use Rattle.low_stmt.specs.FittingTexts.{TextFits};
ghost use Rattle.low_stmt.specs.ParsedTexts.{IsParsedText};
ghost use Rattle.low_stmt.specs.FunReadiness.{IsReadyFun};
ghost use Rattle.low_stmt.specs.FunSimulation.{IsSimulatedFun};
ghost use Rattle.low_stmt.specs.StmtReadiness.{IsReadyStmt};
ghost use Rattle.low_stmt.specs.StmtSimulation.{IsSimulatedStmt};
ghost use Rattle.low_stmt.specs.TextCode.{names_in, text_code, emitted};
ghost use Rattle.low_stmt.specs.TextReadiness.{IsReadyText};
ghost use Rattle.low_stmt.specs.TextSimulation.{IsSimulatedText, DoesWhatIsMeant};

/// The code of a statement that is ready does what the statement means, where the code of each
/// function does for calls that begin with fewer steps.
pub fn code_does_what_the_statement_means()
    ensures { (functions : List ℕ → ℕ) (defined : List ℕ → Option Definition) (room top : ℕ)
        (result : Ty) (names : Names) (places : List ℕ) (s : Stmt)
        → IsReadyStmt defined room top result names places s
        → IsSimulatedStmt functions defined room top result names places s }
{}

/// The code of a function that is ready does what its calls mean, with the same premise.
pub fn code_does_what_the_function_means()
    ensures { (functions : List ℕ → ℕ) (defined : List ℕ → Option Definition)
        (text : List Item) (f : Fun) (body : Stmts) → IsReadyFun defined (names_in text) f body
        → IsSimulatedFun functions defined text f body }
{}

/// The program of a text that is ready does what the text means, at each moment and to its end.
pub fn a_text_does_what_it_means()
    ensures steps { (text : List Item) → IsReadyText text → IsSimulatedText text }
    ensures meaning { (text : List Item) → IsReadyText text → DoesWhatIsMeant text }
{}

/// The code has at most 32 words for each node, statement, declarator, parameter and function.
pub fn each_part_has_few_words()
    ensures { (text : List Item) → IsReadyText text
        → width_of (text_code text) ≤ 32 * count_text text }
{}

/// A text that can be run is ready, where its names, numbers, declarations and markers fit.
pub fn a_runnable_text_is_ready()
    ensures { (text : List Item) → IsRunnable text → TextFits text → IsReadyText text }
{}

/// In the words of a text's code each operation is at its place, and the words are as many as code
/// may have, where the text is ready and hasn't too many parts.
pub fn closed_code_of_a_text()
    ensures operations { (text : List Item) → IsReadyText text → AreDefinedOnce text
        → count_text text ≤ MOST_PARTS
        → HasAt (words_of (emitted text)) (place_in (emitted text).places) 0 (text_code text) }
    ensures short { (text : List Item) → IsReadyText text → count_text text ≤ MOST_PARTS
        → length (words_of (emitted text)) ≤ CODE_WORDS }
{}

/// The functions of a text without a fault are defined once.
pub fn an_accepted_text_defines_once()
    ensures { (text : List Item) → text_fault text ≡ None → AreDefinedOnce text }
{}

/// A text that tokens spell, and that has no fault and a layout, is ready.
pub fn an_accepted_text_is_ready()
    ensures { (text : List Item) → IsParsedText text → text_fault text ≡ None
        → is_data_too_large text ≡ false → first_too_large (frames text) ≡ None
        → IsReadyText text }
{}
