//! Laws of the grammar, about the definitions alone. Each is the contract of a function that does nothing.
ghost use Rattle.std.specs.Prelude.{◌≡◌, true, List};
ghost use Rattle.ops_base.specs.declared.elements.Class.{Class};
ghost use Rattle.ops_base.specs.declared.rules.Rule.{Rule};
ghost use Rattle.ops_base.specs.declared.commands.Command.{Command};
ghost use Rattle.ops_grammar.specs.Derivation.{IsText};
ghost use Rattle.ops_grammar.specs.Spelling.{is_plain, spelled_program};
ghost use Rattle.ops_grammar.specs.Standing.{words_of, outcome_of, IsReadOrInForm, AreRead};

/// The words of a text of the grammar are either read, or one of them is refused inside a form: for a name or a
/// variable that is unknown, for one that is known already, for its order or for a limit. No word is refused because no
/// form can continue with it, and none because a bracket is missing.
pub fn grammar_is_read(text: &[u8])
    ensures { IsText (words_of text.now) → IsReadOrInForm (outcome_of (words_of text.now)) }
{}

/// Each program of the language has a spelling in words, and its spelling is read as that program.
pub fn spelling_is_read_back()
    ensures { (classes : List Class) (rules templates : List Rule) (commands : List Command) → is_plain classes rules templates commands ≡ true
        → AreRead (spelled_program classes rules templates commands) classes rules templates commands }
{}
