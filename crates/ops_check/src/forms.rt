//! The forms of a program text.
ghost use Rattle.std.specs.Prelude.{◌≡◌, MatchOption, [], ◌∷◌};
ghost use Rattle.ops_grammar.specs.Grammar.{Form};
ghost use Rattle.ops_forms.specs.WordWalks.{Reads, IsWithin};
ghost use Rattle.ops_check.specs.Walks.{view, ReadsAll};

use crate::draft::Draft;
use ops_base::endings::Fault;
use ops_forms::kinds::is_left;
use ops_forms::refusals::{Refusal, first_of, refused};
use ops_grammar::{Keyword, Word};

impl Draft {
    // form*
    #[tactic(auto, unfolding(ops_grammar::specs::Grammar::goes, ops_grammar::specs::Grammar::step, ops_grammar::specs::Grammar::ends))]
    pub(crate) fn forms(&mut self, words: &[Word]) -> Result<(), Refusal>
        ensures { ReadsAll (view self.old) (view self.new) words.now result }
    {
        let mut rest = words;
        'forms: loop {
            let Some((word, after)) = next_of(rest) else {
                return Ok(());
            };
            if !is_left(word.kind) {
                return refused(Fault::Stray, word);
            }
            self.first = word.first;
            rest = self.form(after)?;
        }
    }

    // literalize NAME NAME* ) | vector-attribute NAME NAME* )
    // | p NAME first condition* --> action* )
    // | make CLASS fixed* ) | remove NAT NAT* ) | remove * )
    // | run [NAT] ) | wm NAT* ) | ppwm ) | ppwm CLASS fixed* ) | cs ) | pm NAME NAME* )
    // | strategy ) | strategy lex ) | strategy mea ) | watch ) | watch 0 ) | watch 1 ) | watch 2 ) | pbreak NAME* )
    // | excise NAME NAME* ) | matches NAME NAME* ) | back [UNDONE] ) | exit )
    #[tactic(auto, unfolding(ops_grammar::specs::Grammar::goes, ops_grammar::specs::Grammar::step, ops_grammar::specs::Grammar::ends))]
    fn form<'a>(&mut self, words: &'a [Word]) -> Result<&'a [Word], Refusal>
        ensures reads { Reads Form (view self.old) (view self.new) words.now result }
        ensures within { IsWithin words.now result }
    {
        let (word, rest) = first_of(words)?;
        match word.keyword {
            Keyword::Literalize => {
                if !self.may_declare() {
                    return refused(Fault::LateDeclaration, word);
                }
                self.declaration(rest)
            }
            Keyword::VectorAttribute => {
                if !self.may_declare() {
                    return refused(Fault::LateDeclaration, word);
                }
                self.vector_declaration(rest)
            }
            Keyword::Production => self.production(rest),
            Keyword::Make => self.make(rest),
            Keyword::Remove => self.remove(rest),
            Keyword::Run => self.run(rest),
            Keyword::Wm => self.wm(rest),
            Keyword::Ppwm => self.ppwm(rest),
            Keyword::Cs => self.cs(rest),
            Keyword::Pm => self.pm(rest),
            Keyword::Strategy => self.strategy(rest),
            Keyword::Watch => self.watch(rest),
            Keyword::Pbreak => self.pbreak(rest),
            Keyword::Excise => self.excise(rest),
            Keyword::Matches => self.matches(rest),
            Keyword::Back => self.back(rest),
            Keyword::Exit => self.exit(rest),
            _ => refused(Fault::UnknownCommand, word),
        }
    }
}

fn next_of(words: &[Word]) -> Option<(Word, &[Word])>
    ensures { MatchOption result (words.now ≡ []) (λ x. words.now ≡ x.0 ∷ x.1.now) }
{
    match words {
        [] => None,
        [word, rest @ ..] => Some((*word, rest)),
    }
}
