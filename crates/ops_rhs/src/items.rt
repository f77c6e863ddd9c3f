//! What `write` prints.
ghost use Rattle.std.specs.Prelude.{◌≡◌, ◌∷◌, ◌++◌, drop, if◌then◌else◌};
ghost use Rattle.ops_grammar.specs.Grammar.{goes, value_for, is_left, column_item, ToItem, Items, ItemWord, Columns, Closes, EndsCrlf, EndsWhole, Next};
ghost use Rattle.ops_forms.specs.PlaceWalks.{GoesOn, IsFrom, CutGoesOn, goes_onward};
ghost use Rattle.ops_rhs.specs.Taking.{seen, column_of, Reads, Acts, ReadsAnywhere, CutActs, CutReads, CutReadsAnywhere};

use crate::right::{Around, Column, Right, Target};
use ops_base::actions::Item;
use ops_base::endings::Fault;
use ops_forms::Refusal;
use ops_forms::kinds::{is_left, is_right, small_of};
use ops_forms::refusals::refused;
use ops_forms::walking::{closing, first_of};
use ops_grammar::{Keyword, Word};

impl Right {
    // item* )
    #[tactic(auto, unfolding(ops_grammar::specs::Grammar::goes, ops_grammar::specs::Grammar::step, ops_grammar::specs::Grammar::ends, ops_forms::specs::PlaceWalks::goes_onward))]
    pub fn write(&mut self, around: &Around, words: &[Word], at: usize) -> Result<usize, Refusal>
        ensures reads { Reads around.now Items self.old self.new words.now at result }
        ensures cut { CutReads around.now Items self.old self.new words.now at result }
        ensures within { IsFrom at result }
    {
        let mut rest = at;
        'items: loop {
            let (word, after) = first_of(words, rest)?;
            if is_right(word.kind) {
                self.end_write()?;
                return Ok(after);
            }
            rest = self.item_from(around, word, words, after)?;
        }
    }

    // ( item in brackets | value, whose first word was already taken
    fn item_from(
        &mut self,
        around: &Around,
        word: Word,
        words: &[Word],
        at: usize,
    ) -> Result<usize, Refusal>
        ensures acts { Acts around.now (λ ws s. if is_left word.kind then Next (ItemWord ∷ ws) s else value_for ToItem word ws s) word self.old self.new words.now at result }
        ensures cut { CutActs around.now (λ ws s. if is_left word.kind then Next (ItemWord ∷ ws) s else value_for ToItem word ws s) word self.old self.new words.now at result }
        ensures within { IsFrom at result }
    {
        if is_left(word.kind) {
            return self.item_word(around, words, at);
        }
        self.value_from(around, Target::Item, word, words, at)
    }

    // crlf ) | tabto SMALL ) | rjust SMALL ) | function
    #[tactic(auto, unfolding(ops_grammar::specs::Grammar::goes, ops_grammar::specs::Grammar::step, ops_grammar::specs::Grammar::ends, ops_forms::specs::PlaceWalks::goes_onward))]
    fn item_word(&mut self, around: &Around, words: &[Word], at: usize) -> Result<usize, Refusal>
        ensures reads { Reads around.now ItemWord self.old self.new words.now at result }
        ensures cut { CutReads around.now ItemWord self.old self.new words.now at result }
        ensures within { IsFrom at result }
    {
        let (word, rest) = first_of(words, at)?;
        match word.keyword {
            Keyword::Crlf => self.crlf(words, rest),
            Keyword::Tabto => self.columns(Column::Tab, words, rest),
            Keyword::Rjust => self.columns(Column::Right, words, rest),
            _ => self.function_from(around, Target::Item, word, words, rest),
        }
    }

    // )
    fn crlf(&mut self, words: &[Word], at: usize) -> Result<usize, Refusal>
        ensures reads { ReadsAnywhere (Closes EndsCrlf) self.old self.new words.now at result }
        ensures cut { CutReadsAnywhere (Closes EndsCrlf) self.old self.new words.now at result }
        ensures within { IsFrom at result }
    {
        let rest = closing(words, at)?;
        self.add_item(Item::Crlf)?;
        Ok(rest)
    }

    // SMALL )
    fn columns(&mut self, column: Column, words: &[Word], at: usize) -> Result<usize, Refusal>
        ensures reads { GoesOn (λ more ws s. goes (drop at words.now ++ more) (Columns (column_of column) ∷ Closes EndsWhole ∷ ws) (seen s self.old)) words.now (λ s. seen s self.new) result }
        ensures cut { CutGoesOn (λ cut on ws s. goes_onward on (drop at cut) (Columns (column_of column) ∷ Closes EndsWhole ∷ ws) (seen s self.old)) words.now (λ s. seen s self.new) result }
        ensures within { IsFrom at result }
    {
        let rest = self.small(column, words, at)?;
        closing(words, rest)
    }

    // SMALL
    #[tactic(auto, unfolding(ops_grammar::specs::Grammar::goes, ops_grammar::specs::Grammar::step, ops_grammar::specs::Grammar::ends, ops_forms::specs::PlaceWalks::goes_onward))]
    fn small(&mut self, column: Column, words: &[Word], at: usize) -> Result<usize, Refusal>
        ensures reads { ReadsAnywhere (Columns (column_of column)) self.old self.new words.now at result }
        ensures cut { CutReadsAnywhere (Columns (column_of column)) self.old self.new words.now at result }
        ensures within { IsFrom at result }
    {
        let (word, rest) = first_of(words, at)?;
        let Some(columns) = small_of(word.kind) else {
            return refused(Fault::BadForm, word);
        };
        self.add_item(column_item(column, columns))?;
        Ok(rest)
    }
}

fn column_item(column: Column, columns: u16) -> Item
    ensures { result ≡ column_item (column_of column) columns }
{
    match column {
        Column::Tab => Item::TabTo(columns),
        Column::Right => Item::RightIn(columns),
    }
}
