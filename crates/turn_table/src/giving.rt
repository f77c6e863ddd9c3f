//! Releasing a cell, with or without a new entry.
ghost use Rattle.std.specs.Prelude.{◌≡◌, ◌+◌, ◌*◌, ◌^◌, ◌<◌, ◌++◌, List, [], ◌∷◌, length};
ghost use Rattle.std.specs.List.{All};
ghost use Rattle.turn_table.specs.Log.{MaySign};
ghost use Rattle.turn_table.specs.Views.{after_turn};
ghost use Rattle.turn_table.specs.Turns.{IsPassOf, IsTurnOf, knows, number, value, claimed_value, turn_cell, turn_knows, turn_number};

use crate::cells::Cells;
use crate::kept::Kept;
use crate::passes::Pass;
use crate::plays::LetGo;
use crate::turns::Turn;

impl<T: Kept> Cells<T> {
    // Puts the value home and stores this word.
    fn let_go(&self, turn: Turn<T>, word: u64) -> Pass<T>
        requires turn { IsTurnOf T.entries self.now turn }
        requires name { T.name (value turn) ≡ T.name (claimed_value turn) }
        requires entries { (new : List T.Entry) × (T.entries (value turn) ≡ T.entries (claimed_value turn) ++ new) × All (MaySign T.signature (turn_number turn)) new }
        requires word { word ≡ 2 * length (T.entries (value turn)) }
        ensures pass { IsPassOf self.now result }
        ensures number { number result ≡ turn_number turn }
        ensures knows { knows result ≡ after_turn T.entries (turn_knows turn) (turn_cell turn) (claimed_value turn) (value turn) }
    {
        let Turn {
            mut seat,
            counts,
            cell,
            word: _,
            value,
            was: _,
        } = turn;
        let None = self.table.shared.exchange(&mut seat, cell, Some(value)) else {
            unreachable!()
        };
        self.table.shared.store::<LetGo<T>>(&mut seat, cell, word);
        Pass { seat, counts }
    }

    /// Gives the value back to its cell with one more entry, which is in the log from then on. It takes one atomic
    /// step and no memory.
    pub fn give(&self, turn: Turn<T>) -> Pass<T>
        requires turn { IsTurnOf T.entries self.now turn }
        requires name { T.name (value turn) ≡ T.name (claimed_value turn) }
        requires room { length (T.entries (value turn)) < 2 ^ 63 }
        requires entry { (new : T.Entry) × (T.entries (value turn) ≡ T.entries (claimed_value turn) ++ new ∷ []) × MaySign T.signature (turn_number turn) new }
        ensures pass { IsPassOf self.now result }
        ensures number { number result ≡ turn_number turn }
        ensures made { (new : T.Entry) → T.entries (value turn) ≡ T.entries (claimed_value turn) ++ new ∷ [] → (knows result).own ≡ (turn_knows turn).own ++ record { pass = turn_number turn; cell = turn_cell turn; entry = new } ∷ [] }
        ensures knows { knows result ≡ after_turn T.entries (turn_knows turn) (turn_cell turn) (claimed_value turn) (value turn) }
    {
        let word = turn.word + 2;
        self.let_go(turn, word)
    }

    /// Gives the value back to its cell with the entries that it had; nothing is added to the log. It takes one
    /// atomic step and no memory.
    pub fn give_back(&self, turn: Turn<T>) -> Pass<T>
        requires turn { IsTurnOf T.entries self.now turn }
        requires name { T.name (value turn) ≡ T.name (claimed_value turn) }
        requires list { T.entries (value turn) ≡ T.entries (claimed_value turn) }
        ensures pass { IsPassOf self.now result }
        ensures number { number result ≡ turn_number turn }
        ensures none_made { (knows result).own ≡ (turn_knows turn).own }
        ensures knows { knows result ≡ after_turn T.entries (turn_knows turn) (turn_cell turn) (claimed_value turn) (value turn) }
    {
        let word = turn.word;
        self.let_go(turn, word)
    }
}
