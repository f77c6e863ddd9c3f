//! The commands that were read, the productions that they add, and whether a declaration after them would be late.
ghost use Rattle.std.specs.Prelude.{◌≡◌, ◌++◌, ◌∷◌, [], OnErr, OnOk};
ghost use Rattle.std.specs.List.{list_all};
ghost use Rattle.ops_grammar.specs.Grammar.{precedes_classes, precedes_rules, added_by, has_title};
ghost use Rattle.ops_check.specs.Titles.{name_added, noted};

use ops_base::commands::Command;
use ops_base::memory::OutOfMemory;
use ops_base::values::Sym;
use ops_forms::Declared;
use std::alloc::Global;
use std::marker::Model;

/// The commands that were read, in order. The names of the productions that they add, and what may still come after
/// them, are kept, so that no search through the commands is needed.
#[derive(Drop)]
pub(crate) struct GivenCommands {
    list: Vec<Command>,
    added: Declared<Sym>,
    /// Whether a declaration may come after each of them.
    before_classes: bool,
    /// Whether a production of those at the beginning may come after each of them.
    before_rules: bool,
}

impl Model for GivenCommands {
    ghost use Rattle.std.specs.Prelude.{◌≡◌, List};
    ghost use Rattle.std.specs.List.{list_all};
    ghost use Rattle.std.specs.Coded.{codes};
    ghost use Rattle.ops_base.specs.ExpressionCode.{formula_code};
    ghost use Rattle.ops_base.specs.declared.commands.Command.{Command};
    ghost use Rattle.ops_grammar.specs.Grammar.{precedes_classes, precedes_rules};
    ghost use Rattle.ops_check.specs.Titles.{names_added};

    ghost Value = { List Command };

    ghost coded = { Prim.hlevel (codes, formula_code) };

    ghost view = { λ g. g.list.items };

    ghost invariant = { λ g. (g.before_classes ≡ list_all precedes_classes g.list.items) × (g.before_rules ≡ list_all precedes_rules g.list.items) × (g.added ≡ names_added g.list.items) };
}

impl GivenCommands {
    pub(crate) fn new(alloc: Global) -> GivenCommands
        ensures { result ≡ [] }
    {
        GivenCommands {
            list: Vec::new(alloc),
            added: Declared::new(alloc),
            before_classes: true,
            before_rules: true,
        }
    }

    /// If memory runs out, nothing has changed.
    #[tactic(auto, using(crate::proofs::Titles::names_pushed))]
    pub(crate) fn push(&mut self, command: Command) -> Result<(), OutOfMemory>
        ensures ok { OnOk result (self.new ≡ self.old ++ command ∷ []) }
        ensures err { OnErr result (self.new ≡ self.old) }
    {
        let before_classes = self.before_classes && precedes_classes(&command);
        let before_rules = self.before_rules && precedes_rules(&command);
        let name = name_added(&command);
        self.list.push(command)?;
        match note(&mut self.added, name) {
            Ok(()) => {
                self.before_classes = before_classes;
                self.before_rules = before_rules;
                Ok(())
            }
            Err(error) => {
                self.list.pop();
                Err(error)
            }
        }
    }

    // whether a class may be declared after each of the commands
    pub(crate) fn may_declare(&self) -> bool
        ensures { result ≡ list_all precedes_classes self.now }
    {
        self.before_classes
    }

    // whether a production after each of them is one of those at the beginning
    pub(crate) fn is_beginning(&self) -> bool
        ensures { result ≡ list_all precedes_rules self.now }
    {
        self.before_rules
    }

    // whether one of them adds a production with that name
    pub(crate) fn adds(&self, name: Sym) -> bool
        ensures { result ≡ has_title name (added_by self.now) }
    {
        self.added.place_of(name).is_some()
    }

    pub(crate) fn into_vec(self) -> Vec<Command>
        ensures { result.items ≡ self }
    {
        self.list
    }
}

// whether a class may be declared after this command
fn precedes_classes(command: &Command) -> bool
    ensures { result ≡ precedes_classes command.now }
{
    !matches!(
        command,
        Command::Make { .. } | Command::Run { .. } | Command::Ppwm { .. } | Command::Add { .. }
    )
}

// whether a production after this command may be one of those at the beginning
fn precedes_rules(command: &Command) -> bool
    ensures { result ≡ precedes_rules command.now }
{
    !matches!(
        command,
        Command::Make { .. } | Command::Run { .. } | Command::Add { .. }
    )
}

// the name of the production that a command adds
fn name_added(command: &Command) -> Option<Sym>
    ensures { result ≡ name_added command.now }
{
    match command {
        Command::Add { rule } => Some(rule.name),
        _ => None,
    }
}

// If memory runs out, nothing has changed.
fn note(names: &mut Declared<Sym>, name: Option<Sym>) -> Result<(), OutOfMemory>
    ensures ok { OnOk result (names.new ≡ noted names.old name) }
    ensures err { OnErr result (names.new ≡ names.old) }
{
    match name {
        Some(name) => names.push(name),
        None => Ok(()),
    }
}
