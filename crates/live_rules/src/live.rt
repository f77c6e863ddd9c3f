//! `Live`, the program in force.
ghost use Rattle.std.specs.Prelude.{◌≡◌, ◌++◌, ◌∷◌, [], length, IsTrue, IfOk, OnOk, OnErr};
ghost use Rattle.ops_base.specs.Valid.{rule_builds_from, rule_is_valid};
ghost use Rattle.ops_meaning.specs.Running.{rule_named, without_named};
ghost use Rattle.live_rules.specs.Moves.{IsWith, places_moved_any, without_any};

use crate::moved::Moved;
use ops_base::commands::Command;
use ops_base::list::Listed;
use ops_base::memory::OutOfMemory;
use ops_base::programs::Program;
use ops_base::rules::Rule;
use ops_base::values::Sym;
use std::alloc::Global;
use std::mem;

/// The program in force: it has exactly the productions that are in force.
#[derive(Drop)]
pub struct Live {
    pub program: Program,
    alloc: Global,
}

fn no_program(alloc: Global) -> Program {
    Program::new(
        Listed::new(alloc),
        Listed::new(alloc),
        Listed::new(alloc),
        Listed::new(alloc),
        Listed::new(alloc),
    )
}

/// The number of the production with this name. Searches the productions one after the other.
pub fn rule_named(rules: &[Rule], name: Sym) -> Option<usize>
    ensures { result ≡ rule_named rules.now name }
{
    rules.iter().position(|rule| rule.name == name)
}

/// These items without the one with this number, if there is one. Allocates nothing. Moves the items after it.
pub fn without_any<T: Drop>(items: Listed<T>, number: Option<usize>) -> Listed<T>
    ensures { result ≡ without_any number items }
{
    let Some(number) = number else {
        return items;
    };
    if items.len() <= number {
        return items;
    }
    let mut items = items.into_vec();
    items.remove(number);
    Listed::from_vec(items)
}

impl Live {
    /// Allocates nothing.
    pub fn new(alloc: Global, program: Program) -> Live
        ensures { result.program ≡ program }
    {
        Live { program, alloc }
    }

    /// Takes the commands out of the program, so that none is left in it. Allocates nothing.
    pub fn take_commands(&mut self) -> Listed<Command>
        ensures commands { result ≡ self.old.program.commands }
        ensures left { IsWith self.old.program.rules [] self.old.program self.new.program }
    {
        let Program {
            classes,
            rules,
            templates,
            commands,
            text,
        } = mem::replace(&mut self.program, no_program(self.alloc));
        self.program = Program::new(classes, rules, templates, Listed::new(self.alloc), text);
        commands
    }

    /// Removes the production with this name, if there is one, and returns its number. Allocates nothing. Scans the
    /// productions.
    pub fn excise(&mut self, name: Sym, moved: &mut Moved) -> Option<usize>
        ensures number { result ≡ rule_named self.old.program.rules name }
        ensures program { IsWith (without_named self.old.program.rules name) self.old.program.commands self.old.program self.new.program }
        ensures moved { moved.new ≡ places_moved_any result moved.old }
    {
        let number = rule_named(self.program.rules.as_slice(), name);
        let Program {
            classes,
            rules,
            templates,
            commands,
            text,
        } = mem::replace(&mut self.program, no_program(self.alloc));
        let rules = without_any(rules, number);
        self.program = Program::new(classes, rules, templates, commands, text);
        moved.take_out_any(number);
        number
    }

    /// Adds a production after all others. If there is one with the same name, it is removed, and its number is
    /// returned. If memory runs out, nothing has changed. Scans the productions.
    pub fn add(&mut self, rule: Rule, moved: &mut Moved) -> Result<Option<usize>, OutOfMemory>
        requires valid { IsTrue (rule_is_valid self.old.program.classes (length self.old.program.text) rule) }
        requires builds { IsTrue (rule_builds_from (length self.old.program.templates) rule) }
        ensures number { IfOk result (λ number. number ≡ rule_named self.old.program.rules rule.name) }
        ensures program { OnOk result (IsWith (without_named self.old.program.rules rule.name ++ rule ∷ []) self.old.program.commands self.old.program self.new.program) }
        ensures moved { IfOk result (λ number. moved.new ≡ places_moved_any number moved.old) }
        ensures err { OnErr result (IsWith self.old.program.rules self.old.program.commands self.old.program self.new.program) }
        ensures unmoved { OnErr result (moved.new ≡ moved.old) }
    {
        let number = rule_named(self.program.rules.as_slice(), rule.name);
        let Program {
            classes,
            rules,
            templates,
            commands,
            text,
        } = mem::replace(&mut self.program, no_program(self.alloc));
        let mut rules = rules;
        match rules.push(rule) {
            Ok(()) => {
                let rules = without_any(rules, number);
                self.program = Program::new(classes, rules, templates, commands, text);
                moved.take_out_any(number);
                Ok(number)
            }
            Err(_rule) => {
                self.program = Program::new(classes, rules, templates, commands, text);
                Err(OutOfMemory)
            }
        }
    }
}
