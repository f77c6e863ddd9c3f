//! Programs, each valid by its type.
ghost use Rattle.std.specs.Prelude.{◌≡◌, length, IsTrue};
ghost use Rattle.ops_base.specs.Valid.{is_valid};

use crate::commands::Command;
use crate::elements::Class;
use crate::list::Listed;
use crate::rules::Rule;

/// A program that was read, with its text. All numbers of classes, fields, variables, cells and bytes in it are in
/// range, and what its rules and commands use is bound and allowed where they use it.
#[derive(Debug, Drop)]
pub struct Program {
    pub classes: Listed<Class>,
    pub rules: Listed<Rule>,
    /// The productions that actions build, with a constant in the place of each hole.
    pub templates: Listed<Rule>,
    pub commands: Listed<Command>,
    pub text: Listed<u8>,
    pub ghost valid: { IsTrue (is_valid classes rules templates commands (length text)) },
}

impl Program {
    /// Takes no memory.
    pub fn new(
        classes: Listed<Class>,
        rules: Listed<Rule>,
        templates: Listed<Rule>,
        commands: Listed<Command>,
        text: Listed<u8>,
    ) -> Program
        requires { IsTrue (is_valid classes rules templates commands (length text)) }
        ensures classes { result.classes ≡ classes }
        ensures rules { result.rules ≡ rules }
        ensures templates { result.templates ≡ templates }
        ensures commands { result.commands ≡ commands }
        ensures text { result.text ≡ text }
    {
        Program {
            classes,
            rules,
            templates,
            commands,
            text,
        }
    }
}
