//! The meaning of each operator, word and form of the language, and of each word of the command line. Each law is the
//! contract of a function that does nothing. Its statement is computed from the definition of reading. So a wrong entry
//! in that definition would be refused, even if the laws of spelling had the same wrong entry.
ghost use Rattle.read_laws.specs.LeftSides.{OperatorsMean, OperandsMean, PartsMean};
ghost use Rattle.read_laws.specs.RightSides.{ActionsMean, TermsMean, OperationsMean, ItemsMean, BuildsMean};
ghost use Rattle.read_laws.specs.Commands.{CommandsMean};
ghost use Rattle.read_laws.specs.Options.{OptionsMean};
ghost use Rattle.read_laws.specs.Groups.{GroupsCount};
ghost use Rattle.read_laws.specs.Faults.{FormsFail, GroupsFail, RightSidesFail, FunctionsFail, BuildsFail, CommandsFail};

/// The tests and the conditions of a left side.
pub fn left_sides_mean()
    ensures operators { OperatorsMean }
    ensures operands { OperandsMean }
    ensures parts { PartsMean }
{}

/// The actions of a right side, their values, what `write` prints, and the productions that are built.
pub fn right_sides_mean()
    ensures actions { ActionsMean }
    ensures terms { TermsMean }
    ensures operations { OperationsMean }
    ensures items { ItemsMean }
    ensures builds { BuildsMean }
{}

/// The commands of a program.
pub fn commands_mean()
    ensures { CommandsMean }
{}

/// The options of the command line.
pub fn options_mean()
    ensures { OptionsMean }
{}

/// The variables and the specificity of productions with groups.
pub fn groups_count()
    ensures { GroupsCount }
{}

/// Texts that are not programs: the fault of each, with its line and its column.
pub fn faults_stand()
    ensures forms { FormsFail }
    ensures groups { GroupsFail }
    ensures right_sides { RightSidesFail }
    ensures functions { FunctionsFail }
    ensures builds { BuildsFail }
    ensures commands { CommandsFail }
{}
