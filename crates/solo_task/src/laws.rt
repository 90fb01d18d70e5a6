// The laws of commands and of the session. Nothing is done here: the contracts are the laws.

ghost use Rattle.solo_task.specs.Laws.{CommandsMakeLines, PaperHasLines};
ghost use Rattle.solo_task.specs.Laws.{NeedsPrint, NeedsDisplay, ComesToEachNeed, ChangesToEachMap, LeavesTheLastMap};
ghost use Rattle.solo_task.specs.Laws.{LastMapIsTheLast, MoreCommandsGoOn, MoreKeysGoOn};
ghost use Rattle.solo_task.specs.Laws.{RefusedChangesNothing, RefusedProgramChangesNothing, ExistsReadsNoCard};
ghost use Rattle.solo_task.specs.Puts.{PutsAreRefusedSo};
ghost use Rattle.solo_task.specs.Rows.{QuietRows, CardRows, ProgramRows};
ghost use Rattle.solo_task.specs.CatalogueRows.{CatalogueRows, FileCopyRows};
ghost use Rattle.solo_task.specs.WholeRows.{StoredRows, DeepRows};

/// Whatever is typed, and whatever the files are, a command prints and displays lines.
pub fn commands_make_lines()
    ensures commands { CommandsMakeLines }
    ensures paper { PaperHasLines }
{}

/// The needs of a command, one after the other, print and display what it tells; a piece of work comes to the
/// first of those that are left, by the first of the maps that are told.
pub fn needs_are_met_in_turn()
    ensures print { NeedsPrint }
    ensures display { NeedsDisplay }
    ensures each { ComesToEachNeed }
    ensures maps { ChangesToEachMap }
    ensures files { LeavesTheLastMap }
{}

/// A session goes on where more is typed, and leaves the last of its maps.
pub fn sessions_go_on()
    ensures last { LastMapIsTheLast }
    ensures commands { MoreCommandsGoOn }
    ensures keys { MoreKeysGoOn }
{}

/// A command that is refused changes no file, and reads no card where it is since a file exists.
pub fn refusals_change_nothing()
    ensures commands { RefusedChangesNothing }
    ensures programs { RefusedProgramChangesNothing }
    ensures exists { ExistsReadsNoCard }
{}

/// A program's PUT is refused where its file is protected, has no such page, or has no room for one more; and
/// there alone.
pub fn puts_are_refused_so()
    ensures { PutsAreRefusedSo }
{}

/// Sessions that were worked by hand, shown by computing.
pub fn worked_sessions()
    ensures quiet { QuietRows }
    ensures cards { CardRows }
    ensures programs { ProgramRows }
    ensures catalogue { CatalogueRows }
    ensures copies { FileCopyRows }
    ensures stored { StoredRows }
    ensures deep { DeepRows }
{}
