ghost use Rattle.batch_job.specs.Loads.{FilesGoOn, FewFiles, FilesAreGood};
ghost use Rattle.batch_job.specs.LinesSoFar.{LinesGoOn, LoadsGoOn, EndGivesOutput, AllOnceLoaded, ArePrintable, FewLines};

/// What a deck gives as it goes on. Nothing is done here: the contract is the law, for those who speak
/// of lists of items. The lines of the items so far, with what their files were loaded as, stay the first of
/// all lines, and those of the whole deck are what one thread prints.
pub fn lines_go_on()
    ensures prefix { LinesGoOn }
    ensures loads { LoadsGoOn }
    ensures whole { EndGivesOutput }
    ensures all { AllOnceLoaded }
{}

/// What is printed are lines, however far the deck has come and whatever its files are loaded as.
pub fn lines_are_printable()
    ensures { ArePrintable }
{}

/// More items name more files, and each item names one at most.
pub fn items_name_few_files()
    ensures more { FilesGoOn }
    ensures few { FewFiles }
{}

/// However long its programs run, a deck gives no more lines for an item than the limits of ticks allow.
pub fn items_give_few_lines()
    ensures { FewLines }
{}

/// Code that stands in files keeps the rules of code as it is loaded, whatever the bytes of the files are.
pub fn code_in_files_is_good()
    ensures { FilesAreGood }
{}
