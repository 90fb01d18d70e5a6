ghost use Rattle.std.specs.Prelude.{◌≡◌, ◌+◌, ◌≤◌, ◌++◌, length, IsTrue};
ghost use Rattle.std.specs.List.{list_all};
ghost use Rattle.std.specs.Fmt.{decimal};
ghost use Rattle.solo_base.specs.Line.{is_printable};
ghost use Rattle.run_report.specs.CountsLine.{counts_line};

use network_run::Counts;
use solo_base::Line;

/// How many digits a count has at most.
const COUNT_LENGTH: usize = 20;

/// The line that tells how many events a run had, how many of them ended in a delay, and how often the disk
/// was granted.
pub fn counts_line(counts: Counts) -> Line
    ensures { result ≡ counts_line counts.events counts.delays counts.grants }
{
    let mut line = Line::new();
    line.append(b"COUNTS: ");
    append_count(&mut line, counts.events);
    line.append(b" EVENTS, ");
    append_count(&mut line, counts.delays);
    line.append(b" DELAYS, ");
    append_count(&mut line, counts.grants);
    line.append(b" GRANTS");
    line
}

/// A word, and a number behind it.
pub fn number_line(word: &[u8], number: u64) -> Line
    requires room { length word.now + COUNT_LENGTH ≤ 132 }
    requires printable { IsTrue (list_all is_printable word.now) }
    ensures { result ≡ word.now ++ decimal number }
{
    let mut line = Line::new();
    line.append(word);
    append_count(&mut line, number);
    line
}

/// Adds a count at the end, in decimal.
pub fn append_count(line: &mut Line, count: u64)
    requires room { length line.old + COUNT_LENGTH ≤ 132 }
    ensures text { line.new ≡ line.old ++ decimal count }
    ensures short { length line.new ≤ length line.old + COUNT_LENGTH }
{
    if count < 10 {
        line.push(b'0' + count as u8);
        return;
    }
    append_count(line, count / 10);
    line.push(b'0' + (count % 10) as u8);
}
