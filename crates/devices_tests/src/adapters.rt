use crate::asking::{Ask, ask_all};
use solo_devices::{Area, Gave, Sink, Source, Took};
use solo_edge::{
    DriveArea, ReaderSource, Recorded, Unknown, Untold, WriterSink, deck_over, open_drive,
    paper_over, take_drive,
};
use std::fs::{self, File, OpenOptions};
use std::process::Abort;
use std::test::Fail;

fn opened(rt: &HostRuntime, path: &str) -> Result<File, Fail> {
    Ok(OpenOptions::new().read(true).write(true).open(rt, path)?)
}

/// A new file with these bytes in it, opened to read and write, whose name is gone already.
fn drive(rt: &HostRuntime, path: &str, bytes: &[u8]) -> Result<File, Fail> {
    fs::write(rt, path, bytes)?;
    let file = opened(rt, path)?;
    fs::remove_file(rt, path)?;
    Ok(file)
}

/// Asks all this of so many pages of a drive.
fn ask_drive(rt: &impl Abort, drive: Option<File>, size: u16, asks: &[Ask]) {
    let mut area = DriveArea::<_, Unknown>::over(drive, 0, size);
    ask_all(rt, &mut area, asks);
}

/// Asks all this of four pages of a drive, after which so many calls have failed.
fn ask_counted(rt: &impl Abort, drive: File, asks: &[Ask], faults: u64) {
    let mut area = DriveArea::<_, Unknown>::over(Some(drive), 0, 4);
    ask_all(rt, &mut area, asks);
    assert_eq!(rt; area.faults(), faults);
}

#[test]
fn a_page_of_a_drive_is_read_as_it_was_written(rt: HostRuntime) -> Result<(), Fail> {
    let mut area = DriveArea::<_, Unknown>::over(
        Some(drive(&rt, "solo_edge_pages", &[9; 4 * 512])?),
        1,
        3,
    );
    assert_eq!(rt; area.size(), 3);
    ask_all(
        &rt,
        &mut area,
        &[Ask::Writes(2, 7), Ask::Reads(1, 9), Ask::Reads(2, 7)],
    );
    assert_eq!(rt; area.faults(), 0);
    Ok(())
}

/// Writes to both areas of two pages of one drive, and reads from the second.
fn ask_both(rt: &impl Abort, first: File, second: File) {
    let mut first = DriveArea::<_, Unknown>::over(Some(first), 0, 2);
    let mut second = DriveArea::<_, Unknown>::over(Some(second), 2, 2);
    ask_all(rt, &mut second, &[Ask::Writes(0, 5)]);
    ask_all(rt, &mut first, &[Ask::Writes(1, 4)]);
    ask_all(rt, &mut second, &[Ask::Reads(0, 5)]);
}

#[test]
fn areas_of_one_drive_lie_behind_each_other(rt: HostRuntime) -> Result<(), Fail> {
    let path = "solo_edge_behind";
    fs::write(&rt, path, [0; 4 * 512].as_slice())?;
    ask_both(&rt, opened(&rt, path)?, opened(&rt, path)?);
    let bytes = fs::read(&rt, path)?;
    for (at, byte) in [(511, 0), (512, 4), (1023, 4), (1024, 5)] {
        assert_eq!(rt; bytes.get(at).copied(), Some(byte), "at {at}");
    }
    fs::remove_file(&rt, path)?;
    Ok(())
}

#[test]
fn a_page_that_the_drive_has_not_whole_is_neither_read_nor_written(
    rt: HostRuntime,
) -> Result<(), Fail> {
    let path = "solo_edge_short";
    fs::write(&rt, path, [9; 2 * 512 + 511].as_slice())?;
    let asks = [Ask::Reads(1, 9), Ask::ReadFails(2), Ask::WriteFails(2)];
    ask_counted(&rt, opened(&rt, path)?, &asks, 2);
    ask_counted(
        &rt,
        opened(&rt, path)?,
        &[Ask::WriteFails(3), Ask::Writes(1, 9)],
        1,
    );
    assert_eq!(rt;
        fs::read(&rt, path)?.as_slice(),
        [9; 2 * 512 + 511].as_slice()
    );
    fs::remove_file(&rt, path)?;
    Ok(())
}

/// Asks all this of four pages of a drive, whose file gets so many bytes by its other handle once the area is
/// made.
fn ask_resized(
    rt: &impl Abort,
    drive: File,
    other: &File,
    length: u64,
    asks: &[Ask],
) -> Result<(), Fail> {
    let mut area = DriveArea::<_, Unknown>::over(Some(drive), 0, 4);
    other.set_len(length)?;
    ask_all(rt, &mut area, asks);
    Ok(())
}

#[test]
fn nothing_is_written_behind_the_end_that_a_drive_had_when_its_area_was_made(
    rt: HostRuntime,
) -> Result<(), Fail> {
    let path = "solo_edge_longer";
    fs::write(&rt, path, [9; 2 * 512].as_slice())?;
    let asks = [Ask::Reads(2, 0), Ask::WriteFails(2), Ask::Writes(1, 7)];
    ask_resized(&rt, opened(&rt, path)?, &opened(&rt, path)?, 4 * 512, &asks)?;
    let bytes = fs::read(&rt, path)?;
    assert_eq!(rt; bytes.len(), 4 * 512);
    for (at, byte) in [(511, 9), (512, 7), (1023, 7), (1024, 0), (1535, 0)] {
        assert_eq!(rt; bytes.get(at).copied(), Some(byte), "at {at}");
    }
    fs::remove_file(&rt, path)?;
    Ok(())
}

#[test]
fn a_page_that_a_drive_lost_is_not_read_and_the_drive_gets_no_longer_than_it_was(
    rt: HostRuntime,
) -> Result<(), Fail> {
    let path = "solo_edge_cut";
    fs::write(&rt, path, [9; 3 * 512].as_slice())?;
    let asks = [
        Ask::Reads(1, 9),
        Ask::ReadFails(2),
        Ask::WriteFails(3),
        Ask::Writes(2, 7),
        Ask::Reads(2, 7),
    ];
    ask_resized(&rt, opened(&rt, path)?, &opened(&rt, path)?, 2 * 512, &asks)?;
    assert_eq!(rt; fs::read(&rt, path)?.len(), 3 * 512);
    fs::remove_file(&rt, path)?;
    Ok(())
}

/// The bytes of a long deck come in their order to their end, whatever is read ahead of them.
fn take_to_end(rt: &HostRuntime, deck: File, bytes: &[u8]) -> Result<(), Fail> {
    let mut source = ReaderSource::<_, Untold>::new(deck_over(rt.alloc(), deck)?);
    let mut piece = [0; 512];
    let mut taken = Vec::new(rt.alloc());
    for _ in 0..bytes.len() {
        let Took::Bytes(count) = source.take(&mut piece) else {
            return Err(Fail::new("a take failed"));
        };
        if count == 0 {
            break;
        }
        taken.extend_from_slice(&piece[..count])?;
    }
    if taken.as_slice() != bytes {
        return Err(Fail::new("other bytes came"));
    }
    Ok(())
}

#[test]
fn a_deck_that_is_read_ahead_is_taken_to_its_end(rt: HostRuntime) -> Result<(), Fail> {
    let mut bytes = Vec::new(rt.alloc());
    for line in 0..2000_u32 {
        bytes.extend_from_slice(format!(in rt.alloc(); "CARD {line}\n")?.as_bytes())?;
    }
    let deck = drive(&rt, "solo_edge_ahead", bytes.as_slice())?;
    take_to_end(&rt, deck, bytes.as_slice())
}

#[test]
fn a_drive_that_is_not_there_is_made_of_zeros_under_its_other_name(
    rt: HostRuntime,
) -> Result<(), Fail> {
    let (path, other) = ("solo_edge_made", "solo_edge_made_new");
    // What an earlier maker left.
    fs::write(&rt, other, [5; 4 * 512].as_slice())?;
    let taken = take_drive(&rt, path, other, 3);
    assert!(rt; taken.is_some_and(|drive| drive.is_new()));
    assert!(rt; open_drive(&rt, path).is_none());
    assert_eq!(rt; fs::read(&rt, other)?.as_slice(), [0; 3 * 512].as_slice());
    fs::remove_file(&rt, other)?;
    Ok(())
}

#[test]
fn who_has_a_drive_has_it_alone_while_it_is_made_and_behind(rt: HostRuntime) -> Result<(), Fail> {
    let (path, other) = ("solo_edge_own", "solo_edge_own_new");
    let first = take_drive(&rt, path, other, 3);
    assert!(rt; first.is_some());
    assert!(rt; take_drive(&rt, path, other, 3).is_none());
    fs::rename(&rt, other, path)?;
    assert!(rt; take_drive(&rt, path, other, 3).is_none());
    drop(first);
    let second = take_drive(&rt, path, other, 3);
    assert!(rt; second.is_some_and(|drive| !drive.is_new()));
    assert!(rt; open_drive(&rt, other).is_none());
    fs::remove_file(&rt, path)?;
    Ok(())
}

#[test]
fn a_drive_that_is_there_is_left_as_it_is_until_it_is_lengthened(
    rt: HostRuntime,
) -> Result<(), Fail> {
    let (path, other) = ("solo_edge_kept", "solo_edge_kept_new");
    fs::write(&rt, path, [5; 512].as_slice())?;
    let drive = take_drive(&rt, path, other, 3).ok_or("no drive")?;
    assert!(rt; !drive.is_new());
    assert_eq!(rt; fs::read(&rt, path)?.len(), 512);
    assert!(rt; drive.lengthen(3));
    assert!(rt; drive.lengthen(2));
    ask_drive(
        &rt,
        open_drive(&rt, path),
        3,
        &[Ask::Reads(0, 5), Ask::Reads(2, 0)],
    );
    assert_eq!(rt; fs::read(&rt, path)?.len(), 3 * 512);
    fs::remove_file(&rt, path)?;
    Ok(())
}

#[test]
fn a_directory_and_a_path_through_a_file_are_no_drive(rt: HostRuntime) -> Result<(), Fail> {
    let path = "solo_edge_file";
    fs::write(&rt, path, b"X".as_slice())?;
    for path in [".", "solo_edge_file/drive", "solo_edge_nowhere/drive"] {
        assert!(rt; take_drive(&rt, path, "solo_edge_file/new", 1).is_none());
        assert!(rt; open_drive(&rt, path).is_none());
    }
    fs::remove_file(&rt, path)?;
    Ok(())
}

#[test]
fn each_call_on_no_drive_fails_and_is_counted(rt: HostRuntime) {
    let mut area = DriveArea::<Recorded<File>, Unknown>::over(None, 0, 1);
    assert_eq!(rt; area.size(), 1);
    ask_all(&rt, &mut area, &[Ask::ReadFails(0), Ask::WriteFails(0)]);
    assert_eq!(rt; area.faults(), 2);
}

#[test]
fn a_full_device_takes_no_page_and_no_line(rt: HostRuntime) -> Result<(), Fail> {
    let mut area = DriveArea::<_, Unknown>::over(Some(opened(&rt, "/dev/full")?), 0, 1);
    ask_all(&rt, &mut area, &[Ask::WriteFails(0)]);
    assert_eq!(rt; area.faults(), 1);
    let mut sink = WriterSink::<_, Untold>::new(opened(&rt, "/dev/full")?);
    assert!(rt; matches!(sink.give(b"JOB A\n"), Gave::Failed));
    assert_eq!(rt; sink.faults(), 1);
    Ok(())
}

#[test]
fn a_directory_is_no_deck_and_no_drive(rt: HostRuntime) -> Result<(), Fail> {
    let mut source = ReaderSource::<_, Untold>::new(File::open(&rt, ".")?);
    let mut piece = [0; 16];
    assert!(rt; matches!(source.take(&mut piece), Took::Failed));
    assert_eq!(rt; source.faults(), 1);
    let mut area = DriveArea::<_, Unknown>::over(Some(File::open(&rt, ".")?), 0, 1);
    ask_all(&rt, &mut area, &[Ask::ReadFails(0)]);
    assert_eq!(rt; area.faults(), 1);
    Ok(())
}

/// The bytes of a deck of eight come in pieces of five, to their end.
fn take_all(rt: &impl Abort, deck: File) {
    let mut source = ReaderSource::<_, Untold>::new(deck);
    let mut piece = [0; 5];
    assert!(rt; matches!(source.take(&mut piece), Took::Bytes(5)));
    assert_eq!(rt; piece.as_slice(), b"#LIST".as_slice());
    assert!(rt; matches!(source.take(&mut piece), Took::Bytes(3)));
    assert!(rt; matches!(source.take(&mut piece), Took::Bytes(0)));
    assert_eq!(rt; source.faults(), 0);
}

/// A line is given whole, and goes out.
fn give_line(rt: &impl Abort, paper: File) -> Result<(), Fail> {
    let mut sink = WriterSink::<_, Untold>::new(paper);
    assert!(rt; matches!(sink.give(b"JOB A\n"), Gave::Bytes(6)));
    sink.flush()?;
    Ok(())
}

#[test]
fn a_file_is_a_source_to_its_end_and_a_sink(rt: HostRuntime) -> Result<(), Fail> {
    take_all(&rt, drive(&rt, "solo_edge_deck", b"#LIST A\n")?);
    let path = "solo_edge_paper";
    give_line(&rt, File::create(&rt, path)?)?;
    assert_eq!(rt; fs::read(&rt, path)?.as_slice(), b"JOB A\n".as_slice());
    fs::remove_file(&rt, path)?;
    Ok(())
}

/// Gives a line to a paper, and tells what is in its file before the rest goes out; then the line is there.
fn give_paper(rt: &HostRuntime, path: &str, by_line: bool) -> Result<usize, Fail> {
    let file = File::create(rt, path)?;
    let mut sink = WriterSink::<_, Untold>::new(paper_over(rt.alloc(), file, by_line)?);
    let gave = sink.give(b"JOB A\n");
    let early = fs::read(rt, path)?.len();
    sink.flush()?;
    if gave != Gave::Bytes(6) || fs::read(rt, path)?.as_slice() != b"JOB A\n".as_slice() {
        return Err(Fail::new("the line isn't there"));
    }
    Ok(early)
}

#[test]
fn a_paper_by_the_line_goes_out_at_once_and_another_is_kept_back(
    rt: HostRuntime,
) -> Result<(), Fail> {
    let path = "solo_edge_kept_back";
    assert_eq!(rt; give_paper(&rt, path, true)?, 6);
    assert_eq!(rt; give_paper(&rt, path, false)?, 0);
    fs::remove_file(&rt, path)?;
    Ok(())
}
