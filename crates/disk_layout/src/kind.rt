ghost use Rattle.std.specs.Prelude.{◌≡◌, ◌≤◌};
ghost use Rattle.disk_layout.specs.Files.{kind_of};

/// What a file is for.
#[derive(Clone, Copy, Debug, PartialEq, Eq)]
pub enum FileKind {
    Scratch,
    Ascii,
    SeqCode,
    ConCode,
}

impl FileKind {
    /// The kind that an entry of the catalogue names by a number from 1 to 4.
    pub fn of(number: u16) -> FileKind
        ensures { result ≡ kind_of number }
    {
        match number {
            2 => FileKind::Ascii,
            3 => FileKind::SeqCode,
            4 => FileKind::ConCode,
            _ => FileKind::Scratch,
        }
    }

    /// The number by which an entry names the kind.
    pub fn number(self) -> u16
        ensures kind { kind_of result ≡ self }
        ensures some { 1 ≤ result }
        ensures last { result ≤ 4 }
    {
        match self {
            FileKind::Scratch => 1,
            FileKind::Ascii => 2,
            FileKind::SeqCode => 3,
            FileKind::ConCode => 4,
        }
    }
}
