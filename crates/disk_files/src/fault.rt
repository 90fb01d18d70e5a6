use disk_layout::FileKind;

/// Why a call on a file area was refused.
#[derive(Clone, Copy, Debug, PartialEq, Eq)]
pub enum FileFault {
    /// The area is no Solo disk: this is the least page that breaks the format.
    NotSolo { page: u16 },
    NoFile,
    Exists,
    Protected,
    CatalogFull,
    DiskFull,
    FileFull,
    PageRange,
    /// A read or a write of the area failed.
    DiskFault,
    NoMemory,
}

/// What the catalogue says of a file.
#[derive(Clone, Copy, Debug, PartialEq, Eq)]
pub struct FileInfo {
    pub kind: FileKind,
    pub protected: bool,
    /// How many pages the file has, at most 4,000.
    pub pages: u16,
}
