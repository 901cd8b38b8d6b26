/// A file's modification time and its size, as an editor keeps them of the file that it last read.
#[derive(Clone, Copy, Debug, PartialEq, Eq)]
pub struct Stat {
    /// In milliseconds since 1970 on a real file system.
    pub mtime: u64,

    /// In bytes.
    pub size: u64,
}
