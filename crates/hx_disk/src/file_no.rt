ghost use Rattle.std.specs.Prelude.{◌≡◌, ℕ, ◌<◌};

use std::marker::Model;

/// The number of a file on a disk, from 0 to 383. Contracts see it as the number.
/// The files 0 to 127 keep backups and the files 128 to 383 are those of the user: a rule of this project.
#[derive(Clone, Copy, Debug, PartialEq, Eq)]
pub struct FileNo(u32);

impl Model for FileNo {
    ghost Value = { ℕ };

    ghost view = { λ f. f.0 };

    ghost invariant = { λ f. f.0 < 384 };

    ghost inverse = { λ n. record { 0 = n } };
}

impl FileNo {
    /// The file of this number.
    pub fn new(number: u32) -> FileNo
        requires { number < 384 }
        ensures { result ≡ number }
    {
        FileNo(number)
    }

    /// Its number, from 0 to 383.
    pub fn number(self) -> u32
        ensures value { result ≡ self }
        ensures known { result < 384 }
    {
        self.0
    }
}
