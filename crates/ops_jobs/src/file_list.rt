//! The names of the files of a job.
ghost use Rattle.std.specs.Prelude.{◌≡◌, length};
ghost use Rattle.ops_jobs.specs.Words.{word_bytes};

use std::marker::Model;

/// The names of files, in order, of which a contract sees the bytes.
#[derive(Debug, Drop)]
pub struct FileList {
    names: Vec<String>,
}

impl Model for FileList {
    ghost use Rattle.std.specs.Prelude.{ℕ, List};
    ghost use Rattle.ops_jobs.specs.Words.{word_bytes};

    ghost Value = { List (List ℕ) };

    ghost view = { λ f. word_bytes f.names.items };
}

impl FileList {
    /// Takes no memory.
    pub fn from_vec(names: Vec<String>) -> FileList
        ensures { result ≡ word_bytes names.items }
    {
        FileList { names }
    }

    pub fn as_slice(&self) -> &[String]
        ensures { word_bytes result.now ≡ self.now }
    {
        self.names.as_slice()
    }

    pub fn len(&self) -> usize
        ensures { result ≡ length self.now }
    {
        self.names.len()
    }

    /// Takes no memory.
    pub fn into_vec(self) -> Vec<String>
        ensures { word_bytes result.items ≡ self }
    {
        self.names
    }
}
