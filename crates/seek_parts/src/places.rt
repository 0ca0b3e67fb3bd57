//! Where files are put by their paths.
ghost use Rattle.std.specs.Prelude.{◌≡◌, ℕ, List, Option, OnOk, OnErr};
ghost use Rattle.seek_parts.specs.Places.{Standing, PutsAt};

use std::io;

/// The places of all paths. Each step may fail.
pub trait Places {
    /// The bytes of the file at each path, or `None` where a contract can't know them.
    ghost standing: { Self → Option Standing };

    /// Tries whether a file can be put at a path.
    fn try_path(&mut self, path: &str) -> io::Result<()>
        ensures { standing self.new ≡ standing self.old };

    /// Puts a file with this text at a path, whole. An error leaves what is at each.
    fn put(&mut self, path: &str, text: &[u8]) -> io::Result<()>
        ensures whole { OnOk result (PutsAt (standing self.old) (standing self.new) path.now text.now) }
        ensures none { OnErr result (standing self.new ≡ standing self.old) };
}
