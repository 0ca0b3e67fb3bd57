//! Whether a file that is read is written too.
ghost use Rattle.std.specs.Prelude.{◌≡◌, ◌≢◌, Some, true, false, IfSome, IfNone};
ghost use Rattle.seek_parts.specs.Clash.{IsFileAt, IsElsewhere, IsGivenAs, IsNotGivenAs, IsAmongDiagrams, IsNoDiagram, IsAmongPaths, IsAtNone};
ghost use Rattle.seek_parts.specs.Clash.{IsReadFile, IsUnreadFile, Clashes, IsOutUnread};

use crate::texts::Texts;
use seek_words::{Asked, Diagrams, Given};

/// The path of a file that is read and would be written too, under whichever names; None if there is none. Devices and pipes may be both.
pub fn read_and_written<'a, F: Texts>(files: &F, asked: &Asked<'a>) -> Option<&'a str>
    ensures clashes { IfSome result (λ name. Clashes (F.named files.now) asked.now) }
    ensures apart { IfNone result (IsOutUnread (F.named files.now) asked.now) }
{
    let Some(out) = asked.out else {
        return None;
    };
    match files.file_at(out) {
        Some(file) => read_at(files, asked, file),
        None => None,
    }
}

/// A path that is read, at which this file is; None without one.
fn read_at<'a, F: Texts>(files: &F, asked: &Asked<'a>, file: (u64, u64)) -> Option<&'a str>
    ensures read { IfSome result (λ name. IsReadFile (F.named files.now) file asked.now) }
    ensures none { IfNone result (IsUnreadFile (F.named files.now) file asked.now) }
{
    if let Some(path) = diagram_at(files, asked.diagrams, file) {
        return Some(path);
    }
    if let Some(path) = path_at(files, asked.quandles.as_slice(), file) {
        return Some(path);
    }
    path_at(files, asked.weights.as_slice(), file)
}

/// That of a diagram.
fn diagram_at<'a, F: Texts>(files: &F, diagrams: Diagrams<'a>, file: (u64, u64)) -> Option<&'a str>
    ensures read { IfSome result (λ name. IsAmongDiagrams (F.named files.now) file diagrams.entry) }
    ensures none { IfNone result (IsNoDiagram (F.named files.now) file diagrams.entry) }
{
    match diagrams {
        Diagrams::Problem(one) => given_at(files, one, file),
        Diagrams::Pair(first, second) => match given_at(files, first, file) {
            Some(path) => Some(path),
            None => given_at(files, second, file),
        },
    }
}

/// The path of what is given, if this file is there.
fn given_at<'a, F: Texts>(files: &F, given: Given<'a>, file: (u64, u64)) -> Option<&'a str>
    ensures read { IfSome result (λ name. IsGivenAs (F.named files.now) file given.entry) }
    ensures none { IfNone result (IsNotGivenAs (F.named files.now) file given.entry) }
{
    match given {
        Given::File(path) | Given::Code(path) if stands_at(files, path, file) => Some(path),
        Given::File(_) | Given::Code(_) | Given::Braid(_) => None,
    }
}

/// The first of these paths at which this file is; None without one.
fn path_at<'a, F: Texts>(files: &F, paths: &[&'a str], file: (u64, u64)) -> Option<&'a str>
    ensures read { IfSome result (λ name. IsAmongPaths (F.named files.now) file paths.now) }
    ensures none { IfNone result (IsAtNone (F.named files.now) file paths.now) }
{
    for path in paths {
        if stands_at(files, path, file) {
            return Some(*path);
        }
    }
    None
}

/// Whether this file is at a path.
fn stands_at<F: Texts>(files: &F, path: &str, file: (u64, u64)) -> bool
    ensures yes { result ≡ true → IsFileAt (F.named files.now) file path.now }
    ensures none { result ≡ false → IsElsewhere (F.named files.now) file path.now }
{
    match files.file_at(path) {
        Some(found) => found == file,
        None => false,
    }
}
