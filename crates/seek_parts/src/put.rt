//! A text is put in a place whole, or the place is as it was.
ghost use Rattle.std.specs.Prelude.{◌≡◌, true, false, OnOk, OnErr};
ghost use Rattle.std.specs.Io.KnownBytes.{Appends};
ghost use Rattle.seek_parts.specs.Place.{emptied};

use crate::place::Place;
use std::io;

/// Tries whether a file can be made beside the place, and removed.
pub fn try_place<P: Place>(port: &mut P) -> io::Result<()>
    ensures apart { P.standing port.new ≡ P.standing port.old }
    ensures empty { OnOk result (P.beside port.new ≡ emptied (P.beside port.old)) }
    ensures gone { OnOk result (P.is_made port.new ≡ false) }
{
    port.create()?;
    port.remove()
}

/// Puts a file with this text in the place, when all of it is stored. Where a step fails, the place is as it was, and the file that was
/// made beside it is removed, if it can be.
pub fn put_whole<P: Place>(port: &mut P, text: &[u8]) -> io::Result<()>
    ensures whole { OnOk result (Appends (emptied (P.beside port.old)) (P.standing port.new) text.now) }
    ensures none { OnErr result (P.standing port.new ≡ P.standing port.old) }
    ensures gone { P.is_made port.new ≡ true → P.is_made port.old ≡ true }
{
    port.create()?;
    let put = fill(port, text);
    if put.is_err() {
        let _gone = port.remove();
    }
    put
}

/// Writes the text to the new file beside, and puts that in the place.
fn fill<P: Place>(port: &mut P, text: &[u8]) -> io::Result<()>
    ensures whole { OnOk result (Appends (P.beside port.old) (P.standing port.new) text.now) }
    ensures none { OnErr result (P.standing port.new ≡ P.standing port.old) }
    ensures gone { OnOk result (P.is_made port.new ≡ false) }
    ensures made { OnErr result (P.is_made port.new ≡ P.is_made port.old) }
{
    write_whole(port, text)?;
    port.store()?;
    port.rename()
}

/// Writes all of the text to the file beside.
fn write_whole<P: Place>(port: &mut P, text: &[u8]) -> io::Result<()>
    ensures apart { P.standing port.new ≡ P.standing port.old }
    ensures whole { OnOk result (Appends (P.beside port.old) (P.beside port.new) text.now) }
    ensures made { P.is_made port.new ≡ P.is_made port.old }
{
    let mut done = 0;
    while done < text.len() {
        let (_, rest) = text.split_at(done);
        let count = port.write(rest)?;
        if count == 0 {
            return Err(io::Error::from(io::ErrorKind::WriteZero));
        }
        done += count;
    }
    Ok(())
}
