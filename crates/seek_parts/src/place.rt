//! The steps by which a file comes to its place.
ghost use Rattle.std.specs.Prelude.{◌≡◌, ◌≤◌, ℕ, List, Option, Bool, true, false, length, take, IfOk, OnOk, OnErr};
ghost use Rattle.std.specs.Io.KnownBytes.{Keeps, Appends};
ghost use Rattle.seek_parts.specs.Place.{emptied};

use std::io;

/// A place for a file, and a file beside it, which is made, written, stored, and then put in the place. Each step may fail.
pub trait Place {
    /// The bytes of the file in the place, or `None` without one, or where a contract can't know.
    ghost standing: { Self → Option (List ℕ) };

    /// The bytes of the file beside, or `None` where a contract can't know.
    ghost beside: { Self → Option (List ℕ) };

    /// All bytes of the file beside are stored, so that they outlive a stop of the system.
    ghost stored: { Self → Bool };

    /// A file was made beside, and since then neither came to the place nor was to be removed.
    ghost is_made: { Self → Bool };

    /// Makes the file beside, with nothing in it.
    fn create(&mut self) -> io::Result<()>
        ensures apart { standing self.new ≡ standing self.old }
        ensures empty { OnOk result (beside self.new ≡ emptied (beside self.old)) }
        ensures made { OnOk result (is_made self.new ≡ true) }
        ensures failed { OnErr result (beside self.new ≡ beside self.old) }
        ensures unmade { OnErr result (is_made self.new ≡ is_made self.old) };

    /// Appends the first bytes of a piece to the file beside, and returns how many they are.
    fn write(&mut self, piece: &[u8]) -> io::Result<usize>
        ensures apart { standing self.new ≡ standing self.old }
        ensures within { IfOk result (λ n. n ≤ length piece.now) }
        ensures bytes { IfOk result (λ n. Appends (beside self.old) (beside self.new) (take n piece.now)) }
        ensures kept { OnErr result (Keeps (beside self.old) (beside self.new)) }
        ensures made { is_made self.new ≡ is_made self.old };

    /// Has the file beside stored.
    fn store(&mut self) -> io::Result<()>
        ensures apart { standing self.new ≡ standing self.old }
        ensures kept { beside self.new ≡ beside self.old }
        ensures stored { OnOk result (stored self.new ≡ true) }
        ensures made { is_made self.new ≡ is_made self.old };

    /// Puts the file beside in the place, in one step. It is to be stored before.
    fn rename(&mut self) -> io::Result<()>
        requires { stored self.old ≡ true }
        ensures ok { OnOk result (standing self.new ≡ beside self.old) }
        ensures gone { OnOk result (is_made self.new ≡ false) }
        ensures err { OnErr result (standing self.new ≡ standing self.old) }
        ensures made { OnErr result (is_made self.new ≡ is_made self.old) };

    /// Removes the file beside, which was made before. It is tried once.
    fn remove(&mut self) -> io::Result<()>
        requires { is_made self.old ≡ true }
        ensures apart { standing self.new ≡ standing self.old }
        ensures empty { OnOk result (beside self.new ≡ emptied (beside self.old)) }
        ensures gone { is_made self.new ≡ false };
}
