//! A place in memory, at which each step fails in turn.
ghost use Rattle.std.specs.Prelude.{◌≡◌, Some, option_map};

use seek_parts::{Place, put_whole, try_place};
use std::alloc::Global;
use std::io;
use std::test::Fail;

/// The place has these bytes, if any. One call fails, counted from 0 over all steps, and each write takes three bytes at most.
#[derive(Drop)]
struct MemPlace {
    alloc: Global,
    standing: Option<Vec<u8>>,
    beside: Vec<u8>,
    is_stored: bool,
    failing: usize,
    call: usize,
    is_made: bool,
    /// Whether there is a file beside.
    is_there: bool,
}

impl MemPlace {
    /// Numbers a call, which may be the one that fails.
    fn step(&mut self) -> io::Result<()>
        ensures standing { self.new.standing ≡ self.old.standing }
        ensures beside { self.new.beside ≡ self.old.beside }
        ensures stored { self.new.is_stored ≡ self.old.is_stored }
        ensures made { self.new.is_made ≡ self.old.is_made }
    {
        let call = self.call;
        self.call = call.saturating_add(1);
        if call == self.failing {
            return Err(io::Error::from(io::ErrorKind::StorageFull));
        }
        Ok(())
    }
}

impl Place for MemPlace {
    ghost standing = { λ p. option_map (λ v. v.items) p.standing };

    ghost beside = { λ p. Some p.beside.items };

    ghost stored = { λ p. p.is_stored };

    ghost is_made = { λ p. p.is_made };

    fn create(&mut self) -> io::Result<()> {
        self.step()?;
        self.beside.clear();
        self.is_stored = false;
        self.is_made = true;
        self.is_there = true;
        Ok(())
    }

    fn write(&mut self, piece: &[u8]) -> io::Result<usize> {
        self.step()?;
        let (front, _) = piece.split_at(piece.len().min(3));
        self.beside.extend_from_slice(front)?;
        self.is_stored = false;
        Ok(front.len())
    }

    fn store(&mut self) -> io::Result<()> {
        self.step()?;
        self.is_stored = true;
        Ok(())
    }

    fn rename(&mut self) -> io::Result<()> {
        self.step()?;
        self.standing = Some(Vec::from_slice(self.alloc, self.beside.as_slice())?);
        self.is_made = false;
        self.is_there = false;
        Ok(())
    }

    fn remove(&mut self) -> io::Result<()> {
        self.is_made = false;
        self.step()?;
        self.beside.clear();
        self.is_there = false;
        Ok(())
    }
}

const OLD: &[u8] = b"old";

const TEXT: &[u8] = b"abcdefgh";

/// What is in the place after TEXT is put there, where this call fails; whether that is said to be done, and whether a file is left
/// beside.
fn after_failure(alloc: Global, failing: usize) -> Result<(Vec<u8>, bool, bool), Fail> {
    let mut port = MemPlace {
        alloc,
        standing: Some(Vec::from_slice(alloc, OLD)?),
        beside: Vec::new(alloc),
        is_stored: false,
        failing,
        call: 0,
        is_made: false,
        is_there: false,
    };
    let is_done = try_place(&mut port).is_ok() && put_whole(&mut port, TEXT).is_ok();
    let MemPlace {
        standing,
        is_there,
        ..
    } = port;
    match standing {
        Some(bytes) => Ok((bytes, is_done, is_there)),
        None => Err(Fail::from("nothing stands in the place")),
    }
}

/// The calls are: create and remove of the try, create, three writes, store, rename. Where one of them fails, the old bytes stay; where
/// none does, the new ones do. A file is left beside only where the removal of the try failed.
#[test]
fn a_file_is_put_whole_or_not_at_all(rt: HostRuntime) -> Result<(), Fail> {
    for failing in 0..8 {
        let (bytes, is_done, is_there) = after_failure(rt.alloc(), failing)?;
        assert_eq!(rt; bytes.as_slice(), OLD, "at {failing}");
        assert!(rt; !is_done);
        assert_eq!(rt; is_there, failing == 1);
    }
    let (bytes, is_done, is_there) = after_failure(rt.alloc(), 8)?;
    assert_eq!(rt; bytes.as_slice(), TEXT);
    assert!(rt; is_done);
    assert!(rt; !is_there);
    Ok(())
}
