//! The parts of an input, in their order, and their names.
ghost use Rattle.std.specs.Prelude.{◌≡◌, ◌++◌, [], ◌∷◌, map, Some, slice_get, IfOk, IfErr, IfSome, OnOk};
ghost use Rattle.seek_parts.specs.Fault.{IsPartFaultOf, IsWanting};
ghost use Rattle.seek_parts.specs.Parts.{AddsPartOf, ArePartsOf, diagrams_due, all_due};

use crate::fault::PartFault;
use crate::part::part_bytes;
use crate::texts::Texts;
use memory_core::{Items, OutOfMemory};
use seek_faults::one_diagram;
use seek_words::{Asked, Diagrams, Given};
use std::alloc::Global;
use std::marker::Model;

/// The parts of an input, in the order in which they come in it, and what each is called in messages.
#[derive(Drop)]
pub struct Parts<'a> {
    texts: Vec<Items<u8>>,
    names: Vec<&'a str>,
}

impl<'a> Model for Parts<'a> {
    ghost use Rattle.std.specs.Prelude.{◌≡◌, map, length};
    ghost use Rattle.seek_parts.specs.Parts.{HeldParts};

    ghost Value = { HeldParts };

    ghost view = { λ p. record { texts = p.texts.items; names = map (λ s. s.now) p.names.items } };

    ghost invariant = { λ p. length p.names.items ≡ length p.texts.items };
}

impl<'a> Parts<'a> {
    /// Reads all that the words name: a part for each diagram, in their order, and after them one for each file of quandles. Each of two
    /// diagrams is one and no more, by the first words of its lines. If one of the parts can't be had, the error says why.
    pub fn read<F: Texts>(
        alloc: Global,
        files: &F,
        asked: &Asked<'a>,
    ) -> Result<Parts<'a>, PartFault<'a>>
        ensures parts { IfOk result (λ parts. ArePartsOf (F.told files.now) (all_due asked.now) parts.texts) }
        ensures fault { IfErr result (λ f. IsPartFaultOf (F.told files.now) (all_due asked.now) f) }
    {
        let mut all = Parts {
            texts: Vec::new(alloc),
            names: Vec::new(alloc),
        };
        match all.read_all(alloc, files, asked) {
            Ok(()) => Ok(all),
            Err(fault) => Err(fault),
        }
    }

    /// The bytes of each.
    pub fn texts(&self) -> &[Items<u8>]
        ensures { result.now ≡ self.now.texts }
    {
        self.texts.as_slice()
    }

    /// What a part is called in messages, counted from 0; None where there is none.
    pub fn name(&self, part: usize) -> Option<&'a str>
        ensures { IfSome result (λ name. slice_get self.now.names part ≡ Some name.now) }
    {
        self.names.get(part).copied()
    }

    /// Reads all that the words name. There are no parts before.
    fn read_all<F: Texts>(
        &mut self,
        alloc: Global,
        files: &F,
        asked: &Asked<'a>,
    ) -> Result<(), PartFault<'a>>
        requires { self.old.texts ≡ [] }
        ensures parts { OnOk result (ArePartsOf (F.told files.now) (all_due asked.now) self.new.texts) }
        ensures fault { IfErr result (λ f. IsPartFaultOf (F.told files.now) (all_due asked.now) f) }
    {
        self.read_diagrams(alloc, files, asked.diagrams)?;
        for path in &asked.quandles {
            let given = Given::File(*path);
            self.add(alloc, files, given, false, name_of(given))?;
        }
        Ok(())
    }

    /// Reads the diagrams. There are no parts before.
    fn read_diagrams<F: Texts>(
        &mut self,
        alloc: Global,
        files: &F,
        diagrams: Diagrams<'a>,
    ) -> Result<(), PartFault<'a>>
        requires { self.old.texts ≡ [] }
        ensures parts { OnOk result (ArePartsOf (F.told files.now) (diagrams_due diagrams.entry) self.new.texts) }
        ensures fault { IfErr result (λ f. IsPartFaultOf (F.told files.now) (diagrams_due diagrams.entry) f) }
    {
        match diagrams {
            Diagrams::Problem(given) => self.read_problem(alloc, files, given),
            Diagrams::Pair(first, second) => self.read_pair(alloc, files, first, second),
        }
    }

    /// Reads a problem. There are no parts before.
    fn read_problem<F: Texts>(
        &mut self,
        alloc: Global,
        files: &F,
        given: Given<'a>,
    ) -> Result<(), PartFault<'a>>
        requires { self.old.texts ≡ [] }
        ensures parts { OnOk result (ArePartsOf (F.told files.now) (diagrams_due (Diagrams.Problem given.entry)) self.new.texts) }
        ensures fault { IfErr result (λ f. IsPartFaultOf (F.told files.now) (diagrams_due (Diagrams.Problem given.entry)) f) }
    {
        self.add(alloc, files, given, false, name_of(given))?;
        Ok(())
    }

    /// Reads two diagrams. There are no parts before.
    fn read_pair<F: Texts>(
        &mut self,
        alloc: Global,
        files: &F,
        first: Given<'a>,
        second: Given<'a>,
    ) -> Result<(), PartFault<'a>>
        requires { self.old.texts ≡ [] }
        ensures parts { OnOk result (ArePartsOf (F.told files.now) (diagrams_due (Diagrams.Pair first.entry second.entry)) self.new.texts) }
        ensures fault { IfErr result (λ f. IsPartFaultOf (F.told files.now) (diagrams_due (Diagrams.Pair first.entry second.entry)) f) }
    {
        let (first_name, second_name) = names_of(first, second);
        self.add(alloc, files, first, true, first_name)?;
        self.add(alloc, files, second, true, second_name)?;
        Ok(())
    }

    /// Reads one part more, which is to be one diagram if it `is_one` of two.
    fn add<F: Texts>(
        &mut self,
        alloc: Global,
        files: &F,
        given: Given<'a>,
        is_one: bool,
        name: &'a str,
    ) -> Result<(), PartFault<'a>>
        ensures part { OnOk result (AddsPartOf (F.told files.now) (record { given = given.entry; is_one = is_one }) self.old.texts self.new.texts) }
        ensures fault { IfErr result (λ f. IsWanting (F.told files.now) (record { given = given.entry; is_one = is_one }) f) }
    {
        let bytes = part_bytes(alloc, files, given, name)?;
        if is_one {
            if let Err(why) = one_diagram(bytes.as_slice()) {
                return Err(PartFault::NotOne { name, why });
            }
        }
        match self.push(name, bytes) {
            Ok(()) => Ok(()),
            Err(_) => Err(PartFault::OutOfMemory),
        }
    }

    /// Appends a part, if there is memory.
    fn push(&mut self, name: &'a str, bytes: Vec<u8>) -> Result<(), OutOfMemory>
        ensures { OnOk result (self.new.texts ≡ self.old.texts ++ bytes.items ∷ []) }
    {
        self.names.reserve(1)?;
        self.texts.push(Items::from_vec(bytes))?;
        self.names.push_reserved(name);
        Ok(())
    }
}

/// What a part is called in messages.
fn name_of<'a>(given: Given<'a>) -> &'a str {
    match given {
        Given::File(path) | Given::Code(path) if path == "-" => "standard input",
        Given::File(path) | Given::Code(path) => path,
        Given::Braid(_) => "--braid",
    }
}

/// What two diagrams are called in messages.
fn names_of<'a>(first: Given<'a>, second: Given<'a>) -> (&'a str, &'a str) {
    match (first, second) {
        (Given::Braid(_), Given::Braid(_)) => ("the first --braid", "the second --braid"),
        _ => (name_of(first), name_of(second)),
    }
}
