//! Laws of names and evidence, over the definitions alone.
ghost use Rattle.std.specs.Prelude.{◌≡◌, ◌≢◌, ◌≤◌, ◌↔◌, ℕ, Some};
ghost use Rattle.grid_core.specs.Diagram.{Diagram};
ghost use Rattle.quandle_core.specs.declared.quandle.TheConstants.{MAX_ORDER};
ghost use Rattle.quandle_core.specs.Quandle.{Table, IsQuandle};
ghost use Rattle.quandle_core.specs.Names.{NamedQuandle, NamesWithin, Names, quandle_named};
ghost use Rattle.verdict_core.specs.Evidence.{VerdictHolds, HasEvidence};

use verdict_core::{QuandleName, Verdict};

/// What a name names within a bound is a quandle. Its order is at most the bound, which is no less than `MAX_ORDER`.
pub fn what_a_name_names_is_a_quandle()
    ensures quandle { (most : ℕ) (name : QuandleName) (t : Table) → NamesWithin most name t → IsQuandle t }
    ensures few { (most : ℕ) (name : QuandleName) (t : Table) → MAX_ORDER ≤ most → NamesWithin most name t → t.order ≤ most }
{}

/// Each name but `Table` has one quandle at most, which it names: that of `quandle_named`, where there is one.
pub fn a_name_but_table_has_one_quandle()
    ensures { (name : QuandleName) (q : NamedQuandle)
        → (quandle_named name ≡ Some q) ↔ ((name ≢ QuandleName.Table) × ((q.name ≡ name) × Names name q.table)) }
{}

/// A verdict that holds has evidence.
pub fn what_holds_has_evidence()
    ensures { (d e : Diagram) (verdict : Verdict) → VerdictHolds d e verdict → HasEvidence verdict }
{}
