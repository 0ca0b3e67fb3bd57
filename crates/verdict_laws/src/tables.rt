//! Laws of the ruling on a table of knots, over the definitions alone.
ghost use Rattle.std.specs.Prelude.{◌≡◌};
ghost use Rattle.std.specs.List.{All};
ghost use Rattle.grid_core.specs.Diagram.{IsGrid};
ghost use Rattle.verdict_core.specs.Diagrams.{grid_of};
ghost use Rattle.table_check.specs.declared.tables.KnotTable.{KnotTable};
ghost use Rattle.table_check.specs.Ruling.{RulesOnTable};

use table_check::TableRuling;

/// On a table whose diagrams are grids, as in every table that was read, there is exactly one ruling.
pub fn a_table_has_exactly_one_ruling()
    ensures some { (t : KnotTable) → All (λ c. IsGrid (grid_of c.diagram)) t.classes → All (λ r. IsGrid (grid_of r.diagram)) t.rows
        → (ruling : TableRuling) × RulesOnTable t ruling }
    ensures single { (t : KnotTable) (one two : TableRuling) → RulesOnTable t one → RulesOnTable t two → one ≡ two }
{}
