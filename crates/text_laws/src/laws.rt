//! Laws of texts, over the definitions alone.
ghost use Rattle.std.specs.Prelude.{◌≡◌, ◌≤◌, ◌+◌, ◌↔◌, ℕ, suc, List, [], ◌∷◌, ◌++◌, length, Some, None, Ok, codes, false, true, is_none, if◌then◌else◌};
ghost use Rattle.grid_core.specs.Diagram.{Diagram as Marks, IsGrid, IsOneEach, size};
ghost use Rattle.grid_core.specs.declared.grid.TheConstants.{MAX_SIZE};
ghost use Rattle.quandle_core.specs.declared.quandle.TheConstants.{MAX_ORDER};
ghost use Rattle.quandle_core.specs.Quandle.{Table};
ghost use Rattle.quandle_core.specs.Fault.{first_fault_within};
ghost use Rattle.cocycle_core.specs.Fault.{first_cocycle_fault as cochain_fault};
ghost use Rattle.arrayvec.specs.ArrayVec.{ArrayVec};
ghost use Rattle.colour_list.specs.declared.limits.TheConstants.{MAX_COLOURINGS};
ghost use Rattle.text_items.specs.declared.reading.TheConstants.{MAX_NUMBER};
ghost use Rattle.text_items.specs.Reading.{in_turn};
ghost use Rattle.colour_rows.specs.Colouring.{AreColours};
ghost use Rattle.braid_core.specs.Braid.{Word, IsBraid};
ghost use Rattle.braid_closure.specs.Closure.{closure_size};
ghost use Rattle.text_lines.specs.Lines.{NumberedLine, Text, starts, begins, first_starts, are_whole_lines, text_from};
ghost use Rattle.text_lines.specs.Spelled.{lines_text};
ghost use Rattle.verdict_core.specs.declared.diagrams.Diagram.TheVariants as diagram;
ghost use Rattle.quandle_core.specs.Names.{NamedQuandle};
ghost use Rattle.text_items.specs.Quandles.{built_in};
ghost use Rattle.text_items.specs.Numbers.{numbers_below};
ghost use Rattle.text_items.specs.Grids.{are_rows, x_at, o_at, grid_item};
ghost use Rattle.text_items.specs.Braids.{braid_at, braid_item};
ghost use Rattle.verdict_text.specs.Moves.{move_at, move_lines, tidy_moves, moves_item};
ghost use Rattle.text_items.specs.declared.quandles.TheConstants.{MAX_QUANDLES};
ghost use Rattle.text_items.specs.Quandles.{table_item, quandle_item, surplus_quandle, quandles, quandle_list};
ghost use Rattle.knot_text.specs.Colours.{colours_at, colours_item, coloured};
ghost use Rattle.verdict_text.specs.Verdicts.{moves_of, colour_line, list_item, verdict_of, version_at, verdict_item};
ghost use Rattle.verdict_core.specs.Diagrams.{grid_of, column_count};
ghost use Rattle.verdict_text.specs.Diagrams.{diagram_item};
ghost use Rattle.verdict_text.specs.Problems.{problem_item, problem_in, check_in, problem_of, check_of};
ghost use Rattle.knot_text.specs.Shapes.{replay_in, colour_in, close_in, lone_diagram_in, replay_of, colour_of, close_of, lone_diagram_of};
ghost use Rattle.knot_text.specs.Pairs.{pair_in, pair_of};
ghost use Rattle.knot_text.specs.BraidSteps.{step_at, step_lines, steps_item};
ghost use Rattle.knot_text.specs.BraidChecks.{braidcheck_in, braidcheck_of};
ghost use Rattle.verdict_text.specs.Cocycles.{cochain, cocycle_item};
ghost use Rattle.text_items.specs.Modulus.{modulus_at};
ghost use Rattle.knot_text.specs.Weights.{weight_in, weight_of};
ghost use Rattle.knot_text.specs.Printed.{grid_text, braid_text, moves_text, version_lines, version_text, HaveMovesText, HasVersionText};
ghost use Rattle.knot_text.specs.Printed.{grid_lines, moves_lines, quandle_lines, quandle_text, braid_lines, diagram_lines};
ghost use Rattle.knot_text.specs.Printed.{colours_lines, colours_text, HasQuandleText, HasDiagramText, steps_text, HaveStepsText};
ghost use Rattle.knot_text.specs.WrittenThere.{StandInFront, said_by, HasProblemText, problem_lines, IsProblemText, IsCheckText};
ghost use Rattle.knot_text.specs.WrittenThere.{HasReplayText, replay_lines, IsColourText, IsCloseText, IsPairText};
ghost use Rattle.knot_text.specs.WrittenThere.{StepsInFront, IsBraidCheckText, HasWeightText, weight_lines};
ghost use Rattle.text_laws.specs.LineKinds.{FailsByKind, x_kind, o_kind, colours_kind, below_kind, braid_kind, move_kind, step_kind, modulus_kind};
ghost use Rattle.text_laws.specs.LineKinds.{certificate_kind, read_fault, row_values, counted_kind, unknown_kind, name_kind, others};
ghost use Rattle.text_laws.specs.LineKinds.{behind_word, surplus_kind};
ghost use Rattle.text_laws.specs.FirstLines.{count, table_fault, on_top, BeginsBy, BeginsWith, BeginsElse, FailsWith, FailsElse};
ghost use Rattle.text_laws.specs.FirstLines.{lines_fault, tidy_fault, rows_fault, item_then, end_fault, as_quandle};
ghost use Rattle.knot_text.specs.FirstBadLine.{with_lines_behind, IsStable, FailsFirst};

use braid_moves::BraidMove;
use grid_moves::Move;
use knot_text::{BraidCheckText, CloseText, ColourText, ReplayText, Version, WeightText};
use verdict_core::{Diagram, ProblemText, Verdict};

/// A printed grid is read back, whatever follows it.
pub fn a_printed_grid_is_read()
    ensures { (n : ℕ) (d : Marks) (more : List ℕ) → IsGrid d
        → grid_item (text_from n (grid_text d ++ more)) ≡ Ok (d, text_from (n + 2) more) }
{}

/// Each braid has a text, which is read as this braid, whatever follows it; and what is read as a braid is one.
pub fn a_written_braid_is_read()
    ensures text { (n : ℕ) (b : Word) (more : List ℕ) → IsBraid b
        → braid_item (text_from n (braid_text b ++ more)) ≡ Ok (b, text_from (n + 1) more) }
    ensures braid { (text : Text) (b : Word) (rest : Text) → braid_item text ≡ Ok (b, rest) → IsBraid b }
{}

/// Printed moves are read back, whatever follows them, if there are few enough.
pub fn printed_moves_are_read()
    ensures { (n : ℕ) (moves : List Move) (more : List ℕ) → HaveMovesText moves
        → moves_item (text_from n (moves_text moves ++ more)) ≡ Ok (moves, text_from (n + (length moves + 1)) more) }
{}

/// Steps between braids have a text, if there are few enough with small enough places and letters. It is read as these
/// steps, whatever follows it.
pub fn written_steps_are_read()
    ensures { (n : ℕ) (steps : List BraidMove) (more : List ℕ) → HaveStepsText steps
        → steps_item (text_from n (steps_text steps ++ more)) ≡ Ok (steps, text_from (n + (length steps + 1)) more) }
{}

/// A printed verdict of either version is read back, whatever follows it, if it has a text after two diagrams of these sizes.
pub fn a_printed_verdict_is_read()
    ensures { (version : Version) (n one two : ℕ) (v : Verdict) (more : List ℕ) → 1 ≤ one → 1 ≤ two → HasVersionText version one two v
        → verdict_item one two (text_from n (version_text version v ++ more)) ≡ Ok (v, text_from (n + length (version_lines version v)) more) }
{}

/// A verdict that is printed after the text of its problem is read with it, after a line feed where the last line of
/// the problem lacks one.
pub fn a_verdict_behind_its_problem_is_read()
    ensures whole { (version : Version) (bytes : List ℕ) (p : ProblemText) (v : Verdict) → are_whole_lines bytes ≡ true → problem_of bytes ≡ Ok p
        → HasVersionText version (column_count p.first) (column_count p.second) v → check_of (bytes ++ version_text version v) ≡ Ok (p, v) }
    ensures feed { (version : Version) (bytes : List ℕ) (p : ProblemText) (v : Verdict) → are_whole_lines bytes ≡ false → problem_of bytes ≡ Ok p
        → HasVersionText version (column_count p.first) (column_count p.second) v → check_of (bytes ++ (codes "\n" ++ version_text version v)) ≡ Ok (p, v) }
{}

/// Two printed grids and a printed verdict are a problem with the built-in list of quandles, and this verdict.
pub fn a_printed_certificate_is_read()
    ensures { (version : Version) (a b : Marks) (v : Verdict) → IsGrid a → IsGrid b → HasVersionText version (size a) (size b) v
        → check_of (grid_text a ++ (grid_text b ++ version_text version v))
        ≡ Ok (record { first = diagram.Grid a; second = diagram.Grid b; quandles = built_in }, v) }
{}

/// A text is read by what its lines say: texts of the same tokens in the same lines have one reading of each shape,
/// whatever blanks, skipped lines and carriage returns they have.
pub fn a_text_has_one_reading()
    ensures problem { (a b : List ℕ) (p : ProblemText) → said_by a ≡ said_by b → problem_of a ≡ Ok p → problem_of b ≡ Ok p }
    ensures check { (a b : List ℕ) (p : ProblemText) (v : Verdict) → said_by a ≡ said_by b → check_of a ≡ Ok (p, v)
        → check_of b ≡ Ok (p, v) }
    ensures replay { (a b : List ℕ) (r : ReplayText) → said_by a ≡ said_by b → replay_of a ≡ Ok r → replay_of b ≡ Ok r }
    ensures colour { (a b : List ℕ) (c : ColourText) → said_by a ≡ said_by b → colour_of a ≡ Ok c → colour_of b ≡ Ok c }
    ensures close { (a b : List ℕ) (c : CloseText) → said_by a ≡ said_by b → close_of a ≡ Ok c → close_of b ≡ Ok c }
    ensures diagram { (a b : List ℕ) (d : Diagram) → said_by a ≡ said_by b → lone_diagram_of a ≡ Ok d → lone_diagram_of b ≡ Ok d }
    ensures pair { (a b : List ℕ) (d e : Diagram) → said_by a ≡ said_by b → pair_of a ≡ Ok (d, e) → pair_of b ≡ Ok (d, e) }
    ensures braidcheck { (a b : List ℕ) (i : BraidCheckText) → said_by a ≡ said_by b → braidcheck_of a ≡ Ok i → braidcheck_of b ≡ Ok i }
    ensures weights { (a b : List ℕ) (w : WeightText) → said_by a ≡ said_by b → weight_of a ≡ Ok w → weight_of b ≡ Ok w }
{}

/// A printed text is that of one value alone.
pub fn a_printed_text_has_one_value()
    ensures grid { (d e : Marks) → IsGrid d → IsGrid e → grid_text d ≡ grid_text e → d ≡ e }
    ensures moves { (a b : List Move) → HaveMovesText a → HaveMovesText b → moves_text a ≡ moves_text b → a ≡ b }
    ensures verdict { (one two : ℕ) (a b : Version) (v w : Verdict) → 1 ≤ one → 1 ≤ two → HasVersionText a one two v → HasVersionText b one two w
        → version_text a v ≡ version_text b w → v ≡ w }
{}

/// Each fault is that of the first bad line: it names this line, all lines before are good, and no later line changes
/// it. Where no line is bad, something is due where the text ends, and the fault names that place.
pub fn a_fault_is_that_of_the_first_bad_line()
    ensures problem { FailsFirst problem_in }
    ensures check { FailsFirst check_in }
    ensures replay { FailsFirst replay_in }
    ensures colour { FailsFirst colour_in }
    ensures close { FailsFirst close_in }
    ensures diagram { FailsFirst lone_diagram_in }
    ensures pair { FailsFirst pair_in }
    ensures braidcheck { FailsFirst braidcheck_in }
    ensures weights { FailsFirst weight_in }
{}

/// A line is over a limit exactly where it has the form of its kind and exceeds a limit, and malformed exactly where it has
/// not the form, or has it, exceeds no limit, and says what can't be. Form, limits and content are those of `LineKinds`.
pub fn a_line_fails_by_its_form_then_its_limits_then_its_content()
    ensures x { FailsByKind x_kind x_at }
    ensures o { (x : List ℕ) → FailsByKind (o_kind x) (o_at x) }
    ensures colours { (width order : ℕ) → FailsByKind (colours_kind width order) (colours_at width order) }
    ensures below { (width order : ℕ) → FailsByKind (below_kind width order) (numbers_below width order) }
    ensures braid_line { FailsByKind braid_kind braid_at }
    ensures move_line { FailsByKind move_kind move_at }
    ensures step { FailsByKind step_kind step_at }
    ensures modulus { FailsByKind modulus_kind modulus_at }
    ensures version { FailsByKind certificate_kind version_at }
{}

/// The rows that a line of Xs may have: two or more, and each number below their number once. So it is refused in its own
/// line, and not in the line of the Os after it.
pub fn rows_are_each_number_once()
    ensures { (rows : List ℕ) → are_rows rows ≡ true ↔ ((2 ≤ length rows) × IsOneEach (length rows) rows) }
{}

/// An item fails by its first line, where that is no line of its kind, else by what this line asks for after it: the other
/// line of a grid, as many moves, steps or lines of colours, the lines of a table, or after `certificate` the verdict. Its form,
/// limits and content are those of `LineKinds`.
pub fn an_item_fails_by_its_first_line_first()
    ensures grid { BeginsBy x_kind (λ tokens text. lines_fault (o_kind (row_values tokens)) 1 text) grid_item }
    ensures braid { BeginsBy braid_kind (λ tokens text. None) braid_item }
    ensures braid_diagram { BeginsWith (codes "braid") braid_kind (λ tokens text. None) diagram_item }
    ensures grid_diagram { BeginsElse (codes "braid") x_kind (λ tokens text. lines_fault (o_kind (row_values tokens)) 1 text) diagram_item }
    ensures colours { (width order : ℕ) → BeginsBy (colours_kind width order) (λ tokens text. None) (colours_item width order) }
    ensures cocycle { (q : Table) → BeginsBy modulus_kind
        (λ tokens text. rows_fault q.order (count tokens) (λ entries. is_none (cochain_fault (cochain q (count tokens) entries))) text) (cocycle_item q) }
    ensures moves { BeginsBy (counted_kind (codes "moves") MAX_NUMBER) (λ tokens text. read_fault (move_lines (count tokens) text)) moves_item }
    ensures steps { BeginsBy (counted_kind (codes "steps") MAX_NUMBER) (λ tokens text. read_fault (step_lines (count tokens) text)) steps_item }
    ensures quandle { BeginsBy (behind_word (codes "quandle") name_kind) (λ tokens text. table_fault (others tokens) text) quandle_item }
    ensures surplus { BeginsBy surplus_kind (λ tokens text. None) surplus_quandle }
    ensures list { (width order : ℕ) → BeginsBy (counted_kind (codes "list") MAX_COLOURINGS)
        (λ tokens text. read_fault (in_turn (colour_line width order) (count tokens) text)) (list_item width order) }
    ensures equal { (version : Version) (one two : ℕ) → BeginsWith (codes "equal") (counted_kind (codes "equal") MAX_NUMBER)
        (λ tokens text. read_fault (moves_of version (count tokens) text)) (verdict_of version one two) }
    ensures unknown { (version : Version) (one two : ℕ) → BeginsWith (codes "unknown") unknown_kind (λ tokens text. None) (verdict_of version one two) }
    ensures different { (version : Version) (one two : ℕ)
        → FailsWith (codes "different") (behind_word (codes "different") name_kind) (verdict_of version one two) }
    ensures other { (version : Version) (one two : ℕ)
        → FailsElse (codes "equal" ∷ codes "different" ∷ codes "unknown" ∷ []) (verdict_of version one two) }
    ensures certificate { (one two : ℕ) → BeginsWith (codes "certificate") certificate_kind
        (λ tokens text. read_fault (verdict_of Version.Tidy one two text)) (verdict_item one two) }
    ensures plain { (one two : ℕ) (line : NumberedLine) (text : Text) → starts (codes "certificate") line.tokens ≡ false
        → read_fault (verdict_item one two (on_top line text)) ≡ read_fault (verdict_of Version.Plain one two (on_top line text)) }
{}

/// Lines of one kind, one after the other, fail by the first of them that is no line of this kind. That a table is one of a
/// quandle is part of the content of its last line; that a move of a tidy list may follow on the one before it is part of the content
/// of its own line.
pub fn lines_of_a_kind_fail_in_turn()
    ensures moves { (count : ℕ) (text : Text) → read_fault (move_lines count text) ≡ lines_fault move_kind count text }
    ensures tidy { (count : ℕ) (text : Text) → read_fault (tidy_moves None count text) ≡ tidy_fault count text }
    ensures steps { (count : ℕ) (text : Text) → read_fault (step_lines count text) ≡ lines_fault step_kind count text }
    ensures list { (width order count : ℕ) (text : Text)
        → read_fault (in_turn (colour_line width order) count text) ≡ lines_fault (below_kind width order) count text }
    ensures table { (order : ℕ) (text : Text) → read_fault (table_item order text)
        ≡ rows_fault order order (λ entries. is_none (first_fault_within order (record { order = order; entries = entries }))) text }
{}

/// A text fails by its items in turn, and what follows the last of them is malformed; a list of quandles fails by the
/// quandles that it lists.
pub fn a_text_fails_by_its_items_in_turn()
    ensures problem_front { (text : Text) → read_fault (problem_item text)
        ≡ item_then (diagram_item text) (λ first text. item_then (diagram_item text) (λ second text. read_fault (quandle_list text))) }
    ensures problem { (text : Text) → read_fault (problem_in text) ≡ item_then (problem_item text) (λ problem text. end_fault text) }
    ensures check { (text : Text) → read_fault (check_in text) ≡ item_then (problem_item text)
        (λ problem text. item_then (verdict_item (column_count problem.first) (column_count problem.second) text) (λ verdict text. end_fault text)) }
    ensures replay { (text : Text) → read_fault (replay_in text) ≡ item_then (diagram_item text)
        (λ diagram text. item_then (moves_item text) (λ moves text. item_then (coloured (column_count diagram) text) (λ colours text. end_fault text))) }
    ensures colour { (text : Text) → read_fault (colour_in text)
        ≡ item_then (diagram_item text) (λ diagram text. item_then (quandle_list text) (λ quandles text. end_fault text)) }
    ensures close { (text : Text) → read_fault (close_in text)
        ≡ item_then (braid_item text) (λ braid text. item_then (quandle_list text) (λ quandles text. end_fault text)) }
    ensures diagram { (text : Text) → read_fault (lone_diagram_in text) ≡ item_then (diagram_item text) (λ diagram text. end_fault text) }
    ensures pair { (text : Text) → read_fault (pair_in text)
        ≡ item_then (diagram_item text) (λ first text. item_then (diagram_item text) (λ second text. end_fault text)) }
    ensures braidcheck { (text : Text) → read_fault (braidcheck_in text) ≡ item_then (braid_item text)
        (λ first text. item_then (braid_item text) (λ second text. item_then (steps_item text) (λ steps text. end_fault text))) }
    ensures weights { (text : Text) → read_fault (weight_in text) ≡ item_then (diagram_item text) (λ first text. item_then (diagram_item text)
        (λ second text. item_then (quandle_item text) (λ q text. item_then (cocycle_item q.table text) (λ cocycle text. end_fault text)))) }
    ensures coloured { (width : ℕ) (text : Text) → read_fault (coloured width text) ≡ (if begins (codes "quandle") text
        then item_then (quandle_item text) (λ q text. read_fault (colours_item width q.table.order text)) else None) }
    ensures list { (text : Text) → read_fault (quandle_list text) ≡ read_fault (quandles MAX_QUANDLES text) }
    ensures listed { (room : ℕ) (text : Text) → read_fault (quandles (suc room) text) ≡ (if begins (codes "quandle") text
        then item_then (quandle_item text) (λ q text. read_fault (quandles room text)) else None) }
    ensures full { (text : Text) → read_fault (quandles 0 text) ≡ (if begins (codes "quandle") text then read_fault (surplus_quandle text) else None) }
    ensures different { (version : Version) (one two : ℕ) (line : NumberedLine) (text : Text) → starts (codes "different") line.tokens ≡ true
        → read_fault (verdict_of version one two (on_top line text)) ≡ item_then (quandle_item (on_top (as_quandle line) text))
        (λ q text. item_then (list_item one q.table.order text) (λ list text. read_fault (list_item two q.table.order text))) }
{}

/// An item is read from the front of a text in the same way whatever whole lines are put after the text.
pub fn items_are_read_whatever_stands_behind()
    ensures grid { IsStable grid_item }
    ensures braid { IsStable braid_item }
    ensures diagram { IsStable diagram_item }
    ensures quandle { IsStable quandle_item }
    ensures moves { IsStable moves_item }
    ensures steps { IsStable steps_item }
    ensures colours { (width order : ℕ) → IsStable (colours_item width order) }
    ensures verdict { (one two : ℕ) → IsStable (verdict_item one two) }
{}

/// A problem is read in the same way where lines are put after it, if the first of them begins with no `quandle`.
pub fn a_problem_is_read_before_other_lines()
    ensures { (text : Text) (p : ProblemText) (rest : Text) → problem_item text ≡ Ok (p, rest)
        → (more : List NumberedLine) (ending : ℕ) → first_starts (codes "quandle") more ≡ false
        → problem_item (with_lines_behind text more ending) ≡ Ok (p, with_lines_behind rest more ending) }
{}

/// Each diagram that is read has a grid, which for a braid is its closure; the number of columns is the size of this grid,
/// and for a braid of m strands and l letters it is l + 2m.
pub fn a_read_diagram_has_a_grid()
    ensures grid { (text : Text) (d : Diagram) (rest : Text) → diagram_item text ≡ Ok (d, rest) → IsGrid (grid_of d) }
    ensures braid { (b : Word) → IsBraid b → IsGrid (grid_of (diagram.Braid b)) }
    ensures columns { (b : Word) → IsBraid b → column_count (diagram.Braid b) ≡ closure_size b }
{}

/// The colours that a replay is given are one below the order of their quandle for each column of its diagram.
pub fn the_colours_of_a_replay_are_colours()
    ensures { (bytes : List ℕ) (r : ReplayText) (q : NamedQuandle) (c : ArrayVec ℕ) → replay_of bytes ≡ Ok r → r.colours ≡ Some (q, c)
        → AreColours (column_count r.diagram) q.table.order c.items }
{}

/// An item is read as a value exactly where the value has a text and the lines of this text come before what is
/// left, token for token; an inserted letter 0 alone may be written in two ways, `0` and `-0`. So whatever else a line says
/// is refused, and all else is read.
pub fn what_is_read_is_written_there()
    ensures grid { (text : Text) (d : Marks) (rest : Text)
        → grid_item text ≡ Ok (d, rest) ↔ (IsGrid d × StandInFront (grid_lines d) text rest) }
    ensures braid { (text : Text) (b : Word) (rest : Text)
        → braid_item text ≡ Ok (b, rest) ↔ (IsBraid b × StandInFront (braid_lines b) text rest) }
    ensures diagram { (text : Text) (d : Diagram) (rest : Text)
        → diagram_item text ≡ Ok (d, rest) ↔ (HasDiagramText d × StandInFront (diagram_lines d) text rest) }
    ensures moves { (text : Text) (moves : List Move) (rest : Text)
        → moves_item text ≡ Ok (moves, rest) ↔ (HaveMovesText moves × StandInFront (moves_lines (codes "moves") moves) text rest) }
    ensures steps { (text : Text) (steps : List BraidMove) (rest : Text)
        → steps_item text ≡ Ok (steps, rest) ↔ (HaveStepsText steps × StepsInFront steps text rest) }
    ensures quandle { (text : Text) (q : NamedQuandle) (rest : Text)
        → quandle_item text ≡ Ok (q, rest) ↔ (HasQuandleText q × StandInFront (quandle_lines (codes "quandle") q) text rest) }
    ensures colours { (width order : ℕ) (text : Text) (c : ArrayVec ℕ) (rest : Text) → width ≤ MAX_SIZE → order ≤ MAX_ORDER
        → colours_item width order text ≡ Ok (c, rest) ↔ (AreColours width order c.items × StandInFront (colours_lines c) text rest) }
    ensures verdict { (one two : ℕ) (text : Text) (v : Verdict) (rest : Text)
        → verdict_item one two text ≡ Ok (v, rest)
        ↔ ((version : Version) × (HasVersionText version one two v × StandInFront (version_lines version v) text rest)) }
{}

/// A text is read as a value exactly where the value has a text and the lines that say something are the lines of this
/// text, token for token: those of its items in order, and no others. Of the quandles of a problem these are the lines of
/// those that are listed; where there are none, the built-in list takes their place. An inserted letter 0 may be written `-0`.
pub fn a_text_is_read_as_what_it_says()
    ensures problem { (bytes : List ℕ) (p : ProblemText) → problem_of bytes ≡ Ok p ↔ IsProblemText (said_by bytes) p }
    ensures check { (bytes : List ℕ) (p : ProblemText) (v : Verdict) → check_of bytes ≡ Ok (p, v) ↔ IsCheckText (said_by bytes) p v }
    ensures replay { (bytes : List ℕ) (r : ReplayText) → replay_of bytes ≡ Ok r ↔ (HasReplayText r × (said_by bytes ≡ replay_lines r)) }
    ensures colour { (bytes : List ℕ) (c : ColourText) → colour_of bytes ≡ Ok c ↔ IsColourText (said_by bytes) c }
    ensures close { (bytes : List ℕ) (c : CloseText) → close_of bytes ≡ Ok c ↔ IsCloseText (said_by bytes) c }
    ensures diagram { (bytes : List ℕ) (d : Diagram)
        → lone_diagram_of bytes ≡ Ok d ↔ (HasDiagramText d × (said_by bytes ≡ diagram_lines d)) }
    ensures pair { (bytes : List ℕ) (d e : Diagram) → pair_of bytes ≡ Ok (d, e) ↔ IsPairText (said_by bytes) (d, e) }
    ensures braidcheck { (bytes : List ℕ) (i : BraidCheckText) → braidcheck_of bytes ≡ Ok i ↔ IsBraidCheckText (said_by bytes) i }
    ensures weights { (bytes : List ℕ) (w : WeightText) → weight_of bytes ≡ Ok w ↔ (HasWeightText w × (said_by bytes ≡ weight_lines w)) }
{}

/// A printed grid and printed moves are read as a replay, and with a printed quandle and printed colours after them as one
/// that carries colours.
pub fn a_printed_replay_is_read()
    ensures moves { (d : Marks) (moves : List Move) → IsGrid d → HaveMovesText moves
        → replay_of (grid_text d ++ moves_text moves) ≡ Ok (record { diagram = diagram.Grid d; moves = moves; colours = None }) }
    ensures colours { (d : Marks) (moves : List Move) (q : NamedQuandle) (c : ArrayVec ℕ) → IsGrid d → HaveMovesText moves → HasQuandleText q
        → AreColours (size d) q.table.order c.items
        → replay_of (grid_text d ++ (moves_text moves ++ (quandle_text q ++ colours_text c)))
        ≡ Ok (record { diagram = diagram.Grid d; moves = moves; colours = Some (q, c) }) }
    ensures any { (r : ReplayText) → HasReplayText r → replay_of (lines_text (replay_lines r)) ≡ Ok r }
{}

/// The printed lines of the items of a problem are read as this problem, those of a problem and a verdict as both.
pub fn a_printed_problem_is_read()
    ensures problem { (listed : List NamedQuandle) (p : ProblemText) → HasProblemText listed p
        → problem_of (lines_text (problem_lines listed p)) ≡ Ok p }
    ensures check { (version : Version) (listed : List NamedQuandle) (p : ProblemText) (v : Verdict) → HasProblemText listed p
        → HasVersionText version (column_count p.first) (column_count p.second) v
        → check_of (lines_text (problem_lines listed p ++ version_lines version v)) ≡ Ok (p, v) }
{}
