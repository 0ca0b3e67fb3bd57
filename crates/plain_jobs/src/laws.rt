//! Laws of single jobs, over the definitions alone.
ghost use Rattle.std.specs.Prelude.{◌≡◌, ℕ, List, Ok, false};
ghost use Rattle.grid_core.specs.Diagram.{Diagram};
ghost use Rattle.grid_moves.specs.Joining.{Joins};
ghost use Rattle.quandle_core.specs.Quandle.{Table, IsQuandle};
ghost use Rattle.colour_rows.specs.Colouring.{IsColouring};
ghost use Rattle.braid_core.specs.Braid.{Word, IsBraid};
ghost use Rattle.braid_moves.specs.declared.ruling.BraidRuling.TheVariants.{Accepted};
ghost use Rattle.braid_moves.specs.Ruling.{ruling};
ghost use Rattle.verdict_core.specs.declared.problem.ProblemText.{ProblemText};
ghost use Rattle.knot_text.specs.FirstBadLine.{FailsFirst};
ghost use Rattle.code_text.specs.CodeReading.{code_in};
ghost use Rattle.number_text.specs.declared.said.Said.{Said};
ghost use Rattle.number_text.specs.Said.{said_of};
ghost use Rattle.number_text.specs.Blocks.{blocks_in};
ghost use Rattle.number_text.specs.Numbered.{numbers_in};
ghost use Rattle.table_check.specs.Tables.{begins_table, table_in};
ghost use Rattle.check_job.specs.Input.{as_pair, certificate_in, certificate_of};
ghost use Rattle.plain_jobs.specs.Jobs.Replay.{Carries};
ghost use Rattle.plain_jobs.specs.EquallyMany.{HaveEquallyMany};

use braid_moves::BraidMove;
use grid_moves::Move;

/// Moves that carry colours join the diagrams, and carry each colouring of the first to one of the last.
pub fn a_replay_carries_a_colouring_to_a_colouring()
    ensures joins { (t : Table) (d e : Diagram) (colours last : List ℕ) (moves : List Move) → Carries t d colours moves e last → Joins d moves e }
    ensures colouring { (t : Table) (d e : Diagram) (colours last : List ℕ) (moves : List Move) → IsQuandle t → Carries t d colours moves e last
        → IsColouring t d colours
        → IsColouring t e last }
{}

/// Where steps from one braid to another are accepted, the actions of both braids have equally many fixed points for every
/// quandle, and their closures equally many colourings.
pub fn accepted_braids_have_equally_many_colourings()
    ensures { (v w : Word) → IsBraid v → IsBraid w → (steps : List BraidMove) → ruling v w steps ≡ Accepted → HaveEquallyMany v w }
{}

/// A table, and a certificate of any version, fails at its first bad line, or where something is due at its end.
pub fn a_certificate_fails_at_its_first_bad_line()
    ensures table { FailsFirst table_in }
    ensures certificate { FailsFirst certificate_in }
{}

/// The text of a diagram and blocks, and one of blocks alone, fails at its first bad line, or where something is due at its end.
pub fn a_text_of_blocks_fails_at_its_first_bad_line()
    ensures numbers { FailsFirst numbers_in }
    ensures blocks { FailsFirst blocks_in }
{}

/// The text of a code fails at its first bad line, or where rows are still due at its end.
pub fn a_code_fails_at_its_first_bad_line()
    ensures { FailsFirst code_in }
{}

/// What a reader without tables reads as a problem with what is said of its two diagrams, in one of the first three versions, is still read so. A
/// text whose first line isn't `certificate 4` is read, or fails, as by that reader.
pub fn earlier_certificates_are_read_as_before()
    ensures read { (bytes : List ℕ) (x : ProblemText × Said) → said_of bytes ≡ Ok x → certificate_of bytes ≡ as_pair (Ok x) }
    ensures others { (bytes : List ℕ) → begins_table bytes ≡ false → certificate_of bytes ≡ as_pair (said_of bytes) }
{}
