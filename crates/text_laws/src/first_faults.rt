//! The first fault of a braid word, of a step, of a diagram and of a move comes first among all that there are.
ghost use Rattle.std.specs.Prelude.{◌≡◌, ◌↔◌, Some};
ghost use Rattle.grid_core.specs.Diagram.{Diagram};
ghost use Rattle.grid_core.specs.Fault.{first_grid_fault};
ghost use Rattle.grid_core.specs.declared.fault.GridFault.{GridFault};
ghost use Rattle.grid_moves.specs.MoveFault.{first_move_fault};
ghost use Rattle.grid_moves.specs.declared.step.Move.{Move};
ghost use Rattle.grid_moves.specs.declared.step.MoveFault.{MoveFault};
ghost use Rattle.braid_core.specs.Braid.{Word, IsBraid};
ghost use Rattle.braid_core.specs.Fault.{first_word_fault};
ghost use Rattle.braid_core.specs.declared.fault.BraidFault.{BraidFault};
ghost use Rattle.braid_moves.specs.Fault.{first_step_fault};
ghost use Rattle.braid_moves.specs.declared.step.BraidMove.{BraidMove};
ghost use Rattle.braid_moves.specs.declared.step.BraidMoveFault.{BraidMoveFault};
ghost use Rattle.text_laws.specs.First.{IsFirst};
ghost use Rattle.text_laws.specs.WordFaults.{IsWordFault, word_rank, word_number};
ghost use Rattle.text_laws.specs.StepFaults.{IsStepFault, step_rank, step_number};
ghost use Rattle.text_laws.specs.GridFaults.{IsGridFault, grid_rank, grid_number};
ghost use Rattle.text_laws.specs.MoveFaults.{IsMoveFault, move_rank, move_number};

/// Of a number of strands and a list of letters: strands, then the first bad letter, then the size.
pub fn the_first_fault_of_a_word_comes_first()
    ensures { (b : Word) (fault : BraidFault)
        → (first_word_fault b ≡ Some fault) ↔ IsFirst (IsWordFault b) word_rank word_number fault }
{}

/// Of a step of a braid: letters that are not there, then their shape, then the room.
pub fn the_first_fault_of_a_step_comes_first()
    ensures { (w : Word) (step : BraidMove) (fault : BraidMoveFault) → IsBraid w
        → (first_step_fault w step ≡ Some fault) ↔ IsFirst (IsStepFault w step) step_rank step_number fault }
{}

/// Of two lists of rows by column: size, length, and then a row outside, a row that comes again and a cell with both marks, each at its lowest column.
pub fn the_first_fault_of_a_grid_comes_first()
    ensures { (d : Diagram) (fault : GridFault)
        → (first_grid_fault d.x d.o ≡ Some fault) ↔ IsFirst (IsGridFault d) grid_rank grid_number fault }
{}

/// Of a move: numbers out of range, then the two neighbours, the block, or the room.
pub fn the_first_fault_of_a_move_comes_first()
    ensures { (d : Diagram) (move : Move) (fault : MoveFault)
        → (first_move_fault d move ≡ Some fault) ↔ IsFirst (IsMoveFault d move) move_rank move_number fault }
{}
