//! The moves in place beside those of grids.
ghost use Rattle.std.specs.Prelude.{◌<◌};
ghost use Rattle.grid_core.specs.Diagram.{size};

use crate::tests::torus::plain::{columns_exchanged, destabilised, rows_exchanged, stabilised};
use grid_canon::canonical_key;
use grid_core::Grid;
use grid_keys::translate;
use rand_pcg::Pcg32;
use std::process::Abort;
use std::test::Fail;
use torus_grids::{Form, Torus, TorusMove, TorusMoves, below, mark_and_corner};

/// How many diagrams a walk of random moves goes through.
const MOVES: u32 = 400;

/// The grid after a random move, or the same one where the one that was drawn isn't legal.
fn moved(grid: Grid, generator: &mut Pcg32) -> Grid {
    let size = grid.size();
    let line = below(generator, u32::from(size)) as u8;
    let row = below(generator, u32::from(size)) as u8;
    if line >= size || row >= size {
        return grid;
    }
    let next = match below(generator, 8) {
        0 => stabilised(&grid, line, below(generator, 8) as u8),
        1 | 2 => columns_exchanged(&grid, line),
        3 | 4 => rows_exchanged(&grid, line),
        _ => destabilised(&grid, line, row),
    };
    next.unwrap_or(grid)
}

/// Whether a diagram in place is a translate of a grid, by its form and by its columns, and its rows are those of its columns.
fn is_translate(torus: &Torus, grid: &Grid) -> bool {
    let key = canonical_key(grid).key;
    match (torus.grid(), Form::of(torus).torus().grid()) {
        (Some(own), Some(formed)) => {
            canonical_key(&own).key == key
                && canonical_key(&formed).key == key
                && Form::of(torus) == Form::of(&Torus::of(grid))
                && *torus == Torus::of(&own)
        }
        _ => false,
    }
}

/// Whether a move is one of some.
fn is_among(moves: &TorusMoves, torus_move: TorusMove) -> bool {
    for number in 0..moves.count() {
        if moves.at(number) == torus_move {
            return true;
        }
    }
    false
}

/// Whether a move in place is legal where it is for grids, and leads to a translate.
fn agrees(grid: &Grid, torus_move: TorusMove, next: &Option<Grid>) -> bool {
    let mut torus = Torus::of(grid);
    let is_legal = is_among(&torus.moves(), torus_move);
    match next {
        Some(next) => {
            torus.make(torus_move);
            is_legal && is_translate(&torus, next)
        }
        None => !is_legal,
    }
}

/// Compares all exchanges of a grid.
fn compare_exchanges(rt: &impl Abort, grid: &Grid) {
    for line in 0..grid.size() {
        let columns = columns_exchanged(grid, line);
        assert!(rt; agrees(grid, TorusMove::ExchangeColumns(line), &columns));
        let rows = rows_exchanged(grid, line);
        assert!(rt; agrees(grid, TorusMove::ExchangeRows(line), &rows));
    }
}

/// Compares all destabilisations of a grid: a column and the next one may have two blocks, and both lead to one diagram.
fn compare_destabilisations(rt: &impl Abort, grid: &Grid) {
    for column in 0..grid.size() {
        let torus = Torus::of(grid);
        let torus_move = TorusMove::Destabilise(column);
        let count = count_of_blocks(rt, grid, column);
        assert!(rt; is_among(&torus.moves(), torus_move) == (count > 0));
    }
}

/// How many rows a column and the next one have blocks at; each of them is compared.
fn count_of_blocks(rt: &impl Abort, grid: &Grid, column: u8) -> u32
    requires { column < size grid.now }
{
    let mut count = 0u32;
    for row in 0..grid.size() {
        let next = destabilised(grid, column, row);
        if next.is_some() {
            count = count.saturating_add(1);
            assert!(rt; agrees(grid, TorusMove::Destabilise(column), &next));
        }
    }
    count
}

/// Compares all stabilisations of a grid in a column.
fn compare_stabilisations(rt: &impl Abort, grid: &Grid, column: u8) {
    for place in 0u8..8 {
        let (kind, corner) = mark_and_corner(place);
        let mut torus = Torus::of(grid);
        let has_room = torus.stabilise(column, kind, corner);
        match stabilised(grid, column, place) {
            Some(next) => assert!(rt; has_room && is_translate(&torus, &next)),
            None => assert!(rt; !has_room),
        }
    }
}

/// Compares the forms of translates of a grid.
fn compare_translates(rt: &impl Abort, grid: &Grid) {
    let form = Form::of(&Torus::of(grid));
    assert!(rt; form.size() == grid.size());
    for shift in 0..grid.size() {
        let turned = translate(grid, shift, grid.size() - 1 - shift);
        assert!(rt; Form::of(&Torus::of(&turned)) == form);
    }
}

#[test]
fn moves_in_place_are_those_of_grids(rt: HostRuntime) -> Result<(), Fail> {
    let mut grid = Grid::new(&[4, 3, 2, 1, 0], &[2, 1, 0, 4, 3]).map_err(|_| "no grid")?;
    let mut generator = Pcg32::new(1, 54);
    for _move in 0..MOVES {
        compare_exchanges(&rt, &grid);
        compare_destabilisations(&rt, &grid);
        compare_translates(&rt, &grid);
        compare_stabilisations(&rt, &grid, grid.size() / 2);
        grid = moved(grid, &mut generator);
    }
    Ok(())
}

#[test]
fn forms_tell_diagrams_apart_as_keys_do(rt: HostRuntime) -> Result<(), Fail> {
    let mut grid = Grid::new(&[3, 4, 0, 5, 2, 1], &[5, 2, 3, 1, 0, 4]).map_err(|_| "no grid")?;
    let mut generator = Pcg32::new(2, 54);
    for _move in 0..MOVES {
        let key = canonical_key(&grid).key;
        let form = Form::of(&Torus::of(&grid));
        grid = moved(grid, &mut generator);
        let is_same = canonical_key(&grid).key == key;
        assert_eq!(rt; Form::of(&Torus::of(&grid)) == form, is_same);
    }
    Ok(())
}
