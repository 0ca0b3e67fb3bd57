//! Every move on every grid of two to four columns, beside a plain definition.
ghost use Rattle.std.specs.Prelude.{◌<◌, ◌≤◌};

use grid_core::{Corner, Grid, Kind};
use grid_moves::{Move, apply, inverse};
use std::test::Fail;

const KINDS: [Kind; 2] = [Kind::Cross, Kind::Ring];

/// For each line of a small grid (a column or a row), where it has a mark.
type Lines = [[bool; 4]; 4];

#[test]
fn each_move_of_each_small_grid_is_legal_by_the_plain_definition_and_undone(
    rt: HostRuntime,
) -> Result<(), Fail> {
    assert_eq!(rt; grids_tried(2, 4)?, 2);
    assert_eq!(rt; grids_tried(3, 27)?, 12);
    assert_eq!(rt; grids_tried(4, 256)?, 216);
    Ok(())
}

/// Tries each grid of a size, found among all pairs of lists of as many rows, and answers their number.
fn grids_tried(n: u8, lists: u16) -> Result<u32, Fail>
    requires least { 1 < n }
    requires most { n ≤ 4 }
{
    let mut grids: u32 = 0;
    for first in 0..lists {
        let x = digits(first, n);
        for second in 0..lists {
            let o = digits(second, n);
            let (x, _) = x.split_at(n as usize);
            let (o, _) = o.split_at(n as usize);
            if let Ok(grid) = Grid::new(x, o) {
                try_moves(&grid, n, &lines_of(x, o))?;
                grids = grids.saturating_add(1);
            }
        }
    }
    Ok(grids)
}

/// The four last digits of a number to a base, the last one first.
fn digits(number: u16, base: u8) -> [u8; 4]
    requires { 1 < base }
{
    let mut digits = [0; 4];
    let mut rest = number;
    for digit in digits.iter_mut() {
        *digit = (rest % u16::from(base)) as u8;
        rest /= u16::from(base);
    }
    digits
}

/// The columns with a mark in each row, and the rows with a mark in each column.
fn lines_of(x: &[u8], o: &[u8]) -> (Lines, Lines) {
    let mut columns = [[false; 4]; 4];
    let mut rows = [[false; 4]; 4];
    for list in [x, o] {
        for (c, r) in list.iter().enumerate() {
            let r = usize::from(*r);
            if c < 4 && r < 4 {
                columns[c][r] = true;
                rows[r][c] = true;
            }
        }
    }
    (columns, rows)
}

/// Compares each move with the plain definition, some numbers out of range included.
fn try_moves(grid: &Grid, n: u8, lines: &(Lines, Lines)) -> Result<(), Fail>
    requires { n ≤ 4 }
{
    for k in 0..n + 2 {
        let shifts = 0 < k && k < n;
        try_move(grid, Move::ShiftColumns(k), shifts)?;
        try_move(grid, Move::ShiftRows(k), shifts)?;
        try_move(grid, Move::ExchangeColumns(k), may_exchange(&lines.0, k, n))?;
        try_move(grid, Move::ExchangeRows(k), may_exchange(&lines.1, k, n))?;
        try_move(grid, Move::SlideColumns(k), shared(&lines.0, k, n) == 1)?;
        try_move(grid, Move::SlideRows(k), shared(&lines.1, k, n) == 1)?;
        try_stabilisations(grid, k, k < n)?;
        for row in 0..n + 2 {
            let block = marks_in_block(&lines.0, k, row, n) == 3;
            try_move(grid, Move::Destabilise { column: k, row }, block)?;
        }
    }
    Ok(())
}

/// Compares the eight stabilisations in a column with the plain definition.
fn try_stabilisations(grid: &Grid, column: u8, legal: bool) -> Result<(), Fail> {
    for kind in KINDS {
        for corner in Corner::ALL {
            let step = Move::Stabilise {
                column,
                kind,
                corner,
            };
            try_move(grid, step, legal)?;
        }
    }
    Ok(())
}

/// Whether a move is applied exactly where it is legal, and then undone by its inverse.
fn try_move(grid: &Grid, step: Move, legal: bool) -> Result<(), Fail> {
    match apply(grid, step) {
        Ok(next) => match apply(&next, inverse(grid, step)) {
            Ok(back) if legal && back.same_as(grid) => Ok(()),
            _ => Err(Fail::from("no way back, or not legal")),
        },
        Err(_) => {
            if legal {
                Err(Fail::from("legal"))
            } else {
                Ok(())
            }
        }
    }
}

/// Whether the four marks of two neighbouring lines are at four places, and read in order along the lines don't
/// change from line to line three times.
fn may_exchange(lines: &Lines, i: u8, n: u8) -> bool {
    let i = usize::from(i);
    let (Some(near), Some(far)) = (lines.get(i), lines.get(i + 1)) else {
        return false;
    };
    let mut changes: u8 = 0;
    let mut last = None;
    for (a, b) in near.iter().zip(far.iter()) {
        if *a && *b {
            return false;
        }
        if *a || *b {
            if last == Some(!*a) {
                changes = changes.saturating_add(1);
            }
            last = Some(*a);
        }
    }
    i + 1 < usize::from(n) && changes < 3
}

/// At how many places two neighbouring lines both have a mark, or 0 where there are no two.
fn shared(lines: &Lines, i: u8, n: u8) -> u8 {
    let i = usize::from(i);
    let (Some(near), Some(far)) = (lines.get(i), lines.get(i + 1)) else {
        return 0;
    };
    let mut both: u8 = 0;
    for (a, b) in near.iter().zip(far.iter()) {
        if *a && *b {
            both = both.saturating_add(1);
        }
    }
    if i + 1 < usize::from(n) { both } else { 0 }
}

/// How many cells of a block have a mark, or 0 where the block does not lie in the grid.
fn marks_in_block(columns: &Lines, column: u8, row: u8, n: u8) -> u8 {
    let (c, r, n) = (usize::from(column), usize::from(row), usize::from(n));
    if c + 1 >= n || r + 1 >= n {
        return 0;
    }
    u8::from(is_marked(columns, c, r))
        + u8::from(is_marked(columns, c, r + 1))
        + u8::from(is_marked(columns, c + 1, r))
        + u8::from(is_marked(columns, c + 1, r + 1))
}

/// Whether a cell has a mark.
fn is_marked(columns: &Lines, c: usize, r: usize) -> bool {
    match columns.get(c) {
        Some(column) => column.get(r) == Some(&true),
        None => false,
    }
}
