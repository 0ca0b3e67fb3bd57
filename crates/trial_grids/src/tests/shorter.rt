//! Long paths along walks at random, shortened.
use grid_core::Grid;
use rand_pcg::Pcg32;
use std::alloc::Global;
use std::test::Fail;
use torus_grids::{
    Form, Torus, below, destabilise_at_random, exchange_at_random, shortened, stabilise_at_random,
};

/// Makes a random move, mostly an exchange.
fn move_at_random(torus: &mut Torus, generator: &mut Pcg32) -> bool {
    match below(generator, 8) {
        0 => stabilise_at_random(torus, generator),
        1 => destabilise_at_random(torus, generator),
        _ => exchange_at_random(torus, generator),
    }
}

/// Puts a form after others, but where it is the last of them: shifts lead to translates.
fn push(path: &mut Vec<Form>, form: Form) -> Result<(), Fail> {
    if path.as_slice().last().copied() != Some(form) {
        path.push(form)?;
    }
    Ok(())
}

/// The forms along a walk at random from the closure of a braid of the figure eight knot.
fn walked(alloc: Global, seed: u64) -> Result<Vec<Form>, Fail> {
    let grid = Grid::new(
        &[0, 1, 4, 6, 5, 3, 2, 7, 8, 9],
        &[3, 5, 9, 8, 7, 6, 4, 2, 1, 0],
    )
    .map_err(|_| "no grid")?;
    let mut torus = Torus::of(&grid);
    let mut generator = Pcg32::new(seed, 54);
    let mut path = Vec::new(alloc);
    push(&mut path, Form::of(&torus))?;
    for _move in 0..500 {
        let _is_made = move_at_random(&mut torus, &mut generator);
        push(&mut path, Form::of(&torus))?;
    }
    Ok(path)
}

/// Whether a path goes from one form to another.
fn has_ends(path: &[Form], first: Form, last: Form) -> bool {
    path.first().copied() == Some(first) && path.last().copied() == Some(last)
}

/// Whether the shorter path that is made of a path has its ends, and isn't longer.
fn is_shortened(alloc: Global, path: Vec<Form>, seed: u64) -> Result<bool, Fail> {
    let count = path.len();
    let first = path.as_slice().first().copied().ok_or("no form")?;
    let last = path.as_slice().last().copied().ok_or("no form")?;
    let shorter = shortened(alloc, path, seed).map_err(|_| "no memory")?;
    Ok(shorter.len() <= count && has_ends(shorter.as_slice(), first, last))
}

#[test]
fn long_paths_are_shortened(rt: HostRuntime) -> Result<(), Fail> {
    for seed in 1u64..4 {
        let path = walked(rt.alloc(), seed)?;
        assert!(rt; path.len() > 100);
        assert!(rt; is_shortened(rt.alloc(), path, seed)?);
    }
    Ok(())
}
