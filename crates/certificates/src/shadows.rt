//! Shadow cocycles, printed.
ghost use Rattle.std.specs.Prelude.{◌≡◌, ◌<◌, ◌*◌, ◌++◌, ◌/◌, ◌%◌, map, OnOk};
ghost use Rattle.std.specs.List.{range_with_len};
ghost use Rattle.text_lines.specs.Spelled.{lines_text};
ghost use Rattle.cocycle_core.specs.ShadowCocycle.{shadow_value};
ghost use Rattle.certificates.specs.Shadows.{shadow_value_lines, shadow_text};

use arrayvec::ArrayVec;
use colour_weights::ShadowCocycle;
use number_text::{SpelledShadow, Spelling};
use quandle_core::MAX_ORDER;
use std::alloc::AllocError;
use text_lines::{push_counted, push_number_line};

/// Appends the text of a shadow cocycle: the name of the formula, or the modulus and the table.
pub fn push_shadow(out: &mut Vec<u8>, shadow: &SpelledShadow) -> Result<(), AllocError>
    ensures { OnOk result (out.new.items ≡ out.old.items ++ shadow_text shadow.now) }
{
    match shadow.spelling {
        Spelling::Mochizuki => out.extend_from_slice(b"shadow mochizuki\n"),
        Spelling::Table => {
            push_counted(out, b"shadow ", u64::from(shadow.cocycle.modulus()))?;
            push_values(out, &shadow.cocycle)
        }
    }
}

/// Appends a line for each colour of a region and each colour of a strand.
fn push_values(out: &mut Vec<u8>, cocycle: &ShadowCocycle) -> Result<(), AllocError>
    ensures { OnOk result (out.new.items ≡ out.old.items ++ lines_text (shadow_value_lines cocycle.now)) }
{
    let _modulus = cocycle.modulus();
    let order = cocycle.quandle().order() as usize;
    for k in 0..order * order {
        let row = values_of(cocycle, (k / order) as u8, (k % order) as u8);
        push_number_line(out, row.as_slice())?;
    }
    Ok(())
}

/// The values of a colour of a region and one of a strand with each colour.
fn values_of(cocycle: &ShadowCocycle, w: u8, x: u8) -> ArrayVec<u8, MAX_ORDER>
    requires { (w < cocycle.now.quandle.order) × (x < cocycle.now.quandle.order) }
    ensures { result.items ≡ map (shadow_value cocycle.now w x) (range_with_len 0 cocycle.now.quandle.order) }
{
    let mut row = ArrayVec::new();
    for y in 0..cocycle.quandle().order() {
        row.push(cocycle.value(w, x, y));
    }
    row
}
