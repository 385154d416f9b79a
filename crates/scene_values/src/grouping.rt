//! Numerals as the components of vectors and colours, and as whole numbers.

ghost use Rattle.std.specs.Prelude.{◌≡◌, map, true, IfOk};
ghost use Rattle.std.specs.List.{list_all};
ghost use Rattle.x3d_lists.specs.Answers.{Gives};
ghost use Rattle.scene_values.specs.declared.quantity.Quantity.TheVariants.{Number};
ghost use Rattle.scene_values.specs.Grouping.{pair, vector, color, pairs, vectors, colors};
ghost use Rattle.scene_values.specs.Quantities.{is_integer, whole};
ghost use Rattle.scene_values.specs.Typing.{made, run, runs};

use crate::fault::ValueFault;
use crate::numerals::{run, runs};
use crate::quantity::{Quantity, whole};
use classic_tree::RawValue;
use std::alloc::{AllocError, Global};
use x3d_values::{Color, Items, Vec2, Vec3};

pub(crate) fn pair(raw: &RawValue<u32>) -> Result<Vec2, ValueFault>
    ensures { result ≡ made pair (run 2 Number raw.now) }
{
    let list = run(2, Quantity::Number, raw)?;
    Ok(Vec2 {
        x: list[0],
        y: list[1],
    })
}

pub(crate) fn vector(raw: &RawValue<u32>) -> Result<Vec3, ValueFault>
    ensures { result ≡ made vector (run 3 Number raw.now) }
{
    let list = run(3, Quantity::Number, raw)?;
    Ok(Vec3 {
        x: list[0],
        y: list[1],
        z: list[2],
    })
}

pub(crate) fn color(raw: &RawValue<u32>) -> Result<Color, ValueFault>
    ensures { result ≡ made color (run 3 Number raw.now) }
{
    let list = run(3, Quantity::Number, raw)?;
    Ok(Color {
        red: list[0],
        green: list[1],
        blue: list[2],
    })
}

pub(crate) fn pairs(alloc: Global, raw: &RawValue<u32>) -> Result<Items<Vec2>, ValueFault>
    ensures { Gives ValueFault.Memory (λ v. v) result (made pairs (runs 2 Number raw.now)) }
{
    let list = runs(2, Quantity::Number, raw)?;
    Ok(pairs_of(alloc, list)?)
}

fn pairs_of(alloc: Global, numbers: &[i64]) -> Result<Items<Vec2>, AllocError>
    ensures { IfOk result (λ items. items ≡ pairs numbers.now) }
{
    let mut items = Vec::with_capacity(alloc, numbers.len() / 2)?;
    let mut rest = numbers;
    while let [x, y, others @ ..] = rest {
        items.push(Vec2 { x: *x, y: *y })?;
        rest = others;
    }
    Ok(Items::from_vec(items))
}

pub(crate) fn vectors(alloc: Global, raw: &RawValue<u32>) -> Result<Items<Vec3>, ValueFault>
    ensures { Gives ValueFault.Memory (λ v. v) result (made vectors (runs 3 Number raw.now)) }
{
    let list = runs(3, Quantity::Number, raw)?;
    Ok(vectors_of(alloc, list)?)
}

fn vectors_of(alloc: Global, numbers: &[i64]) -> Result<Items<Vec3>, AllocError>
    ensures { IfOk result (λ items. items ≡ vectors numbers.now) }
{
    let mut items = Vec::with_capacity(alloc, numbers.len() / 3)?;
    let mut rest = numbers;
    while let [x, y, z, others @ ..] = rest {
        items.push(Vec3 {
            x: *x,
            y: *y,
            z: *z,
        })?;
        rest = others;
    }
    Ok(Items::from_vec(items))
}

pub(crate) fn colors(alloc: Global, raw: &RawValue<u32>) -> Result<Items<Color>, ValueFault>
    ensures { Gives ValueFault.Memory (λ v. v) result (made colors (runs 3 Number raw.now)) }
{
    let list = runs(3, Quantity::Number, raw)?;
    Ok(colors_of(alloc, list)?)
}

fn colors_of(alloc: Global, numbers: &[i64]) -> Result<Items<Color>, AllocError>
    ensures { IfOk result (λ items. items ≡ colors numbers.now) }
{
    let mut items = Vec::with_capacity(alloc, numbers.len() / 3)?;
    let mut rest = numbers;
    while let [red, green, blue, others @ ..] = rest {
        items.push(Color {
            red: *red,
            green: *green,
            blue: *blue,
        })?;
        rest = others;
    }
    Ok(Items::from_vec(items))
}

/// Returns the whole numbers of the numerals. Every numeral must be a whole number.
pub(crate) fn wholes(alloc: Global, numbers: &[i64]) -> Result<Items<i32>, AllocError>
    requires { list_all is_integer numbers.now ≡ true }
    ensures { IfOk result (λ items. items ≡ map whole numbers.now) }
{
    let mut items = Vec::with_capacity(alloc, numbers.len())?;
    for number in numbers {
        items.push(whole(*number))?;
    }
    Ok(Items::from_vec(items))
}
