//! How values without nodes are written: a single value bare, a list in brackets.

ghost use Rattle.std.specs.Prelude.{◌≡◌, ◌++◌, ℤ, List, OnOk, IfOk, flat_map};
ghost use Rattle.classic_tree.specs.declared.tree.RawValue.TheVariants as raw;
ghost use Rattle.scene_text.specs.Raw.{integer_run, number_run, pair_run, vector_run, color_run, truth_list, string_list, number_list, plain};

use classic_tree::RawValue;
use std::alloc::{AllocError, Global};
use x3d_values::{Color, Duplicate, Items, Text, Value, Vec2, Vec3};

/// A value that is written as one or more numerals.
trait Numerals {
    ghost run: { Self → List ℤ };

    /// Appends the numerals, in millionths. If memory is refused, a part of them may be appended.
    fn push_to(&self, out: &mut Vec<i64>) -> Result<(), AllocError>
        ensures { OnOk result (out.new.items ≡ out.old.items ++ run self.now) };
}

impl Numerals for i32 {
    ghost run = { integer_run };

    fn push_to(&self, out: &mut Vec<i64>) -> Result<(), AllocError> {
        out.push(i64::from(*self) * 1_000_000)?;
        Ok(())
    }
}

impl Numerals for i64 {
    ghost run = { number_run };

    fn push_to(&self, out: &mut Vec<i64>) -> Result<(), AllocError> {
        out.push(*self)?;
        Ok(())
    }
}

impl Numerals for Vec2 {
    ghost run = { pair_run };

    fn push_to(&self, out: &mut Vec<i64>) -> Result<(), AllocError> {
        out.extend_from_slice(&[self.x, self.y])
    }
}

impl Numerals for Vec3 {
    ghost run = { vector_run };

    fn push_to(&self, out: &mut Vec<i64>) -> Result<(), AllocError> {
        out.extend_from_slice(&[self.x, self.y, self.z])
    }
}

impl Numerals for Color {
    ghost run = { color_run };

    fn push_to(&self, out: &mut Vec<i64>) -> Result<(), AllocError> {
        out.extend_from_slice(&[self.red, self.green, self.blue])
    }
}

/// Returns the raw value of a value without nodes. No node is NULL, and no nodes are an empty list.
pub(crate) fn plain<N: Drop>(alloc: Global, value: &Value) -> Result<RawValue<N>, AllocError>
    ensures { IfOk result (λ made. made ≡ plain value.now) }
{
    match value {
        Value::SFBool(truth) => Ok(RawValue::Truth(*truth)),
        Value::SFInt32(number) => bare(alloc, number),
        Value::SFFloat(number) => bare(alloc, number),
        Value::SFTime(time) => bare(alloc, time),
        Value::SFString(text) => Ok(RawValue::String(text.duplicate(alloc)?)),
        Value::SFVec2f(vector) => bare(alloc, vector),
        Value::SFVec3f(vector) => bare(alloc, vector),
        Value::SFColor(color) => bare(alloc, color),
        Value::SFNode(_) => Ok(RawValue::Null),
        Value::MFBool(truths) => truth_list(alloc, truths.as_slice()),
        Value::MFInt32(numbers) => number_list(alloc, numbers.as_slice()),
        Value::MFFloat(numbers) => number_list(alloc, numbers.as_slice()),
        Value::MFTime(times) => number_list(alloc, times.as_slice()),
        Value::MFString(texts) => string_list(alloc, texts),
        Value::MFVec2f(vectors) => number_list(alloc, vectors.as_slice()),
        Value::MFVec3f(vectors) => number_list(alloc, vectors.as_slice()),
        Value::MFColor(colors) => number_list(alloc, colors.as_slice()),
        Value::MFNode(_) => Ok(RawValue::EmptyList),
    }
}

/// Returns a single value, without brackets.
fn bare<T: Numerals, N: Drop>(alloc: Global, value: &T) -> Result<RawValue<N>, AllocError>
    ensures { IfOk result (λ made. made ≡ raw.Numbers (T.run value.now)) }
{
    let mut run = Vec::new(alloc);
    value.push_to(&mut run)?;
    Ok(RawValue::Numbers(Items::from_vec(run)))
}

fn runs<T: Numerals>(alloc: Global, values: &[T]) -> Result<Vec<i64>, AllocError>
    ensures { IfOk result (λ made. made.items ≡ flat_map T.run values.now) }
{
    let mut run = Vec::new(alloc);
    for value in values {
        value.push_to(&mut run)?;
    }
    Ok(run)
}

#[tactic(auto, using(crate::proofs::Listed::number_list_is))]
fn number_list<T: Numerals, N: Drop>(alloc: Global, values: &[T]) -> Result<RawValue<N>, AllocError>
    ensures { IfOk result (λ made. made ≡ number_list (flat_map T.run values.now)) }
{
    let run = runs(alloc, values)?;
    if run.is_empty() {
        Ok(RawValue::EmptyList)
    } else {
        Ok(RawValue::NumberList(Items::from_vec(run)))
    }
}

#[tactic(auto, using(crate::proofs::Listed::truth_list_is))]
fn truth_list<N: Drop>(alloc: Global, truths: &[bool]) -> Result<RawValue<N>, AllocError>
    ensures { IfOk result (λ made. made ≡ truth_list truths.now) }
{
    if truths.is_empty() {
        Ok(RawValue::EmptyList)
    } else {
        Ok(RawValue::TruthList(Items::from_slice(alloc, truths)?))
    }
}

#[tactic(auto, using(crate::proofs::Listed::string_list_is))]
fn string_list<N: Drop>(alloc: Global, texts: &Items<Text>) -> Result<RawValue<N>, AllocError>
    ensures { IfOk result (λ made. made ≡ string_list texts.now) }
{
    if texts.is_empty() {
        Ok(RawValue::EmptyList)
    } else {
        Ok(RawValue::StringList(texts.duplicate(alloc)?))
    }
}
