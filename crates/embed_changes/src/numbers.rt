//! The numbers of a value.

ghost use Rattle.std.specs.Prelude.{◌≡◌, ◌++◌, ℤ, List, OnOk};
ghost use Rattle.std.specs.List.{flat_map};
ghost use Rattle.x3d_values.specs.Vectors.{number_run, pair_run, vector_run, color_run};
ghost use Rattle.embed_changes.specs.Numbers as spec;

use std::alloc::AllocError;
use x3d_values::{Color, Value, Vec2, Vec3};

/// A type that has numbers.
trait Numbers {
    ghost numbers: { Self → List ℤ };

    /// Appends the numbers. On an error, part of them may be appended.
    fn push_to(&self, out: &mut Vec<i64>) -> Result<(), AllocError>
        ensures { OnOk result (out.new.items ≡ out.old.items ++ numbers self.now) };
}

impl Numbers for bool {
    ghost numbers = { spec.truth_numbers };

    fn push_to(&self, out: &mut Vec<i64>) -> Result<(), AllocError> {
        if *self {
            out.extend_from_slice(&[1])
        } else {
            out.extend_from_slice(&[0])
        }
    }
}

impl Numbers for i32 {
    ghost numbers = { number_run };

    fn push_to(&self, out: &mut Vec<i64>) -> Result<(), AllocError> {
        out.push(i64::from(*self))?;
        Ok(())
    }
}

impl Numbers for i64 {
    ghost numbers = { number_run };

    fn push_to(&self, out: &mut Vec<i64>) -> Result<(), AllocError> {
        out.push(*self)?;
        Ok(())
    }
}

/// A node, by its number.
impl Numbers for u32 {
    ghost numbers = { spec.node_numbers };

    fn push_to(&self, out: &mut Vec<i64>) -> Result<(), AllocError> {
        out.push(i64::from(*self))?;
        Ok(())
    }
}

impl Numbers for Vec2 {
    ghost numbers = { pair_run };

    fn push_to(&self, out: &mut Vec<i64>) -> Result<(), AllocError> {
        out.extend_from_slice(&[self.x, self.y])
    }
}

impl Numbers for Vec3 {
    ghost numbers = { vector_run };

    fn push_to(&self, out: &mut Vec<i64>) -> Result<(), AllocError> {
        out.extend_from_slice(&[self.x, self.y, self.z])
    }
}

impl Numbers for Color {
    ghost numbers = { color_run };

    fn push_to(&self, out: &mut Vec<i64>) -> Result<(), AllocError> {
        out.extend_from_slice(&[self.red, self.green, self.blue])
    }
}

/// Appends the numbers of all items. On an error, part of them may be appended.
fn push_all<T: Numbers>(items: &[T], out: &mut Vec<i64>) -> Result<(), AllocError>
    ensures { OnOk result (out.new.items ≡ out.old.items ++ flat_map T.numbers items.now) }
{
    for item in items {
        item.push_to(out)?;
    }
    Ok(())
}

/// Appends the numbers of a value: truths as 1 and 0, integers, millionths and microseconds
/// unchanged, vectors and colors part by part, nodes as their numbers. A text has none. On an
/// error, part of the numbers may be appended.
pub fn push_numbers(value: &Value, out: &mut Vec<i64>) -> Result<(), AllocError>
    ensures { OnOk result (out.new.items ≡ out.old.items ++ spec.numbers_of value.now) }
{
    match value {
        Value::SFBool(truth) => truth.push_to(out),
        Value::SFInt32(number) => number.push_to(out),
        Value::SFFloat(number) => number.push_to(out),
        Value::SFTime(time) => time.push_to(out),
        Value::SFString(_) => Ok(()),
        Value::SFVec2f(vector) => vector.push_to(out),
        Value::SFVec3f(vector) => vector.push_to(out),
        Value::SFColor(color) => color.push_to(out),
        Value::SFNode(None) => Ok(()),
        Value::SFNode(Some(node)) => node.push_to(out),
        Value::MFBool(truths) => push_all(truths.as_slice(), out),
        Value::MFInt32(numbers) => push_all(numbers.as_slice(), out),
        Value::MFFloat(numbers) => push_all(numbers.as_slice(), out),
        Value::MFTime(times) => push_all(times.as_slice(), out),
        Value::MFString(_) => Ok(()),
        Value::MFVec2f(vectors) => push_all(vectors.as_slice(), out),
        Value::MFVec3f(vectors) => push_all(vectors.as_slice(), out),
        Value::MFColor(colors) => push_all(colors.as_slice(), out),
        Value::MFNode(nodes) => push_all(nodes.as_slice(), out),
    }
}

/// Appends the numbers of nodes. On an error, part of them may be appended.
pub fn push_nodes(nodes: &[u32], out: &mut Vec<i64>) -> Result<(), AllocError>
    ensures { OnOk result (out.new.items ≡ out.old.items ++ flat_map spec.node_numbers nodes.now) }
{
    push_all(nodes, out)
}
