//! Whether a value is the default of its field.

ghost use Rattle.std.specs.Prelude.{◌≡◌};
ghost use Rattle.scene_text.specs.Defaulted.{is_black, says_nothing, is_true, is_integer, is_number, is_time, is_pair, is_vector, is_color, is_string, is_word, are_standard_sizes, is_examine_any, is_one_black, is_default};

use x3d_values::{Color, FieldDefault, Value, Vec2, Vec3};

/// Reports whether the value equals the default. Takes no memory.
pub(crate) fn is_default(default: &FieldDefault, value: &Value) -> bool
    ensures { result ≡ is_default default.now value.now }
{
    match default {
        FieldDefault::Empty => says_nothing(value),
        FieldDefault::True => is_true(value),
        FieldDefault::Int32(number) => is_integer(number, value),
        FieldDefault::Float(number) => is_number(number, value),
        FieldDefault::Time(time) => is_time(time, value),
        FieldDefault::Vec2f(pair) => is_pair(pair, value),
        FieldDefault::Vec3f(vector) => is_vector(vector, value),
        FieldDefault::Color(color) => is_color(color, value),
        FieldDefault::PlainStyle => is_string("PLAIN", value),
        FieldDefault::SerifFamily => is_word("SERIF", value),
        FieldDefault::BeginJustify => is_word("BEGIN", value),
        FieldDefault::StandardAvatar => are_standard_sizes(value),
        FieldDefault::ExamineAny => is_examine_any(value),
        FieldDefault::BlackSky => is_one_black(value),
    }
}

fn is_black(color: &Color) -> bool
    ensures { result ≡ is_black color.now }
{
    color.red == 0 && (color.green == 0 && color.blue == 0)
}

/// Reports whether the value is FALSE, 0, the empty string, zeros, no node or an empty list.
fn says_nothing(value: &Value) -> bool
    ensures { result ≡ says_nothing value.now }
{
    match value {
        Value::SFBool(truth) => !*truth,
        Value::SFInt32(number) => *number == 0,
        Value::SFFloat(number) => *number == 0,
        Value::SFTime(time) => *time == 0,
        Value::SFString(text) => text.as_bytes().len() == 0,
        Value::SFVec2f(vector) => vector.x == 0 && vector.y == 0,
        Value::SFVec3f(vector) => vector.x == 0 && (vector.y == 0 && vector.z == 0),
        Value::SFColor(color) => is_black(color),
        Value::SFNode(node) => node.is_none(),
        Value::MFBool(truths) => truths.len() == 0,
        Value::MFInt32(numbers) => numbers.len() == 0,
        Value::MFFloat(numbers) => numbers.len() == 0,
        Value::MFTime(times) => times.len() == 0,
        Value::MFString(texts) => texts.len() == 0,
        Value::MFVec2f(vectors) => vectors.len() == 0,
        Value::MFVec3f(vectors) => vectors.len() == 0,
        Value::MFColor(colors) => colors.len() == 0,
        Value::MFNode(nodes) => nodes.len() == 0,
    }
}

fn is_true(value: &Value) -> bool
    ensures { result ≡ is_true value.now }
{
    match value {
        Value::SFBool(truth) => *truth,
        _ => false,
    }
}

fn is_integer(wanted: &i32, value: &Value) -> bool
    ensures { result ≡ is_integer wanted.now value.now }
{
    match value {
        Value::SFInt32(number) => *number == *wanted,
        _ => false,
    }
}

fn is_number(wanted: &i64, value: &Value) -> bool
    ensures { result ≡ is_number wanted.now value.now }
{
    match value {
        Value::SFFloat(number) => *number == *wanted,
        _ => false,
    }
}

fn is_time(wanted: &i64, value: &Value) -> bool
    ensures { result ≡ is_time wanted.now value.now }
{
    match value {
        Value::SFTime(time) => *time == *wanted,
        _ => false,
    }
}

fn is_pair(wanted: &Vec2, value: &Value) -> bool
    ensures { result ≡ is_pair wanted.now value.now }
{
    match value {
        Value::SFVec2f(pair) => pair.x == wanted.x && pair.y == wanted.y,
        _ => false,
    }
}

fn is_vector(wanted: &Vec3, value: &Value) -> bool
    ensures { result ≡ is_vector wanted.now value.now }
{
    match value {
        Value::SFVec3f(vector) => {
            vector.x == wanted.x && (vector.y == wanted.y && vector.z == wanted.z)
        }
        _ => false,
    }
}

fn is_color(wanted: &Color, value: &Value) -> bool
    ensures { result ≡ is_color wanted.now value.now }
{
    match value {
        Value::SFColor(color) => {
            color.red == wanted.red && (color.green == wanted.green && color.blue == wanted.blue)
        }
        _ => false,
    }
}

fn is_string(wanted: &str, value: &Value) -> bool
    ensures { result ≡ is_string wanted.now value.now }
{
    match value {
        Value::SFString(text) => text.as_str() == wanted,
        _ => false,
    }
}

/// Reports whether the value is a list of only the string `wanted`.
fn is_word(wanted: &str, value: &Value) -> bool
    ensures { result ≡ is_word wanted.now value.now }
{
    let Value::MFString(texts) = value else {
        return false;
    };
    match texts.as_slice() {
        [text] => text.as_str() == wanted,
        _ => false,
    }
}

/// Reports whether the value is `["EXAMINE" "ANY"]`.
fn is_examine_any(value: &Value) -> bool
    ensures { result ≡ is_examine_any value.now }
{
    let Value::MFString(texts) = value else {
        return false;
    };
    match texts.as_slice() {
        [first, second] => first.as_str() == "EXAMINE" && second.as_str() == "ANY",
        _ => false,
    }
}

/// Reports whether the value is `[0.25 1.6 0.75]`.
fn are_standard_sizes(value: &Value) -> bool
    ensures { result ≡ are_standard_sizes value.now }
{
    let Value::MFFloat(numbers) = value else {
        return false;
    };
    match numbers.as_slice() {
        [reach, height, step] => { *reach == 250_000 && (*height == 1_600_000 && *step == 750_000) }
        _ => false,
    }
}

/// Reports whether the value is `[0 0 0]`.
fn is_one_black(value: &Value) -> bool
    ensures { result ≡ is_one_black value.now }
{
    let Value::MFColor(colors) = value else {
        return false;
    };
    match colors.as_slice() {
        [color] => is_black(color),
        _ => false,
    }
}
